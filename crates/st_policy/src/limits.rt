//! How much a request asks for.
ghost use Rattle.std.specs.Prelude.{◌≡◌, ◌↔◌, ◌≤◌, IsSome, IfSome};

use std::marker::Model;

/// How many rows a page has at most: 1 to [`Limit::MAX`].
#[derive(Clone, Copy)]
pub struct Limit {
    rows: u64,
}

impl Model for Limit {
    ghost use Rattle.std.specs.Prelude.{ℕ, ◌≤◌};

    ghost Value = { ℕ };

    ghost view = { λ l. l.rows };

    ghost invariant = { λ l. (1 ≤ l.rows) × (l.rows ≤ 1000) };

    ghost inverse = { λ n. record { rows = n } };
}

impl Limit {
    /// The greatest limit.
    pub const MAX: u64 = 1000;

    /// The limit with this number, or `None` where it is not 1 to [`Limit::MAX`].
    pub fn new(number: u64) -> Option<Limit>
        ensures in_range { IsSome result ↔ (1 ≤ number) × (number ≤ 1000) }
        ensures value { IfSome result (λ limit. limit ≡ number) }
    {
        if 1 <= number && number <= Self::MAX {
            return Some(Limit { rows: number });
        }
        None
    }

    /// The number of rows.
    pub fn get(&self) -> usize
        ensures value { result ≡ self.now }
        ensures some { 1 ≤ result }
        ensures few { result ≤ 1000 }
    {
        self.rows as usize
    }
}

/// How many columns or lines a grid has: 1 to [`Side::MAX`].
#[derive(Clone, Copy)]
pub struct Side {
    fields: u64,
}

impl Model for Side {
    ghost use Rattle.std.specs.Prelude.{ℕ, ◌≤◌};

    ghost Value = { ℕ };

    ghost view = { λ s. s.fields };

    ghost invariant = { λ s. (1 ≤ s.fields) × (s.fields ≤ 32) };

    ghost inverse = { λ n. record { fields = n } };
}

impl Side {
    /// The longest side.
    pub const MAX: u64 = 32;

    /// The side of this number of fields, or `None` where it is not 1 to [`Side::MAX`].
    pub fn new(number: u64) -> Option<Side>
        ensures in_range { IsSome result ↔ (1 ≤ number) × (number ≤ 32) }
        ensures value { IfSome result (λ side. side ≡ number) }
    {
        if 1 <= number && number <= Self::MAX {
            return Some(Side { fields: number });
        }
        None
    }

    /// The number of fields.
    pub fn get(&self) -> usize
        ensures value { result ≡ self.now }
        ensures some { 1 ≤ result }
        ensures few { result ≤ 32 }
    {
        self.fields as usize
    }
}

/// How many ranges a plan has at most for each part of a query's span: 1 to [`Budget::MAX`].
#[derive(Clone, Copy)]
pub struct Budget {
    ranges: u64,
}

impl Model for Budget {
    ghost use Rattle.std.specs.Prelude.{ℕ, ◌≤◌};

    ghost Value = { ℕ };

    ghost view = { λ b. b.ranges };

    ghost invariant = { λ b. (1 ≤ b.ranges) × (b.ranges ≤ 64) };

    ghost inverse = { λ n. record { ranges = n } };
}

impl Budget {
    /// The greatest budget.
    pub const MAX: u64 = 64;

    /// The budget with this number, or `None` where it is not 1 to [`Budget::MAX`].
    pub fn new(number: u64) -> Option<Budget>
        ensures in_range { IsSome result ↔ (1 ≤ number) × (number ≤ 64) }
        ensures value { IfSome result (λ budget. budget ≡ number) }
    {
        if 1 <= number && number <= Self::MAX {
            return Some(Budget { ranges: number });
        }
        None
    }

    /// The number of ranges.
    pub fn get(&self) -> usize
        ensures value { result ≡ self.now }
        ensures some { 1 ≤ result }
        ensures few { result ≤ 64 }
    {
        self.ranges as usize
    }
}
