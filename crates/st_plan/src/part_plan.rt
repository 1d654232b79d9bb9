//! Plans, part by part.
ghost use Rattle.std.specs.Prelude.{◌≡◌, ◌&&◌, nat_le};
ghost use Rattle.std.specs.List.{list_any};
ghost use Rattle.st_plan.specs.QueryPlan.{is_exact};
ghost use Rattle.st_plan.specs.Range.{is_exact_in};

use crate::range::Range;
use st_key::Key;
use st_text::Items;
use std::alloc::{Allocator, Global};
use std::marker::Model;

/// Bins that follow each other, and the ranges of addresses that hold a query in each of them, in
/// rising order.
#[derive(Drop)]
pub struct PartPlan<A: Allocator = Global> {
    pub bin_lo: u32,
    pub bin_hi: u32,
    pub ranges: Items<Range, A>,
}

/// The plan of a query: the ranges of its keys, for each part of its span.
#[derive(Drop)]
pub struct Plan<A: Allocator = Global> {
    /// In rising order.
    pub parts: Items<PartPlan<A>, A>,
}

impl<A: Allocator> Model for Plan<A> {
    ghost use Rattle.std.specs.Prelude.{List};
    ghost use Rattle.st_plan.specs.declared.part_plan.PartPlan.{PartPlan};

    ghost Value = { List (PartPlan A) };

    ghost view = { λ p. p.parts };
}

impl<A: Allocator> PartPlan<A> {
    /// Whether an address is in an exact range.
    pub fn is_exact(&self, address: u64) -> bool
        ensures { result ≡ list_any (is_exact_in address) self.now.ranges }
    {
        for range in self.ranges.as_slice() {
            if range.is_exact_at(address) {
                return true;
            }
        }
        false
    }

    // Whether the part has the bin.
    fn has_bin(&self, bin: u32) -> bool
        ensures { result ≡ (nat_le self.now.bin_lo bin && nat_le bin self.now.bin_hi) }
    {
        self.bin_lo <= bin && bin <= self.bin_hi
    }
}

impl<A: Allocator> Plan<A> {
    /// The parts, in rising order.
    pub fn parts(&self) -> &[PartPlan<A>]
        ensures { result.now ≡ self.now }
    {
        self.parts.as_slice()
    }

    /// Whether the key is in an exact range of its bin, all of whose keys are the query's.
    pub fn is_exact(&self, key: Key) -> bool
        ensures { result ≡ is_exact self.now key }
    {
        for part in self.parts() {
            if part.has_bin(key.bin()) && part.is_exact(key.address()) {
                return true;
            }
        }
        false
    }
}
