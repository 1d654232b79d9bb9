//! Ranges of addresses.
ghost use Rattle.std.specs.Prelude.{◌≡◌};

/// Addresses from one to another, both included.
#[derive(Clone, Copy, Debug, PartialEq, Eq)]
pub struct Range {
    pub lo: u64,
    pub hi: u64,
    /// Whether each of them is in the box.
    pub exact: bool,
}

impl Range {
    ghost use Rattle.st_plan.specs.Range.{is_exact_in};

    /// Whether the address is in the range and the range is exact.
    pub fn is_exact_at(&self, address: u64) -> bool
        ensures { result ≡ is_exact_in address self.now }
    {
        self.exact && self.lo <= address && address <= self.hi
    }
}
