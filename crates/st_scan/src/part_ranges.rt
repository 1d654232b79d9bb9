//! The ranges of a part of a plan.
ghost use Rattle.std.specs.Prelude.{◌≡◌, ◌&&◌, nat_le};
ghost use Rattle.std.specs.List.{list_any};
ghost use Rattle.st_plan.specs.Range.{is_exact_in};

use st_key::Key;
use st_plan::Range;

// Bins that follow each other, and the ranges of addresses that hold a query in each of them.
#[derive(Clone, Copy)]
pub(crate) struct PartRanges<'p> {
    pub bin_lo: u32,
    pub bin_hi: u32,
    pub ranges: &'p [Range],
}

impl<'p> Default for PartRanges<'p> {
    // The first bin without a range.
    fn default() -> PartRanges<'p> {
        PartRanges {
            bin_lo: 0,
            bin_hi: 0,
            ranges: &[],
        }
    }
}

impl<'p> PartRanges<'p> {
    // Whether an exact range holds the address.
    fn has_exact(self, address: u64) -> bool
        ensures { result ≡ list_any (is_exact_in address) self.entry.ranges.now }
    {
        for range in self.ranges {
            if range.is_exact_at(address) {
                return true;
            }
        }
        false
    }

    /// Whether the key is in a bin of the part, and there in an exact range.
    pub fn is_exact(self, key: Key) -> bool
        ensures { result ≡ (nat_le self.entry.bin_lo key.bin && nat_le key.bin self.entry.bin_hi && list_any
            (is_exact_in key.address) self.entry.ranges.now) }
    {
        self.bin_lo <= key.bin() && key.bin() <= self.bin_hi && self.has_exact(key.address())
    }
}
