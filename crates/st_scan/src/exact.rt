//! The exact ranges of a plan.
ghost use Rattle.std.specs.Prelude.{◌≡◌, IsTrue};
ghost use Rattle.std.specs.List.{list_any};
ghost use Rattle.st_key.specs.declared.key.Key.{Key};
ghost use Rattle.st_plan.specs.QueryPlan.{is_exact as has_plan};
ghost use Rattle.st_scan.specs.inner.Steps.{has_exact};

use crate::part_ranges::PartRanges;
use arrayvec::ArrayVec;
use st_key::Key;
use st_plan::Plan;
use std::alloc::Allocator;

// The ranges of each part of a plan.
pub(crate) fn ranges_of<A: Allocator + Copy>(plan: &Plan<A>) -> ArrayVec<PartRanges<'_>, 3>
    ensures { (k : Key) → IsTrue (list_any (has_exact k) result.items) → IsTrue (has_plan plan.now k) }
{
    let mut parts = ArrayVec::new();
    for part in plan.parts() {
        if parts.is_full() {
            return parts;
        }
        parts.push(PartRanges {
            bin_lo: part.bin_lo,
            bin_hi: part.bin_hi,
            ranges: part.ranges.as_slice(),
        });
    }
    parts
}

// Whether one of the parts has the key in an exact range.
pub(crate) fn is_exact(parts: &[PartRanges], key: Key) -> bool
    ensures { result ≡ list_any (has_exact key) parts.now }
{
    for part in parts {
        if part.is_exact(key) {
            return true;
        }
    }
    false
}
