//! The runs of a box: the maximal intervals of consecutive addresses in it.
ghost use Rattle.std.specs.Prelude.{◌≡◌, ◌↔◌, ℕ, ◌^◌, ◌<◌, ◌≤◌, ◌+◌, ◌*◌, ◌/◌, IsTrue, IfSome, IfNone};
ghost use Rattle.st_bigmin.specs.Run.{IsNextRun};
ghost use Rattle.st_bigmin.specs.inner.Runs.{IsRunTo, IsLeastInCell, IsGreatestInCell};
ghost use Rattle.st_bigmin.specs.inner.Cells.{HasCell, IsFirstOutside};
ghost use Rattle.st_box.specs.ZBox.{IsInside};

use crate::jump::{bigmin, cell};
use st_box::{Corner, ZBox};

/// Addresses that follow one another, the first and the last included.
#[derive(Clone, Copy, PartialEq, Eq, Debug)]
pub struct Run {
    pub first: u64,
    pub last: u64,
}

// Whether the addresses that are `prefix` above their lowest `level` bits are all between two
// corners.
fn has_cell(first: &Corner, last: &Corner, prefix: u64, level: u32) -> bool
    requires level_in_range { level < 64 }
    requires fits { (prefix + 1) * 2 ^ level ≤ 2 ^ 63 }
    ensures { IsTrue result ↔ HasCell first.now last.now level prefix }
{
    let (cell_first, cell_last) = cell(prefix, level);
    first.is_within(&cell_first) && cell_last.is_within(last)
}

// The first address of a cell that is not between two corners.
fn first_outside(first: &Corner, last: &Corner, prefix: u64, level: u32) -> u64
    requires level_in_range { level < 64 }
    requires fits { (prefix + 1) * 2 ^ level ≤ 2 ^ 63 }
    requires open { HasCell first.now last.now level prefix → ⊥ }
    ensures first { IsFirstOutside first.now last.now (prefix * 2 ^ level) result }
    ensures in_cell { result < (prefix + 1) * 2 ^ level }
{
    let mut at = prefix;
    let mut height = level;
    while height > 0 {
        height -= 1;
        at *= 2;
        if has_cell(first, last, at, height) {
            at += 1;
        }
    }
    at
}

/// The last address of the run that goes on from here.
pub fn run_last(from: u64, zbox: &ZBox) -> u64
    requires { IsInside zbox.now from }
    ensures run { IsRunTo (IsInside zbox.now) from result }
    ensures in_range { result < 2 ^ 63 }
{
    let first = zbox.first();
    let last = zbox.last();
    for level in 0..63u32 {
        let prefix = from >> level;
        if prefix % 2 == 0 {
            let beside = prefix + 1;
            if !has_cell(&first, &last, beside, level) {
                return first_outside(&first, &last, beside, level) - 1;
            }
        }
    }
    (1 << 63) - 1
}

/// The first run from an address on.
pub fn next_run(from: u64, zbox: &ZBox) -> Option<Run>
    ensures some { IfSome result (IsNextRun (IsInside zbox.now) from) }
    ensures in_range { IfSome result (λ r. r.last < 2 ^ 63) }
    ensures none { IfNone result ((a : ℕ) → from ≤ a → IsInside zbox.now a → ⊥) }
{
    let first = if zbox.has_address(from) {
        from
    } else {
        bigmin(from, zbox)?
    };
    let last = run_last(first, zbox);
    Some(Run { first, last })
}

/// The least address of the box among those that are `prefix` above their lowest `level` bits.
pub fn first_in_cell(prefix: u64, level: u32, zbox: &ZBox) -> u64
    requires level_in_range { level < 64 }
    requires some { (a : ℕ) × (IsInside zbox.now a) × (a / 2 ^ level ≡ prefix) }
    ensures { IsLeastInCell zbox.now level prefix result }
{
    let (cell_first, _) = cell(prefix, level);
    zbox.first().later_address(&cell_first)
}

/// The greatest address of the box among those that are `prefix` above their lowest `level` bits.
pub fn last_in_cell(prefix: u64, level: u32, zbox: &ZBox) -> u64
    requires level_in_range { level < 64 }
    requires some { (a : ℕ) × (IsInside zbox.now a) × (a / 2 ^ level ≡ prefix) }
    ensures { IsGreatestInCell zbox.now level prefix result }
{
    let (_, cell_last) = cell(prefix, level);
    zbox.last().earlier_address(&cell_last)
}
