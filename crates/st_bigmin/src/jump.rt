//! The neighbours of a number among the addresses of a box.
ghost use Rattle.std.specs.Prelude.{◌≡◌, ℕ, ◌^◌, ◌<◌, ◌≤◌, ◌+◌, ◌-◌, ◌*◌, ◌/◌, IfSome, IfNone};
ghost use Rattle.st_box.specs.Corner.{spot_at};
ghost use Rattle.st_bigmin.specs.inner.Jump.{IsLeastAbove, IsGreatestBelow};
ghost use Rattle.st_bigmin.specs.inner.Cells.{IsBetween};
ghost use Rattle.st_box.specs.ZBox.{IsInside, first_of, last_of};
ghost use Rattle.st_box.specs.declared.zbox.ZBox.{ZBox};

use st_box::{Corner, ZBox};

// The first and the last place of the addresses that are `prefix` above their lowest `level`
// bits. They are all the places between these two.
pub(crate) fn cell(prefix: u64, level: u32) -> (Corner, Corner)
    requires level_in_range { level < 64 }
    requires fits { (prefix + 1) * 2 ^ level ≤ 2 ^ 63 }
    ensures first { result.0 ≡ spot_at (prefix * 2 ^ level) }
    ensures last { result.1 ≡ spot_at (prefix * 2 ^ level + (2 ^ level - 1)) }
{
    let first = prefix << level;
    let last = first + ((1 << level) - 1);
    (Corner::at(first), Corner::at(last))
}

// A level at which no address between two corners is both above `z` and in the cell of `z`. It
// is the highest bit at which `z` differs from the address of the place between them that is
// nearest to its own: that place is in each cell of `z` that has a place between them.
fn first_level(z: u64, first: &Corner, last: &Corner) -> u32
    requires in_range { z < 2 ^ 63 }
    ensures { (a : ℕ) → IsBetween first.now last.now a → z < a → z / 2 ^ result < a / 2 ^ result }
{
    let not_past = last.earlier_address(&Corner::at(z));
    let nearest = first.later_address(&Corner::at(not_past));
    63u32.saturating_sub((z ^ nearest).leading_zeros())
}

// The least address that is greater than `z`, of the box with these corners.
pub(crate) fn next_between(z: u64, first: &Corner, last: &Corner) -> Option<u64>
    requires { z < 2 ^ 63 }
    ensures some { IfSome result (λ m. (b : ZBox) → first_of b ≡ first.now → last_of b ≡ last.now → IsLeastAbove b z m) }
    ensures none { IfNone result ((b : ZBox) → first_of b ≡ first.now → last_of b ≡ last.now
        → (a : ℕ) → IsInside b a → a ≤ z) }
{
    // No address of the box is after that of its last corner. The search below would try each level to find that out.
    if z >= last.address() {
        return None;
    }
    for level in first_level(z, first, last)..63 {
        let prefix = z >> level;
        if prefix % 2 == 0 {
            let (cell_first, cell_last) = cell(prefix + 1, level);
            if cell_first.is_within(last) && first.is_within(&cell_last) {
                return Some(first.later_address(&cell_first));
            }
        }
    }
    None
}

/// The least address of the box that is greater than `z`.
pub fn bigmin(z: u64, zbox: &ZBox) -> Option<u64>
    ensures some { IfSome result (IsLeastAbove zbox.now z) }
    ensures none { IfNone result ((a : ℕ) → IsInside zbox.now a → a ≤ z) }
{
    if z >= 1 << 63 {
        return None;
    }
    next_between(z, &zbox.first(), &zbox.last())
}

/// The greatest address of the box that is less than `z`.
pub fn litmax(z: u64, zbox: &ZBox) -> Option<u64>
    ensures some { IfSome result (IsGreatestBelow zbox.now z) }
    ensures none { IfNone result ((a : ℕ) → IsInside zbox.now a → z ≤ a) }
{
    let end = z.min(1 << 63);
    let first = zbox.first();
    let last = zbox.last();
    for level in 0..64u32 {
        let prefix = end >> level;
        if prefix % 2 == 1 {
            let (cell_first, cell_last) = cell(prefix - 1, level);
            if cell_first.is_within(&last) && first.is_within(&cell_last) {
                return Some(last.earlier_address(&cell_last));
            }
        }
    }
    None
}
