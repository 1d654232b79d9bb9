//! Eight points at a time.
ghost use Rattle.std.specs.Prelude.{◌≡◌, ◌↔◌, ℕ, ◌<◌, ◌≤◌, ◌+◌, IsTrue, length, slice_index, slice_index_or, false, nat_lt, if◌then◌else◌};
ghost use Rattle.std.specs.Int.{bit_at};
ghost use Rattle.st_lanes.specs.inner.Lanes.{IsInBox};

use st_box::ZBox;
use std::simd::prelude::*;

// Bit k is set if lane k of `one` is below lane k of `other`.
fn below(one: u32x8, other: u32x8) -> u64
    requires one { length one ≡ 8 }
    requires other { length other ≡ 8 }
    ensures { (k : ℕ) → k < 8 → bit_at result k ≡ (if nat_lt (slice_index one k) (slice_index other k) then 1 else 0) }
{
    one.simd_lt(other).to_bitmask()
}

// Bit k is set if item `at + k` is outside the bounds.
fn outside(items: &[u32], at: usize, low: u32, high: u32) -> u64
    requires { at + 8 ≤ length items.now }
    ensures { (k : ℕ) → k < 8
        → (bit_at result k ≡ 0) ↔ (low ≤ slice_index items.now (at + k)) × (slice_index items.now (at + k) ≤ high) }
{
    let lanes = u32x8::from_slice(&items[at..]);
    below(lanes, u32x8::splat(low)) | below(u32x8::splat(high), lanes)
}

// Writes whether each of the lowest eight bits is 0.
fn put_eight(out: &mut [bool], at: usize, mask: u64)
    requires { at + 8 ≤ length out.old }
    ensures put { (k : ℕ) → k < 8 → IsTrue (slice_index_or out.new (at + k) false) ↔ (bit_at mask k ≡ 0) }
    ensures kept { (i : ℕ) → i < at → slice_index_or out.new i false ≡ slice_index_or out.old i false }
{
    'lanes: for lane in 0..8 {
        out[at + lane] = (mask >> lane) % 2 == 0;
    }
}

/// Whether a place is in the box: the plain test.
pub fn in_box(zbox: &ZBox, x: u32, y: u32, offset: u32) -> bool
    ensures { IsTrue result ↔ IsInBox zbox.now x y offset }
{
    zbox.x_first <= x
        && x <= zbox.x_last
        && zbox.y_first <= y
        && y <= zbox.y_last
        && zbox.offset_first <= offset
        && offset <= zbox.offset_last
}

/// Writes to `out` whether each place is in the box, as `in_box` says, eight places at a time. All
/// slices have the same length.
pub fn in_box_mask(xs: &[u32], ys: &[u32], offsets: &[u32], zbox: &ZBox, out: &mut [bool])
    requires ys { length ys.now ≡ length xs.now }
    requires offsets { length offsets.now ≡ length xs.now }
    requires out { length out.old ≡ length xs.now }
    ensures { (i : ℕ) → i < length xs.now
        → IsTrue (slice_index_or out.new i false)
        ↔ IsInBox zbox.now (slice_index xs.now i) (slice_index ys.now i) (slice_index offsets.now i) }
{
    let mut at = 0;
    'eights: while xs.len() - at >= 8 {
        let mask = outside(xs, at, zbox.x_first, zbox.x_last)
            | outside(ys, at, zbox.y_first, zbox.y_last)
            | outside(offsets, at, zbox.offset_first, zbox.offset_last);
        put_eight(out, at, mask);
        at += 8;
    }
    'rest: while at < xs.len() {
        out[at] = in_box(zbox, xs[at], ys[at], offsets[at]);
        at += 1;
    }
}
