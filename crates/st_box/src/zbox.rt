//! Boxes of x, y and offset.
ghost use Rattle.std.specs.Prelude.{◌≡◌, ◌↔◌, ◌^◌, ◌<◌, ◌≤◌, ℕ, IsTrue, IsSome, IfSome};

use crate::corner::Corner;
use st_key::interleave;

// One more than the largest bound.
const SIDE: u32 = 1 << 21;

/// The places inside a bin whose x, y and offset are each between two bounds, both included. Each
/// bound is at most 2,097,151.
#[derive(Clone, Copy, PartialEq, Eq, Debug)]
pub struct ZBox {
    pub x_first: u32,
    pub x_last: u32,
    pub y_first: u32,
    pub y_last: u32,
    pub offset_first: u32,
    pub offset_last: u32,
    pub ghost x_ordered: { x_first ≤ x_last },
    pub ghost y_ordered: { y_first ≤ y_last },
    pub ghost offset_ordered: { offset_first ≤ offset_last },
    pub ghost x_in_range: { x_last < 2 ^ 21 },
    pub ghost y_in_range: { y_last < 2 ^ 21 },
    pub ghost offset_in_range: { offset_last < 2 ^ 21 },
}

impl Default for ZBox {
    /// The box of the first address.
    fn default() -> ZBox {
        ZBox {
            x_first: 0,
            x_last: 0,
            y_first: 0,
            y_last: 0,
            offset_first: 0,
            offset_last: 0,
        }
    }
}

impl ZBox {
    ghost use Rattle.st_box.specs.ZBox.{IsInside, first_of, last_of};
    ghost use Rattle.st_box.specs.inner.Bounds.{HasBounds};

    /// The box with these bounds, and `None` when one exceeds 2,097,151 or a pair is reversed.
    pub fn new(x0: u32, x1: u32, y0: u32, y1: u32, o0: u32, o1: u32) -> Option<ZBox>
        ensures valid { IsSome result
            ↔ (x0 ≤ x1) × (x1 ≤ 2097151) × (y0 ≤ y1) × (y1 ≤ 2097151) × (o0 ≤ o1) × (o1 ≤ 2097151) }
        ensures bounds { IfSome result (HasBounds x0 x1 y0 y1 o0 o1) }
    {
        let in_order = x0 <= x1 && y0 <= y1 && o0 <= o1;
        if in_order && x1 < SIDE && y1 < SIDE && o1 < SIDE {
            Some(ZBox {
                x_first: x0,
                x_last: x1,
                y_first: y0,
                y_last: y1,
                offset_first: o0,
                offset_last: o1,
            })
        } else {
            None
        }
    }

    /// The corner where each part is least.
    pub fn first(&self) -> Corner
        ensures { result ≡ first_of self.now }
    {
        Corner::new(self.x_first, self.y_first, self.offset_first)
    }

    /// The corner where each part is greatest.
    pub fn last(&self) -> Corner
        ensures { result ≡ last_of self.now }
    {
        Corner::new(self.x_last, self.y_last, self.offset_last)
    }

    /// The least address of the box.
    pub fn first_address(&self) -> u64
        ensures inside { IsInside self.now result }
        ensures least { (a : ℕ) → IsInside self.now a → result ≤ a }
    {
        interleave(self.x_first, self.y_first, self.offset_first)
    }

    /// Whether the address is that of a place in the box.
    pub fn has_address(&self, address: u64) -> bool
        ensures { IsTrue result ↔ IsInside self.now address }
    {
        let place = Corner::at(address);
        address < 1 << 63 && self.first().is_within(&place) && place.is_within(&self.last())
    }
}
