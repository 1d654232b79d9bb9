//! The mask of many points against one box, and the plain test of each.
ghost use Rattle.std.specs.Prelude.{◌≤◌};

use st_box::ZBox;
use st_lanes::{in_box, in_box_mask};

const XS: [u32; 33] = [
    0, 1, 2, 3, 4, 5, 6, 7, 8, 9, 9, 8, 7, 6, 5, 4, 3, 2, 1, 0, 4, 4, 4, 4, 4, 4, 4, 4, 4, 4, 4, 4,
    4,
];

const YS: [u32; 33] = [
    4, 4, 4, 4, 4, 4, 4, 4, 4, 4, 3, 3, 3, 3, 3, 7, 7, 7, 7, 7, 0, 1, 2, 3, 4, 5, 6, 7, 8, 9, 10,
    11, 4,
];

const OFFSETS: [u32; 33] = [
    5, 5, 5, 5, 5, 5, 5, 5, 5, 5, 5, 5, 5, 5, 5, 5, 5, 5, 5, 5, 5, 5, 5, 5, 5, 5, 5, 5, 5, 5, 5, 5,
    9,
];

// Whether the mask of the first `len` places is the plain test of each.
fn agrees(zbox: &ZBox, len: usize) -> bool
    requires { len ≤ 33 }
{
    let mut mask = [false; 33];
    in_box_mask(
        &XS[..len],
        &YS[..len],
        &OFFSETS[..len],
        zbox,
        &mut mask[..len],
    );
    for at in 0..len {
        if mask[at] != in_box(zbox, XS[at], YS[at], OFFSETS[at]) {
            return false;
        }
    }
    true
}

// Whether that holds of each of these lengths.
fn agree() -> Option<bool> {
    let zbox = ZBox::new(3, 8, 2, 6, 5, 8)?;
    for len in [0, 1, 7, 8, 9, 33usize] {
        if !agrees(&zbox, len.min(33)) {
            return Some(false);
        }
    }
    Some(true)
}

#[test]
fn masks(rt: HostRuntime) {
    assert!(rt; agree() == Some(true));
}
