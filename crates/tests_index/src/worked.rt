//! Jumps along the addresses of a small box, worked by hand, and bounds and keys that belong to no point.

use st_bigmin::{bigmin, first_from, litmax};
use st_box::{Query, ZBox};
use st_key::{Key, Period};

// x 1 to 2, y 1 to 2, offset 0: the addresses 3, 10, 17 and 24.
fn small_box() -> Option<ZBox> {
    ZBox::new(1, 2, 1, 2, 0, 0)
}

fn jump_up(address: u64) -> Option<u64> {
    bigmin(address, &small_box()?)
}

fn jump_down(address: u64) -> Option<u64> {
    litmax(address, &small_box()?)
}

#[test]
fn jumps_up(rt: HostRuntime) {
    for (from, to) in [(0, 3), (3, 10), (4, 10), (10, 17), (17, 24)] {
        assert!(rt; jump_up(from) == Some(to));
    }
    assert!(rt; small_box().is_some());
    assert!(rt; jump_up(24) == None);
}

#[test]
fn jumps_down(rt: HostRuntime) {
    assert!(rt; jump_down(3) == None);
    for (from, to) in [(4, 3), (24, 17), (25, 24)] {
        assert!(rt; jump_down(from) == Some(to));
    }
}

// The first key, from an address of the first week on, of the small square in the first second.
fn first_key(address: u64) -> Option<(u32, u64)> {
    let query = Query::new(1, 2, 1, 2, 0, 0).ok()?;
    let from = Key::new(0, address, Period::Week)?;
    let first = first_from(&query, from, Period::Week)?;
    Some((first.bin(), first.address()))
}

#[test]
fn first_keys(rt: HostRuntime) {
    assert!(rt; first_key(4) == Some((0, 10)));
    assert!(rt; first_key(25) == None);
}

#[test]
fn bounds_and_keys_of_no_point(rt: HostRuntime) {
    assert!(rt; ZBox::new(0, 2_097_152, 0, 0, 0, 0) == None);
    let greatest = Key::new(0, (1 << 63) - 1, Period::Week);
    assert!(rt; greatest.is_some_and(|key| key.point(Period::Week) == None));
}
