//! The allocator that refuses a chosen growth.

use refusing_alloc::Refusing;
use std::alloc::{Allocator, Global};

// Which growth is refused from here on, if that changes; whether two growths succeed; and whether the chosen one is still to come.
const STEPS: [(Option<u64>, bool, bool); 7] = [
    (Some(0), true, false),
    (Some(1), false, false),
    (None, true, false),
    (Some(2), false, false),
    (None, true, false),
    (Some(3), true, true),
    (None, false, false),
];

// Whether two growths succeed, of which either may be refused.
fn has_room<A: Allocator + Copy>(alloc: A) -> bool {
    let first = Vec::<u8, A>::with_capacity(alloc, 10);
    let second = Vec::<u8, A>::with_capacity(alloc, 20);
    first.is_ok() && second.is_ok()
}

// Whether each step comes as it says.
fn is_followed(heap: &Refusing<Global>) -> bool {
    for (armed, is_ample, is_armed) in STEPS {
        if let Some(n) = armed {
            heap.arm(n);
        }
        if has_room(heap) != is_ample || heap.is_armed() != is_armed {
            return false;
        }
    }
    true
}

// The chosen growth is refused, and no other: the same call then succeeds.
#[test]
fn refuses_the_chosen_one_once(rt: HostRuntime) {
    let heap = Refusing::new(rt.alloc());
    assert!(rt; is_followed(&heap));
}
