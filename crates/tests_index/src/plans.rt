//! Plans for which memory is wanting.

use refusing_alloc::Refusing;
use st_box::Query;
use st_key::Period;
use st_plan::{PlanFault, plan};
use std::alloc::{Allocator, Global};

// How a plan of many weeks fails. None where it doesn't.
fn fault<A: Allocator + Copy>(alloc: A) -> Option<PlanFault> {
    let span = Query::new(1, 20, 3, 17, 604_700, 4 * 604_800).ok()?;
    plan(alloc, &span, 16, Period::Week).err()
}

// With any one growth refused there is no plan. Gives how many growths there are.
fn growths(heap: &Refusing<Global>) -> Option<u64> {
    for n in 1..100u64 {
        heap.arm(n);
        let fault = fault(heap);
        if heap.is_armed() {
            return if fault == None { Some(n - 1) } else { None };
        }
        if fault != Some(PlanFault::NoMemory) {
            return None;
        }
    }
    None
}

#[test]
fn each_growth_refused(rt: HostRuntime) {
    let heap = Refusing::new(rt.alloc());
    assert!(rt; growths(&heap).unwrap_or(0) >= 3);
}
