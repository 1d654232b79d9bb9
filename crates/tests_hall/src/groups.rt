//! Puts at up to sixteen desks, each by a thread of its own, into a journal whose appends take time.
ghost use Rattle.std.specs.Prelude.{◌≡◌};

use crate::kept::{Findings, found};
use crate::puts::Sending;
use std::test::*;

const EACH: u8 = 50;

// Whether all puts of so many desks are told, and kept once and in order, by at most so many appends.
fn are_kept(found: Option<Findings>, workers: u64, most: u64) -> bool {
    match found {
        Some(found) => {
            let all = workers.saturating_mul(EACH as u64);
            let are_told = found.made() == all && found.kept == all;
            are_told && found.in_order == EACH && found.appends <= most
        }
        None => false,
    }
}

#[test]
fn each_put_of_one_desk_is_kept_by_an_append_of_its_own(rt: HostRuntime) {
    assert!(rt; are_kept(found(&rt, rt.alloc(), 1, 1000, Sending::Own(EACH)), 1, 50));
}

#[test]
fn puts_of_eight_threads_are_kept_once_and_in_order_by_fewer_appends(rt: HostRuntime) {
    assert!(rt; are_kept(found(&rt, rt.alloc(), 8, 1000, Sending::Own(EACH)), 8, 200));
}

#[test]
fn most_puts_of_sixteen_threads_are_kept_by_the_append_of_another_one(rt: HostRuntime) {
    assert!(rt;
        are_kept(
            found(&rt, rt.alloc(), 16, 1000, Sending::Own(EACH)),
            16,
            160
        )
    );
}

// Whether nobody was told of a put that is not kept, where the fourth append fails.
fn are_answered_what_is_kept(found: Option<Findings>) -> bool {
    match found {
        Some(found) => { found.in_order < EACH && found.appends == 3 && found.made() <= found.kept }
        None => false,
    }
}

#[test]
fn what_was_lost_gets_no_answer(rt: HostRuntime) {
    assert!(rt; are_answered_what_is_kept(found(&rt, rt.alloc(), 8, 3, Sending::Own(EACH))));
}
