//! Puts at any number of desks, each by a thread of its own.
ghost use Rattle.std.specs.Prelude.{◌≡◌};

use crate::asks::{entries, rows};
use crate::opened::{Question, is_right};
use crate::puts::{Sending, made_by_all, receipts, served_by_all};
use crate::stations::Always;
use st_hall::{Commits, Desk, HallName};
use std::alloc::Global;
use std::sync::Wait;
use std::test::*;
use std::thread::Threads;

const EACH: u8 = 100;

// How many changes are told to be made, the receipts, and the rows and the entries that a further desk then tells.
fn found<H: HallName + Send + Sync, M: Commits<H> + Sync, R: Threads + Wait + Sync>(
    rt: &R,
    alloc: Global,
    hall: &M,
    mut last: Desk<H>,
    desks: Vec<Desk<H>>,
    sending: Sending,
) -> Option<[u64; 4]> {
    let told = served_by_all(rt, alloc, hall, &Always, desks, sending);
    let rows = rows(alloc, &mut last);
    let entries = entries(&mut last);
    drop(last);
    let told = told?;
    let all = told.as_slice();
    Some([made_by_all(all), receipts(all), rows?, entries?])
}

/// Whether a hundred puts at each of these desks are told, and listed once by a further desk. Each puts rows of its own, or all put one.
pub fn are_listed_once<H: HallName + Send + Sync, M: Commits<H> + Sync, R: Threads + Wait + Sync>(
    rt: &R,
    alloc: Global,
    hall: &M,
    last: Desk<H>,
    desks: Vec<Desk<H>>,
    is_own: bool,
) -> Option<bool> {
    let all = (desks.len() as u64).saturating_mul(EACH as u64);
    let (sending, rows) = if is_own {
        (Sending::Own(EACH), all)
    } else {
        (Sending::Equal(EACH), 1)
    };
    Some(found(rt, alloc, hall, last, desks, sending)? == [all, all, rows, all])
}

#[test]
fn each_own_put_is_made_once_at_any_number_of_desks(rt: HostRuntime) {
    assert!(rt; is_right(&rt, rt.alloc(), 1 + 1, Question::Puts(true)));
    assert!(rt; is_right(&rt, rt.alloc(), 2 + 1, Question::Puts(true)));
    assert!(rt; is_right(&rt, rt.alloc(), 3 + 1, Question::Puts(true)));
    assert!(rt; is_right(&rt, rt.alloc(), 8 + 1, Question::Puts(true)));
}

#[test]
fn each_equal_put_is_made_once_at_any_number_of_desks(rt: HostRuntime) {
    assert!(rt; is_right(&rt, rt.alloc(), 2 + 1, Question::Puts(false)));
    assert!(rt; is_right(&rt, rt.alloc(), 8 + 1, Question::Puts(false)));
}
