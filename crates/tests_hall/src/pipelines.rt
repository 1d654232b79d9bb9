//! Puts that a client sends together.
ghost use Rattle.std.specs.Prelude.{◌≡◌};

use crate::kept::{Findings, found};
use crate::puts::Sending;
use crate::stations::Visit;
use st_connection::Ended;
use std::test::*;

const TOGETHER: u8 = 50;

// Whether a client was told of all puts, and that the count saw them.
fn is_counted(told: &Option<Visit>) -> bool {
    match told {
        Some(told) => {
            let is_counted = told.written.as_slice().ends_with(b"{\"count\":50}");
            told.ended == Ended::Clean && is_counted
        }
        None => false,
    }
}

// Whether a client was told nothing, since nothing was kept.
fn is_lost(told: &Option<Visit>) -> bool {
    match told {
        Some(told) => told.ended == Ended::Lost && told.written.is_empty(),
        None => false,
    }
}

// Whether the only client was told of all puts, and all were kept by one append.
fn are_counted(found: Option<Findings>) -> bool {
    match found {
        Some(found) => found.appends == 1 && found.told.iter().all(is_counted),
        None => false,
    }
}

// Whether the only client was told nothing.
fn are_lost(found: Option<Findings>) -> bool {
    match found {
        Some(found) => found.told.iter().all(is_lost),
        None => false,
    }
}

#[test]
fn puts_that_are_sent_together_are_kept_by_one_append(rt: HostRuntime) {
    assert!(rt; are_counted(found(&rt, rt.alloc(), 1, 1000, Sending::Together(TOGETHER))));
}

#[test]
fn puts_that_were_lost_get_no_answer(rt: HostRuntime) {
    assert!(rt; are_lost(found(&rt, rt.alloc(), 1, 0, Sending::Together(TOGETHER))));
}
