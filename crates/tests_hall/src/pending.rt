//! Changes that are made and not published yet.
ghost use Rattle.std.specs.Prelude.{◌≡◌, true};
ghost use Rattle.st_core.specs.Step.{asks_for_change};

use crate::asks::{are_listed, create_user, put, rows};
use crate::clerks::{End, Shared, Way};
use crate::opened::{Question, is_right};
use st_core::Asked;
use st_hall::{Desk, Front, HallName};
use std::alloc::Global;
use std::sync::Wait;
use std::test::*;

// Whether a change is told to be made, which is not published.
fn is_added<H: HallName, M: Shared<H>, W: Wait>(
    rt: &W,
    clerk: &M,
    desk: &mut Desk<H>,
    asked: Asked,
) -> bool
    requires { asks_for_change asked ≡ true }
{
    let is_made = clerk.adds(rt, desk, &asked);
    drop(asked);
    is_made
}

// What a desk counts once it learned the front of a change that is made.
fn rows_after<H: HallName>(
    alloc: Global,
    desk: &mut Desk<H>,
    (end, front): (End, Option<Front<H>>),
) -> Option<u64> {
    if end != End::Made {
        return None;
    }
    desk.learn(front.as_ref()?);
    rows(alloc, desk)
}

/// Whether a put and a new user that are pending are told to be made and seen by nobody, and whether a put by a commit has a receipt
/// with a front, which shows all three to a desk that learns it.
pub fn are_published_together<H: HallName, M: Shared<H>, W: Wait>(
    rt: &W,
    alloc: Global,
    clerk: &M,
    one: &mut Desk<H>,
    two: &mut Desk<H>,
) -> Option<bool> {
    let is_put = is_added(rt, clerk, one, put(alloc, "p")?);
    let is_user_made = is_added(rt, clerk, one, create_user(alloc)?);
    let at_one = rows(alloc, one)?;
    let at_two = rows(alloc, two)?;
    let made = clerk.makes(rt, one, put(alloc, "q")?, Way::Commit);
    let after = rows_after(alloc, two, made)?;
    let are_right = is_put && is_user_made && (at_one, at_two, after) == (0, 0, 2);
    Some(are_right && are_listed(two, &["put", "create-user", "put"]))
}

#[test]
fn pending(rt: HostRuntime) {
    assert!(rt; is_right(&rt, rt.alloc(), 2, Question::Pending));
}
