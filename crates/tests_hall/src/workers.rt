//! Two stations that answer reads while the clerk is held.
ghost use Rattle.std.specs.Prelude.{◌≡◌};
ghost use denote.Param.Send.{IsSend, IsSync};

use crate::clerks::{Shared, Turn};
use crate::opened::{Question, is_right};
use crate::puts::{Sending, served_by_all};
use crate::stations::Visit;
use st_hall::{Commits, Desk, Gate, HallName};
use std::alloc::Global;
use std::sync::Wait;
use std::sync::atomic::AtomicU64;
use std::sync::atomic::Ordering::SeqCst;
use std::test::*;
use std::thread;
use std::thread::{Threads, join};
use std::time::{Clock, Duration};

const TURNS: u32 = 10_000;

// The answer to a count where no rows are.
const NO_ROWS: &[u8] =
    b"HTTP/1.1 200 OK\r\nContent-Type: application/json\r\nContent-Length: 11\r\n\r\n{\"count\":0}";

// Station 1's first call passes once station 2's is answered, and both once the lock is held. No other call passes.
#[derive(Drop)]
struct Turns<'a, R: Clock> {
    rt: &'a R,
    came_one: AtomicU64,
    came_two: AtomicU64,
    locked: AtomicU64,
    told_one: AtomicU64,
    told_two: AtomicU64,
    gave_up: AtomicU64,
}

impl<R: Clock> Gate for Turns<'_, R> {
    fn may_pass(&self, worker: u64, call: u64) -> bool {
        thread::sleep(self.rt, Duration::from_millis(1));
        if worker == 1 {
            self.came_one.store(1, SeqCst);
        } else {
            self.came_two.store(1, SeqCst);
        }
        let is_next = worker == 2 || (worker == 1 && self.told_two.load(SeqCst) == 1);
        self.locked.load(SeqCst) == 1 && call == 1 && is_next
    }

    fn answered(&self, worker: u64, call: u64) {
        if worker == 1 && call == 1 {
            self.told_one.store(1, SeqCst);
        }
        if worker == 2 && call == 1 {
            self.told_two.store(1, SeqCst);
        }
    }

    fn gave_up(&self, _worker: u64, _call: u64) {
        self.gave_up.store(1, SeqCst);
    }
}

impl<R: Clock> Turn for Turns<'_, R> {
    // Goes on until both are answered, and says whether they were.
    fn is_well(&self) -> bool {
        self.locked.store(1, SeqCst);
        let mut both = false;
        for _ in 0..TURNS {
            both = self.told_one.load(SeqCst) == 1 && self.told_two.load(SeqCst) == 1;
            if both {
                break;
            }
            thread::sleep(self.rt, Duration::from_millis(1));
        }
        both
    }
}

impl<R: Clock> Turns<'_, R> {
    // Goes on until both stations have come to their first calls.
    fn wait(&self) {
        for _ in 0..TURNS {
            if self.came_one.load(SeqCst) == 1 && self.came_two.load(SeqCst) == 1 {
                return;
            }
            thread::sleep(self.rt, Duration::from_millis(1));
        }
    }
}

// Holds the clerk once both stations are open, and says whether both answered meanwhile.
fn are_answered_while_held<H: HallName, M: Shared<H>, R: Wait + Clock>(
    rt: &R,
    hall: &M,
    turns: &Turns<'_, R>,
) -> bool {
    turns.wait();
    hall.holds(rt, turns)
}

// Whether each client was told that no rows are there.
fn are_none(told: Option<Vec<Option<Visit>>>) -> bool {
    let Some(all) = told else {
        return false;
    };
    let mut are_none = true;
    for told in all.as_slice() {
        are_none = are_none
            && match told {
                Some(told) => told.written.as_slice() == NO_ROWS,
                None => false,
            };
    }
    are_none
}

/// Whether reads at both desks are answered at once, while the clerk is held.
pub fn are_served_meanwhile<
    H: HallName + Send + Sync,
    M: Commits<H> + Shared<H> + Sync,
    R: Threads + Wait + Clock + Sync,
>(rt: &R, alloc: Global, hall: &M, desks: Vec<Desk<H>>) -> Option<bool> {
    let turns = Turns {
        rt,
        came_one: AtomicU64::new(0),
        came_two: AtomicU64::new(0),
        locked: AtomicU64::new(0),
        told_one: AtomicU64::new(0),
        told_two: AtomicU64::new(0),
        gave_up: AtomicU64::new(0),
    };
    let (held, told) = join(
        rt,
        || are_answered_while_held(rt, hall, &turns),
        || -> Option<Vec<Option<Visit>>>
            requires { IsSync R.row × (IsSync M.row × (IsSend H.row × IsSync H.row)) }
        { served_by_all(rt, alloc, hall, &turns, desks, Sending::Count) },
    );
    Some(held && are_none(told) && turns.gave_up.load(SeqCst) == 0)
}

#[test]
fn two_reads_at_once(rt: HostRuntime) {
    assert!(rt; is_right(&rt, rt.alloc(), 2 + 1, Question::Reads));
}
