//! What tests ask of a clerk.
ghost use Rattle.std.specs.Prelude.{◌≡◌, true};
ghost use Rattle.st_core.specs.Step.{asks_for_change};

use st_core::{Asked, Reply};
use st_hall::{AskFault, Clerk, Desk, Front, Hall, HallName, Receipt};
use std::sync::{Mutex, Wait};

/// What a change comes to.
#[derive(Clone, Copy, PartialEq, Eq)]
pub enum End {
    Made,
    NotMade,
    NoMemory,
}

/// How a change is asked for at a desk.
#[derive(Clone, Copy)]
pub enum Way {
    Commit,
    Hall,
}

/// What is done while a clerk is held.
pub trait Turn {
    // Whether it went well.
    fn is_well(&self) -> bool;
}

/// A clerk who is shared.
pub trait Shared<H: HallName> {
    // Whether a change is told to be made, which is not published.
    fn adds<W: Wait>(&self, rt: &W, desk: &mut Desk<H>, asked: &Asked) -> bool
        requires { asks_for_change asked.now ≡ true };

    // What a change comes to that is asked for in this way, and the front of its receipt.
    fn makes<W: Wait>(
        &self,
        rt: &W,
        desk: &mut Desk<H>,
        asked: Asked,
        way: Way,
    ) -> (End, Option<Front<H>>)
        requires { asks_for_change asked ≡ true };

    // Does what is to be done while the clerk is held. Whether it went well.
    fn holds<W: Wait, T: Turn>(&self, rt: &W, turn: &T) -> bool;
}

// What a change with this receipt comes to, and the receipt's front.
fn end_of<H: HallName>(told: Result<Receipt<H>, AskFault>) -> (End, Option<Front<H>>) {
    match told {
        Ok(
            Receipt {
                asked: _asked,
                reply,
                end: _end,
                front,
            },
        ) => {
            let is_made = matches!(&reply, Reply::Accepted);
            (if is_made { End::Made } else { End::NotMade }, front)
        }
        Err(AskFault::NoMemory) => (End::NoMemory, None),
        Err(AskFault::Stranger) => (End::NotMade, None),
    }
}

impl<H: HallName, R: Wait + Drop> Shared<H> for Mutex<Clerk<H, R>> {
    fn adds<W: Wait>(&self, rt: &W, desk: &mut Desk<H>, asked: &Asked) -> bool {
        let mut guard = self.lock(rt);
        let told = guard.add(desk, asked);
        drop(guard);
        let is_made = matches!(&told, Ok(Reply::Accepted));
        drop(told);
        is_made
    }

    fn makes<W: Wait>(
        &self,
        rt: &W,
        desk: &mut Desk<H>,
        asked: Asked,
        way: Way,
    ) -> (End, Option<Front<H>>) {
        match way {
            Way::Commit => {
                let mut guard = self.lock(rt);
                let told = guard.commit(rt, desk, asked);
                drop(guard);
                end_of(told)
            }
            Way::Hall => end_of(Hall::change(rt, self, desk, asked)),
        }
    }

    fn holds<W: Wait, T: Turn>(&self, rt: &W, turn: &T) -> bool {
        let guard = self.lock(rt);
        let is_well = turn.is_well();
        drop(guard);
        is_well
    }
}
