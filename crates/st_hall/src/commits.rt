//! What makes the changes of a hall.
//!
//! Nothing here says which thread decides a change, nor when: a hall may decide it under a lock, keep it in a journal, or read it
//! back from a list of several machines.
ghost use Rattle.std.specs.Prelude.{◌≡◌, ◌+◌, ◌<◌, length, true, Err, IfOk, IfSome, OnErr, OnOk, MatchResult};
ghost use mathlib.Core.List.{IsPrefix};
ghost use Rattle.st_core.specs.Step.{asks_for_change};
ghost use Rattle.st_service.specs.Answers.{AsksBy, IsFound};
ghost use Rattle.st_hall_press.specs.Views.{receipts};
ghost use Rattle.st_hall.specs.Decisions.{Decides, counted};
ghost use Rattle.st_hall.specs.declared.commits.Undecided.TheVariants.{Lost as WasLost, NoMemory};

use crate::clerk::Clerk;
use st_core::{Asked, Reply};
use st_hall_desk::Desk;
use st_hall_press::HallName;
use st_hall_press::front::Front;
use st_hall_press::kept::KeptFront;
use st_http::message::Message;
use std::alloc::AllocError;
use std::sync::{Mutex, Wait};
use thiserror::Error;

/// What a change came to, and the list that says so.
#[derive(Drop)]
pub struct Outcome<H: HallName> {
    /// The reply, or `None` if the token is invalid; then it is no change.
    pub reply: Option<Reply>,
    /// The log position that ends with the change or, for an invalid token, the one after which it is invalid.
    pub front: Front<H>,
    /// Whether the list is published.
    pub is_published: bool,
}

/// Why nothing came of a change.
#[derive(Clone, Copy, Debug, PartialEq, Eq, Error)]
pub enum Undecided {
    /// Out of memory. The change is not made.
    #[error("out of memory")]
    NoMemory,
    /// Nothing more is kept. Whether the change is made is unknown until the journal is reopened.
    #[error("nothing more is kept")]
    Lost,
}

impl From<AllocError> for Undecided {
    ghost from_gives = { λ _ e. e ≡ NoMemory };

    fn from(_: AllocError) -> Undecided {
        Undecided::NoMemory
    }
}

/// Nothing more is kept.
#[derive(Clone, Copy, Debug, PartialEq, Eq, Error)]
#[error("nothing more is kept")]
pub struct Lost;

/// What makes the changes of a hall, in any thread.
pub trait Commits<H: HallName> {
    ghost use Rattle.std.specs.Prelude.{ℕ, List};
    ghost use Rattle.st_hall_press.specs.Steps.{Ask};

    // How many bytes of answers a station holds back, so that the changes that a client sends together are kept together.
    ghost HOLD: { ℕ };

    const HOLD: usize;

    // Holds if it may ever stop keeping changes.
    ghost may_lose: { Type 0 };

    // What keeps its changes failed.
    ghost fails: { Type 0 };

    // Whatever a crash would leave now leads to the state after a list that has at least `kept` and at most `list`.
    ghost leaves: { (kept list : List Ask) → Type 0 };

    /// Makes a change at a desk. Its reply must not go out before the list of its outcome is synced, nor may that of a change whose
    /// token does not hold. When out of memory the change is not made.
    fn change<W: Wait>(
        &self,
        rt: &W,
        desk: &mut Desk<H>,
        message: &Message<'_>,
        asked: &Asked,
    ) -> Result<Outcome<H>, Undecided>
        requires found { IsFound message.now }
        requires asks { AsksBy message.now asked.now }
        requires change { asks_for_change asked.now ≡ true }
        ensures decided { IfOk result (λ o. Decides H.start desk.old.seen asked.now o.reply o.front) }
        ensures made { MatchResult result (λ o. desk.new.made ≡ desk.old.made + counted o.reply) (λ _. desk.new.made ≡ desk.old.made) }
        ensures seen { desk.new.seen ≡ desk.old.seen }
        ensures lost { result ≡ Err WasLost → may_lose };

    /// Syncs a front and, memory permitting, publishes it. Returns its kept-front token, and whether it is published.
    fn sync<W: Wait>(&self, rt: &W, front: &Front<H>) -> Result<(KeptFront<H>, bool), Lost>
        ensures kept { IfOk result (λ s. s.0 ≡ front.now) }
        ensures lost { OnErr result may_lose };

    /// The kept-front token of a front, if the front is known to be kept. It syncs nothing.
    fn find_kept<W: Wait>(&self, rt: &W, front: &Front<H>) -> Option<KeptFront<H>>
        ensures { IfSome result (λ kept. kept ≡ front.now) };

    /// Whether it is known that nothing more is kept.
    fn is_lost(&self) -> bool
        ensures { result ≡ true → may_lose };

    /// Whether changes are no longer kept because the journal failed, and not because memory ran out.
    fn has_failed<W: Wait>(&self, rt: &W) -> bool
        ensures { result ≡ true → fails };

    /// The whole list, once all desks of the hall are back. It is as long as receipts were got with them.
    fn whole<W: Wait>(&self, rt: &W, desks: &mut [Desk<H>]) -> Front<H>
        requires all { (length desks.old ≡ H.parts) × (0 < H.parts) }
        ensures counted { length result ≡ receipts desks.old }
        ensures same { desks.new ≡ desks.old };

    /// The kept part of the whole list, once changes have ended. It covers `known`. `None` if some change is not in
    /// the list.
    fn left<W: Wait>(&self, rt: &W, list: &Front<H>, known: &KeptFront<H>) -> Option<Front<H>>
        ensures leaves { IfSome result (λ kept. leaves kept list.now) }
        ensures has { IfSome result (λ kept. IsPrefix known.now kept) }
        ensures begins { IfSome result (λ kept. IsPrefix kept list.now) };
}

impl<H: HallName, R: Wait + Drop> Commits<H> for Mutex<Clerk<H, R>> {
    ghost use Rattle.std.specs.Prelude.{⊤};

    ghost HOLD = { 0 };

    const HOLD: usize = 0;

    ghost may_lose = { ⊥ };

    ghost fails = { ⊥ };

    // Nothing is left of it.
    ghost leaves = { λ kept list. ⊤ };

    fn change<W: Wait>(
        &self,
        rt: &W,
        desk: &mut Desk<H>,
        _message: &Message<'_>,
        asked: &Asked,
    ) -> Result<Outcome<H>, Undecided> {
        self.lock(rt).decide(rt, desk, asked)
    }

    // In memory a change is kept once it is in the list.
    fn sync<W: Wait>(&self, rt: &W, front: &Front<H>) -> Result<(KeptFront<H>, bool), Lost> {
        let mut clerk = self.lock(rt);
        let kept = clerk.keep(front);
        Ok((kept, clerk.publish(rt).is_ok()))
    }

    fn find_kept<W: Wait>(&self, rt: &W, front: &Front<H>) -> Option<KeptFront<H>> {
        Some(self.lock(rt).keep(front))
    }

    fn is_lost(&self) -> bool {
        false
    }

    fn has_failed<W: Wait>(&self, _rt: &W) -> bool {
        false
    }

    fn whole<W: Wait>(&self, rt: &W, desks: &mut [Desk<H>]) -> Front<H> {
        self.lock(rt).whole(desks)
    }

    fn left<W: Wait>(&self, _rt: &W, list: &Front<H>, known: &KeptFront<H>) -> Option<Front<H>> {
        list.compare(known.front());
        if known.front().len() <= list.len() {
            Some(list.again())
        } else {
            None
        }
    }
}
