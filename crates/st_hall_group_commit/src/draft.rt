//! What is decided and not kept yet.
//!
//! Changes wait here for the press beside their records; the draft reserves both before the change is added, so keeping takes no
//! memory.
ghost use Rattle.std.specs.Prelude.{◌≡◌, ◌++◌, ◌∷◌, ◌+◌, ◌<◌, [], length, true, false, is_some, Err, None, IfOk, OnOk, MatchResult};
ghost use Rattle.std.specs.VecDeque.{deque_len, deque_capacity};
ghost use mathlib.Core.List.{IsPrefix};
ghost use Rattle.st_core.specs.Step.{asker_of, asks_for_change};
ghost use Rattle.st_journal.specs.Replays.{Replays};
ghost use Rattle.st_service.specs.Answers.{AsksBy, IsFound};
ghost use Rattle.st_journal_store.specs.Applying.{Applies};
ghost use Rattle.st_hall_press.specs.Steps.{state_after};
ghost use Rattle.st_hall_press.specs.Views.{EndsAfter, IsStranger, receipts};
ghost use Rattle.st_hall_group_commit.specs.declared.fault.ChangeError.{ChangeError};

use crate::fault::ChangeError;
use crate::keeping::hold;
use st_core::{Asked, Reply};
use st_hall_desk::{Desk, Scribe};
use st_hall_press::{AskFault, Front, HallName, Press, Queued};
use st_http::message::Message;
use st_journal::Record;
use st_journal_store::note;
use std::alloc::Global;
use std::collections::VecDeque;
use std::marker::Model;
use std::mem::replace;
use std::sync::Wait;
use std::time::Clock;

/// The records that lead from the state after one list to that after another, which goes on it.
#[derive(Drop)]
pub struct Batch<H: HallName> {
    pub from: Front<H>,
    pub records: Vec<Record>,
    pub to: Front<H>,
}

/// A scribe, the records of the changes that it has added since they were last taken, and the changes that no press was given yet. A
/// thread holds its lock for as long as it takes to decide one change.
#[derive(Drop)]
pub struct Draft<H: HallName> {
    alloc: Global,
    scribe: Scribe<H>,
    // The list when the records were last taken.
    taken: Front<H>,
    records: Vec<Record>,
    queued: VecDeque<Queued<H>>,
    is_closed: bool,
}

impl<H: HallName> Model for Draft<H> {
    ghost use mathlib.Core.List.{IsPrefix};
    ghost use Rattle.st_journal.specs.Replays.{Replays};
    ghost use Rattle.st_journal_store.specs.Applying.{Applies};
    ghost use Rattle.st_hall_press.specs.Steps.{state_after};
    ghost use Rattle.st_hall_group_commit.specs.Drafts.{Drafted};

    ghost Value = { Drafted };

    ghost view = { λ d. record { list = d.scribe; taken = d.taken; records = d.records.items; is_closed = d.is_closed } };

    ghost invariant = { λ d. IsPrefix d.taken d.scribe
        × Replays Applies (state_after H.start d.taken) d.records.items (state_after H.start d.scribe) };
}

// Puts a change last, for which there is room.
fn push_reserved<H: HallName>(queued: &mut VecDeque<Queued<H>>, change: Queued<H>)
    requires { deque_len queued.old < deque_capacity queued.old }
{
    if let Err(_) = queued.push_back(change) {
        unreachable!()
    }
}

// Gives a press a change, or gives it back where it is not kept, is not the press's next one, or memory runs out.
fn hand<H: HallName, R: Wait + Drop>(
    press: &mut Press<H, R>,
    kept: &Front<H>,
    queued: Queued<H>,
) -> Result<(), Queued<H>>
    requires { IsPrefix press.old.pushed kept.now }
    ensures pushed { IsPrefix press.new.pushed kept.now }
    ensures published { press.new.published ≡ press.old.published }
{
    let _both = kept.longer(queued.front());
    if queued.front().len() > kept.len() {
        return Err(queued);
    }
    press.push(queued)
}

// Puts a change before all others.
fn put_back<H: HallName>(queued: &mut VecDeque<Queued<H>>, change: Queued<H>) {
    if let Err(back) = queued.push_front(change) {
        drop(back);
    }
}

// Gives a press the changes, one after the other, as far as they are kept and there is memory.
fn hand_all<H: HallName, R: Wait + Drop>(
    queued: &mut VecDeque<Queued<H>>,
    press: &mut Press<H, R>,
    kept: &Front<H>,
)
    requires { IsPrefix press.old.pushed kept.now }
    ensures pushed { IsPrefix press.new.pushed kept.now }
    ensures published { press.new.published ≡ press.old.published }
{
    for _ in 0..queued.len() {
        let Some(change) = queued.pop_front() else {
            return;
        };
        if let Err(back) = hand(press, kept, change) {
            put_back(queued, back);
            return;
        }
    }
}

impl<H: HallName> Draft<H> {
    /// The draft of a scribe whose list is kept and published.
    pub fn new(alloc: Global, scribe: Scribe<H>) -> Draft<H>
        ensures { result ≡ record { list = scribe; taken = scribe; records = []; is_closed = false } }
    {
        Draft {
            alloc,
            taken: scribe.front(),
            scribe,
            records: Vec::new(alloc),
            queued: VecDeque::new(alloc),
            is_closed: false,
        }
    }

    /// Decides a change, adds it to the list, and gives its reply and the list that ends with it, which is neither kept nor published
    /// then. At an error nothing is added; `Lost` comes once it is closed.
    pub fn add<C: Clock>(
        &mut self,
        clock: &C,
        desk: &mut Desk<H>,
        message: &Message<'_>,
        asked: &Asked,
    ) -> Result<(Reply, Front<H>), ChangeError>
        requires found { IsFound message.now }
        requires asks { AsksBy message.now asked.now }
        requires change { asks_for_change asked.now ≡ true }
        ensures ends { IfOk result (λ r. EndsAfter H.start desk.old.seen r.1 asked.now r.0) }
        ensures front { IfOk result (λ r. r.1 ≡ self.new.list) }
        ensures heard { OnOk result (is_some (asker_of (state_after H.start self.old.list).directory asked.now.token) ≡ true) }
        ensures after { OnOk result (IsPrefix desk.old.seen self.old.list) }
        ensures list { MatchResult result (λ _. self.new.list ≡ self.old.list ++ asked.now ∷ []) (λ _. self.new ≡ self.old) }
        ensures made { MatchResult result (λ _. desk.new.made ≡ desk.old.made + 1) (λ _. desk.new.made ≡ desk.old.made) }
        ensures seen { desk.new.seen ≡ desk.old.seen }
        ensures stranger { result ≡ Err ChangeError.Stranger → IsStranger H.start desk.old.seen asked.now.token }
        ensures unheard { result ≡ Err ChangeError.Stranger → IsPrefix desk.old.seen self.old.list
            × (asker_of (state_after H.start self.old.list).directory asked.now.token ≡ None) }
        ensures closed { self.old.is_closed ≡ true → result ≡ Err ChangeError.Lost }
    {
        if self.is_closed {
            return Err(ChangeError::Lost);
        }
        self.records.reserve(1)?;
        self.queued.reserve(1)?;
        let decided = match self.scribe.decide(desk, asked) {
            Ok(decided) => decided,
            Err(AskFault::Stranger) => return Err(ChangeError::Stranger),
            Err(AskFault::NoMemory) => return Err(ChangeError::NoMemory),
        };
        let note = note(
            self.alloc,
            clock,
            message,
            asked,
            &decided.judged,
            &decided.decision.reply,
        )?;
        let (reply, queued) = self.scribe.enter(desk, asked, decided)?;
        hold(&mut self.records, note);
        let front = queued.front().again();
        push_reserved(&mut self.queued, queued);
        Ok((reply, front))
    }

    /// The whole list, as a front.
    pub fn front(&self) -> Front<H>
        ensures { result ≡ self.now.list }
    {
        self.scribe.front()
    }

    /// The whole list, once all desks are back: it is as long as receipts were got with them.
    pub fn whole(&mut self, desks: &mut [Desk<H>]) -> Front<H>
        requires all { (length desks.old ≡ H.parts) × (0 < H.parts) }
        ensures list { result ≡ self.new.list }
        ensures counted { length result ≡ receipts desks.old }
        ensures same { (self.new ≡ self.old) × (desks.new ≡ desks.old) }
    {
        let _total = self.scribe.total(desks);
        self.front()
    }

    /// Takes the records that were not taken yet.
    pub fn take(&mut self) -> Batch<H>
        ensures list { (self.new.list ≡ self.old.list) × (self.new.is_closed ≡ self.old.is_closed) }
        ensures taken { (self.new.taken ≡ self.old.list) × (self.new.records ≡ []) }
        ensures batch { (result.from ≡ self.old.taken) × (result.records.items ≡ self.old.records) × (result.to ≡ self.old.list) }
        ensures goes_on { IsPrefix result.from result.to }
        ensures leads { Replays Applies (state_after H.start result.from) result.records.items (state_after H.start result.to) }
    {
        let from = replace(&mut self.taken, self.scribe.front());
        let records = replace(&mut self.records, Vec::new(self.alloc));
        Batch {
            from,
            records,
            to: self.scribe.front(),
        }
    }

    /// Gives a press the changes that it was not given yet, as far as they are kept. When out of memory it is given fewer.
    pub fn hand_over<R: Wait + Drop>(&mut self, press: &mut Press<H, R>, kept: &Front<H>)
        requires { IsPrefix press.old.pushed kept.now }
        ensures same { self.new ≡ self.old }
        ensures pushed { IsPrefix press.new.pushed kept.now }
        ensures published { press.new.published ≡ press.old.published }
    {
        hand_all(&mut self.queued, press, kept);
    }

    /// Adds no more.
    pub fn close(&mut self)
        ensures { self.new ≡ record { list = self.old.list; taken = self.old.taken; records = self.old.records; is_closed = true } }
    {
        self.is_closed = true;
    }
}
