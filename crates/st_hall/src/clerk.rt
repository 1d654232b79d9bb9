//! The clerk, who makes changes and publishes them.
//!
//! A change that finds no memory to be queued waits in the press; the next `publish` queues it.
ghost use Rattle.std.specs.Prelude.{◌≡◌, ◌+◌, ◌<◌, [], ◌∷◌, ◌++◌, length, true, is_some, Err, None, IfOk, OnOk, OnErr, MatchOption};
ghost use Rattle.std.specs.Prelude.{MatchResult};
ghost use mathlib.Core.List.{IsPrefix};
ghost use Rattle.st_core.specs.Step.{asker_of, asks_for_change};
ghost use Rattle.st_hall_press.specs.Steps.{reply_of, state_after};
ghost use Rattle.st_hall_press.specs.Views.{Beside, IsStranger, receipts};
ghost use Rattle.st_hall_press.specs.declared.fault.AskFault.TheVariants.{Stranger};
ghost use Rattle.st_hall.specs.Decisions.{Decides, counted};
ghost use Rattle.st_hall.specs.declared.commits.Undecided.TheVariants.{NoMemory};

use crate::commits::{Outcome, Undecided};
use crate::receipt::{Receipt, receipt_of};
use left_right::Absorb;
use st_core::{Asked, Reply, Store};
use st_dir::Directory;
use st_hall_desk::{Desk, Scribe};
use st_hall_press::edition::{Edition, Queued};
use st_hall_press::front::Front;
use st_hall_press::{AskFault, HallName, KeptFront, KeptMark, Press};
use std::alloc::AllocError;
use std::marker::Model;
use std::sync::Wait;

/// A scribe, a press, and what says how many changes are kept. Contracts see the one list of changes, the part of it that is published,
/// and how many are kept. Its drop waits for the readers.
pub struct Clerk<H: HallName, R: Wait + Drop>
where
    Edition<H>: Absorb<Queued<H>, State = Edition<H>>,
{
    scribe: Scribe<H>,
    // It was given the whole list.
    press: Press<H, R>,
    mark: KeptMark<H>,
}

impl<H: HallName, R: Wait + Drop> Model for Clerk<H, R>
where
    Edition<H>: Absorb<Queued<H>, State = Edition<H>>,
{
    ghost use Rattle.std.specs.Prelude.{◌≡◌};
    ghost use Rattle.st_hall_press.specs.Views.{Roll};

    ghost Value = { Roll };

    ghost view = { λ c. record { list = c.scribe; published = c.press.published; kept = c.mark } };

    ghost invariant = { λ c. c.press.pushed ≡ c.scribe };
}

impl<H: HallName, R: Wait + Drop> Clerk<H, R> {
    pub(crate) fn new(scribe: Scribe<H>, press: Press<H, R>, mark: KeptMark<H>) -> Clerk<H, R>
        requires start { (scribe ≡ []) × (press.pushed ≡ []) × (press.published ≡ []) × (mark ≡ 0) }
        ensures { (result.list ≡ []) × (result.published ≡ []) × (result.kept ≡ 0) }
    {
        Clerk {
            scribe,
            press,
            mark,
        }
    }

    /// Its scribe and its press, for two locks: one for deciding, and one for publishing; and what says how many changes are kept.
    pub fn apart(self) -> (Scribe<H>, Press<H, R>, KeptMark<H>)
        ensures scribe { result.0 ≡ self.list }
        ensures pushed { result.1.pushed ≡ self.list }
        ensures published { result.1.published ≡ self.published }
        ensures kept { result.2 ≡ self.kept }
    {
        let Self {
            scribe,
            press,
            mark,
        } = self;
        (scribe, press, mark)
    }

    // The kept-front token of a front. In memory every change of the list counts as kept.
    pub(crate) fn keep(&mut self, front: &Front<H>) -> KeptFront<H>
        ensures is { result ≡ front.now }
        ensures list { self.new.list ≡ self.old.list }
        ensures published { self.new.published ≡ self.old.published }
    {
        self.mark.keep_all(front.again())
    }

    /// Publishes all changes of the list. If memory runs out, nothing further is published.
    pub fn publish<W: Wait>(&mut self, rt: &W) -> Result<(), AllocError>
        ensures list { self.new.list ≡ self.old.list }
        ensures published { MatchResult result (λ _. self.new.published ≡ self.new.list)
            (λ _. self.new.published ≡ self.old.published) }
        ensures grows { IsPrefix self.old.published self.new.published }
        ensures kept { self.new.kept ≡ self.old.kept }
    {
        self.press.publish(rt)
    }

    /// Adds a change to the list, and does not publish it: judges it once, by the directory after the whole list, and makes there
    /// what it does to the directory. When out of memory nothing is added, nor where the token does not hold there.
    pub fn add(&mut self, desk: &mut Desk<H>, asked: &Asked) -> Result<Reply, AskFault>
        requires change { asks_for_change asked.now ≡ true }
        ensures stranger { result ≡ Err Stranger → IsStranger H.start desk.old.seen asked.now.token }
        ensures unheard { result ≡ Err Stranger → IsPrefix desk.old.seen self.old.list
            × (asker_of (state_after H.start self.old.list).directory asked.now.token ≡ None) }
        ensures heard { OnOk result (is_some (asker_of (state_after H.start self.old.list).directory asked.now.token) ≡ true) }
        ensures after { OnOk result (IsPrefix desk.old.seen self.old.list) }
        ensures published { self.new.published ≡ self.old.published }
        ensures list { MatchResult result (λ _. self.new.list ≡ self.old.list ++ asked.now ∷ []) (λ _. self.new.list ≡ self.old.list) }
        ensures kept { self.new.kept ≡ self.old.kept }
        ensures made { MatchResult result (λ _. desk.new.made ≡ desk.old.made + 1) (λ _. desk.new.made ≡ desk.old.made) }
        ensures seen { desk.new.seen ≡ desk.old.seen }
        ensures reply { IfOk result (λ r. r ≡ reply_of (state_after H.start self.old.list) asked.now) }
    {
        self.press.make_room()?;
        let (reply, queued) = self.scribe.add(desk, asked)?;
        self.press.put(queued);
        Ok(reply)
    }

    // The reply to a change, and the front where it is published.
    fn make<W: Wait>(
        &mut self,
        rt: &W,
        desk: &mut Desk<H>,
        asked: &Asked,
    ) -> Result<(Reply, Option<Front<H>>), AskFault>
        requires change { asks_for_change asked.now ≡ true }
        ensures stranger { result ≡ Err Stranger → IsStranger H.start desk.old.seen asked.now.token }
        ensures unheard { result ≡ Err Stranger → IsPrefix desk.old.seen self.old.list
            × (asker_of (state_after H.start self.old.list).directory asked.now.token ≡ None) }
        ensures heard { OnOk result (is_some (asker_of (state_after H.start self.old.list).directory asked.now.token) ≡ true) }
        ensures after { OnOk result (IsPrefix desk.old.seen self.old.list) }
        ensures grows { IsPrefix self.old.published self.new.published }
        ensures kept { self.new.kept ≡ self.old.kept }
        ensures list { MatchResult result (λ _. self.new.list ≡ self.old.list ++ asked.now ∷ []) (λ _. self.new.list ≡ self.old.list) }
        ensures made { MatchResult result (λ _. desk.new.made ≡ desk.old.made + 1) (λ _. desk.new.made ≡ desk.old.made) }
        ensures seen { desk.new.seen ≡ desk.old.seen }
        ensures reply { IfOk result (λ r. r.0 ≡ reply_of (state_after H.start self.old.list) asked.now) }
        ensures published { OnOk result (IsPrefix desk.old.seen self.new.published) }
        ensures front { IfOk result (λ r. MatchOption r.1 (self.new.published ≡ self.old.list)
            (λ f. (f ≡ self.new.list) × (self.new.published ≡ self.new.list))) }
    {
        self.publish(rt)?;
        let reply = self.add(desk, asked)?;
        match self.publish(rt) {
            Ok(()) => Ok((reply, Some(self.front()))),
            Err(_) => Ok((reply, None)),
        }
    }

    /// Makes a change: publishes what is not published yet, adds the change, and publishes it where there is memory. Its receipt
    /// has the whole list as its end, and as its front too if it is published. All that the desk had seen is published then. When
    /// out of memory the change is not made, nor is that of a stranger; changes before it may have become published.
    pub fn commit<W: Wait>(
        &mut self,
        rt: &W,
        desk: &mut Desk<H>,
        asked: Asked,
    ) -> Result<Receipt<H>, AskFault>
        requires change { asks_for_change asked ≡ true }
        ensures stranger { result ≡ Err Stranger → IsStranger H.start desk.old.seen asked.token }
        ensures unheard { result ≡ Err Stranger → IsPrefix desk.old.seen self.old.list
            × (asker_of (state_after H.start self.old.list).directory asked.token ≡ None) }
        ensures heard { OnOk result (is_some (asker_of (state_after H.start self.old.list).directory asked.token) ≡ true) }
        ensures after { OnOk result (IsPrefix desk.old.seen self.old.list) }
        ensures grows { IsPrefix self.old.published self.new.published }
        ensures kept { self.new.kept ≡ self.old.kept }
        ensures list { MatchResult result (λ _. self.new.list ≡ self.old.list ++ asked ∷ []) (λ _. self.new.list ≡ self.old.list) }
        ensures made { MatchResult result (λ _. desk.new.made ≡ desk.old.made + 1) (λ _. desk.new.made ≡ desk.old.made) }
        ensures seen { desk.new.seen ≡ desk.old.seen }
        ensures published { OnOk result (IsPrefix desk.old.seen self.new.published) }
        ensures asked { IfOk result (λ r. r.asked ≡ asked) }
        ensures reply { IfOk result (λ r. r.reply ≡ reply_of (state_after H.start self.old.list) asked) }
        ensures end { IfOk result (λ r. r.end ≡ self.new.list) }
        ensures front { IfOk result (λ r. MatchOption r.front (self.new.published ≡ self.old.list)
            (λ f. (f ≡ self.new.list) × (self.new.published ≡ self.new.list))) }
    {
        let made = self.make(rt, desk, &asked);
        receipt_of(asked, made, self.front())
    }

    // Makes a change, and gives what it came to, with the whole list.
    pub(crate) fn decide<W: Wait>(
        &mut self,
        rt: &W,
        desk: &mut Desk<H>,
        asked: &Asked,
    ) -> Result<Outcome<H>, Undecided>
        requires change { asks_for_change asked.now ≡ true }
        ensures decided { IfOk result (λ o. Decides H.start desk.old.seen asked.now o.reply o.front) }
        ensures list { IfOk result (λ o. o.front ≡ self.new.list) }
        ensures kept { self.new.kept ≡ self.old.kept }
        ensures made { MatchResult result (λ o. desk.new.made ≡ desk.old.made + counted o.reply) (λ _. desk.new.made ≡ desk.old.made) }
        ensures seen { desk.new.seen ≡ desk.old.seen }
        ensures busy { OnErr result (result ≡ Err NoMemory) }
    {
        match self.make(rt, desk, asked) {
            Ok((reply, front)) => Ok(Outcome {
                reply: Some(reply),
                front: self.front(),
                is_published: front.is_some(),
            }),
            Err(AskFault::Stranger) => Ok(Outcome {
                reply: None,
                front: self.front(),
                is_published: true,
            }),
            Err(AskFault::NoMemory) => Err(Undecided::NoMemory),
        }
    }

    /// The users after the whole list.
    pub fn directory(&self) -> &Directory
        ensures { result.now ≡ (state_after H.start self.now.list).directory }
    {
        self.scribe.directory()
    }

    /// The whole list, as a front.
    pub fn front(&self) -> Front<H>
        ensures { result ≡ self.now.list }
    {
        self.scribe.front()
    }

    /// The store that desks read now.
    pub fn published(&self) -> &Store
        ensures store { result.now ≡ state_after H.start self.now.published }
        ensures begins { IsPrefix self.now.published self.now.list }
    {
        let _list = &self.scribe;
        self.press.published()
    }

    /// Of the list and a front, the shorter begins the longer, and so it is with what is published. It does nothing.
    pub fn compare(&self, front: &Front<H>)
        ensures list { Beside self.now.list front.now }
        ensures published { Beside self.now.published front.now }
    {
        self.press.compare(front);
        self.scribe.compare(front);
    }

    /// The length of the list, which is how many receipts were got with all desks.
    pub fn total(&mut self, desks: &mut [Desk<H>]) -> u64
        requires all { (length desks.old ≡ H.parts) × (0 < H.parts) }
        ensures list { result ≡ length self.new.list }
        ensures made { result ≡ receipts desks.old }
        ensures same { (self.new ≡ self.old) × (desks.new ≡ desks.old) }
    {
        self.scribe.total(desks)
    }

    /// The whole list, once all desks are back: it is as long as receipts were got with them.
    pub fn whole(&mut self, desks: &mut [Desk<H>]) -> Front<H>
        requires all { (length desks.old ≡ H.parts) × (0 < H.parts) }
        ensures list { result ≡ self.new.list }
        ensures counted { length result ≡ receipts desks.old }
        ensures same { (self.new ≡ self.old) × (desks.new ≡ desks.old) }
    {
        let _total = self.total(desks);
        self.front()
    }
}

impl<H: HallName, R: Wait + Drop> Drop for Clerk<H, R> {
    fn drop(self) {
        let Self {
            scribe: _scribe,
            press: _press,
            mark: _mark,
        } = self;
    }
}
