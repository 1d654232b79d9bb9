//! The scribe, who decides changes and adds them to the list.
ghost use Rattle.std.specs.Prelude.{◌≡◌, ◌+◌, ◌^◌, ◌<◌, [], ◌∷◌, ◌++◌, length, true, is_some, unwrap_or, Err, None, IfOk, OnOk};
ghost use Rattle.std.specs.Prelude.{MatchResult};
ghost use mathlib.Core.List.{IsPrefix};
ghost use Rattle.st_core.specs.Judging.{judgement};
ghost use Rattle.st_core.specs.Step.{asker_of, asks_for_change};
ghost use Rattle.st_hall_press.specs.Steps.{judged_in, reply_of, state_after};
ghost use Rattle.st_hall_press.specs.Views.{Beside, IsNext, IsStranger, receipts};
ghost use Rattle.st_hall_press.specs.declared.fault.AskFault.TheVariants.{Stranger};

use crate::desk::Desk;
use st_core::{Asked, Decision, JudgedRef, Reply};
use st_dir::Directory;
use st_hall_press::edition::Queued;
use st_hall_press::front::Front;
use st_hall_press::history::Head;
use st_hall_press::queue::enter;
use st_hall_press::steps::{decide, replace};
use st_hall_press::{AskFault, HallName};
use std::alloc::AllocError;
use std::marker::Model;
use std::sync::ledger::{Book, Share};

/// Decides changes and adds them to the one list, as which contracts see it. It has the users and no copy of the store, and waits
/// for nobody. A press publishes what it has added.
pub struct Scribe<H: HallName> {
    head: Head<H>,
    front: Front<H>,
    directory: Directory,
    book: Book<H>,
}

// Written out, and not derived: a derived drop is proved anew in each crate that owns a scribe.
impl<H: HallName> Drop for Scribe<H> {
    fn drop(self) {
        let Self {
            head: _head,
            front: _front,
            directory: _directory,
            book: _book,
        } = self;
    }
}

impl<H: HallName> Model for Scribe<H> {
    ghost use Rattle.std.specs.Prelude.{◌≡◌, List, length};
    ghost use Rattle.st_hall_press.specs.Steps.{Ask, state_after};

    ghost Value = { List Ask };

    ghost view = { λ s. s.front };

    ghost invariant = { λ s. (s.directory ≡ (state_after H.start s.front).directory) × (s.book.total ≡ length s.front) };
}

/// What a change comes to: how it is judged, what it is told, and the directory after it where that is another.
#[derive(Drop)]
pub struct Decided<'a> {
    pub judged: JudgedRef<'a>,
    pub decision: Decision,
}

// Counts a change at a desk.
fn count<H: HallName>(book: &mut Book<H>, desk: &mut Desk<H>)
    requires { book.old.total < 2 ^ 61 }
    ensures total { book.new.total ≡ book.old.total + 1 }
    ensures made { desk.new.made ≡ desk.old.made + 1 }
    ensures seen { desk.new.seen ≡ desk.old.seen }
{
    book.audit(&mut desk.share);
    book.add(&mut desk.share, 1);
    desk.made += 1;
}

// Adds up the receipts of desks to those that a share stands for. Each desk lends its share until the last is counted.
fn add_up<H: HallName>(
    book: &mut Book<H>,
    desks: &mut [Desk<H>],
    counted: &mut Share<H>,
    made: u64,
) -> u64
    requires parts { counted.old.parts + length desks.old ≡ H.parts }
    requires amount { counted.old.amount ≡ made }
    requires fits { book.old.total < 2 ^ 64 }
    ensures made { result ≡ made + receipts desks.old }
    ensures total { (result ≡ book.old.total) × (book.new.total ≡ book.old.total) }
    ensures desks { desks.new ≡ desks.old }
    ensures counted { (counted.new.parts ≡ counted.old.parts) × (counted.new.amount ≡ counted.old.amount) }
{
    book.audit(counted);
    let Some((desk, others)) = desks.split_first_mut() else {
        return made;
    };
    let here = desk.made;
    desk.share.give(counted, 1, here);
    book.audit(counted);
    let total = add_up(book, others, counted, made + here);
    counted.give(&mut desk.share, 1, here);
    total
}

// Makes what a decision does to the directory, and gives the reply.
fn adopt(directory: &mut Directory, decision: Decision) -> Reply
    ensures reply { result ≡ decision.reply }
    ensures directory { directory.new ≡ unwrap_or decision.directory directory.old }
{
    let Decision {
        reply,
        directory: next,
    } = decision;
    replace(directory, next);
    reply
}

impl<H: HallName> Scribe<H> {
    /// A scribe of a list without changes, with the users at the hall's start.
    #[tactic(auto, using(st_hall_press::proofs::Following::after_none))]
    pub fn new(head: Head<H>, front: Front<H>, directory: Directory, book: Book<H>) -> Scribe<H>
        requires start { front ≡ [] }
        requires directory { (directory ≡ H.start.directory) × (book.total ≡ 0) }
        ensures { result ≡ [] }
    {
        Scribe {
            head,
            front,
            directory,
            book,
        }
    }

    // Whether the list begins with all that a desk has seen, which always is so.
    fn goes_on(&self, desk: &Desk<H>) -> bool
        ensures { result ≡ true → IsPrefix desk.now.seen self.now }
    {
        self.compare(&desk.front);
        desk.front.len() <= self.front.len()
    }

    // What a change comes to after the whole list: how it is judged, what it is told, and the directory that it leaves.
    fn decided<'a>(&self, asked: &'a Asked) -> Result<(JudgedRef<'a>, Decision), AskFault>
        requires { asks_for_change asked.now ≡ true }
        ensures stranger { result ≡ Err Stranger → asker_of (state_after H.start self.now).directory asked.now.token ≡ None }
        ensures heard { OnOk result (is_some (asker_of (state_after H.start self.now).directory asked.now.token) ≡ true) }
        ensures judged { IfOk result (λ d. judgement d.0 ≡ judged_in (state_after H.start self.now) asked.now) }
        ensures reply { IfOk result (λ d. d.1.reply ≡ reply_of (state_after H.start self.now) asked.now) }
        ensures directory { IfOk result (λ d. unwrap_or d.1.directory (state_after H.start self.now).directory
            ≡ (state_after H.start (self.now ++ asked.now ∷ [])).directory) }
    {
        decide(self.directory(), asked)
    }

    /// Judges a change once, by the directory after the whole list, and tells what it comes to. It adds nothing. An error where
    /// memory runs out, and where the token does not hold there.
    pub fn decide<'a>(&self, desk: &Desk<H>, asked: &'a Asked) -> Result<Decided<'a>, AskFault>
        requires change { asks_for_change asked.now ≡ true }
        ensures stranger { result ≡ Err Stranger → IsStranger H.start desk.now.seen asked.now.token }
        ensures unheard { result ≡ Err Stranger → IsPrefix desk.now.seen self.now
            × (asker_of (state_after H.start self.now).directory asked.now.token ≡ None) }
        ensures heard { OnOk result (is_some (asker_of (state_after H.start self.now).directory asked.now.token) ≡ true) }
        ensures after { OnOk result (IsPrefix desk.now.seen self.now) }
        ensures judged { IfOk result (λ d. judgement d.judged ≡ judged_in (state_after H.start self.now) asked.now) }
        ensures reply { IfOk result (λ d. d.decision.reply ≡ reply_of (state_after H.start self.now) asked.now) }
        ensures directory { IfOk result (λ d. unwrap_or d.decision.directory (state_after H.start self.now).directory
            ≡ (state_after H.start (self.now ++ asked.now ∷ [])).directory) }
    {
        if !self.goes_on(desk) {
            return Err(AskFault::NoMemory);
        }
        let (judged, decision) = self.decided(asked)?;
        Ok(Decided { judged, decision })
    }

    /// Adds a change to the list that was decided after the whole list, and makes what it does to the directory. Gives the reply,
    /// and the change for a press. When out of memory nothing is added.
    pub fn enter(
        &mut self,
        desk: &mut Desk<H>,
        asked: &Asked,
        decided: Decided<'_>,
    ) -> Result<(Reply, Queued<H>), AllocError>
        requires change { asks_for_change asked.now ≡ true }
        requires judged { judgement decided.judged ≡ judged_in (state_after H.start self.old) asked.now }
        requires reply { decided.decision.reply ≡ reply_of (state_after H.start self.old) asked.now }
        requires directory { unwrap_or decided.decision.directory (state_after H.start self.old).directory
            ≡ (state_after H.start (self.old ++ asked.now ∷ [])).directory }
        ensures list { MatchResult result (λ _. self.new ≡ self.old ++ asked.now ∷ []) (λ _. self.new ≡ self.old) }
        ensures made { MatchResult result (λ _. desk.new.made ≡ desk.old.made + 1) (λ _. desk.new.made ≡ desk.old.made) }
        ensures seen { desk.new.seen ≡ desk.old.seen }
        ensures reply { IfOk result (λ r. r.0 ≡ reply_of (state_after H.start self.old) asked.now) }
        ensures next { IfOk result (λ r. IsNext H.start self.old r.1) }
        ensures ends { IfOk result (λ r. r.1.list ≡ self.new) }
    {
        let Decided { judged, decision } = decided;
        let entered = enter(&self.head, &mut self.front, asked, &judged);
        drop(judged);
        match entered {
            Ok(queued) => {
                count(&mut self.book, desk);
                Ok((adopt(&mut self.directory, decision), queued))
            }
            Err(fault) => {
                drop(decision);
                Err(fault)
            }
        }
    }

    /// Decides a change, and adds it to the list. When out of memory nothing is added, nor where the token does not hold after the
    /// whole list.
    pub fn add(&mut self, desk: &mut Desk<H>, asked: &Asked) -> Result<(Reply, Queued<H>), AskFault>
        requires change { asks_for_change asked.now ≡ true }
        ensures stranger { result ≡ Err Stranger → IsStranger H.start desk.old.seen asked.now.token }
        ensures unheard { result ≡ Err Stranger → IsPrefix desk.old.seen self.old
            × (asker_of (state_after H.start self.old).directory asked.now.token ≡ None) }
        ensures heard { OnOk result (is_some (asker_of (state_after H.start self.old).directory asked.now.token) ≡ true) }
        ensures after { OnOk result (IsPrefix desk.old.seen self.old) }
        ensures list { MatchResult result (λ _. self.new ≡ self.old ++ asked.now ∷ []) (λ _. self.new ≡ self.old) }
        ensures made { MatchResult result (λ _. desk.new.made ≡ desk.old.made + 1) (λ _. desk.new.made ≡ desk.old.made) }
        ensures seen { desk.new.seen ≡ desk.old.seen }
        ensures reply { IfOk result (λ r. r.0 ≡ reply_of (state_after H.start self.old) asked.now) }
        ensures next { IfOk result (λ r. IsNext H.start self.old r.1) }
        ensures ends { IfOk result (λ r. r.1.list ≡ self.new) }
    {
        let decided = self.decide(desk, asked)?;
        Ok(self.enter(desk, asked, decided)?)
    }

    /// The whole list, as a front.
    pub fn front(&self) -> Front<H>
        ensures { result ≡ self.now }
    {
        self.front.again()
    }

    /// The users after the whole list.
    pub fn directory(&self) -> &Directory
        ensures { result.now ≡ (state_after H.start self.now).directory }
    {
        &self.directory
    }

    /// Of the list and a front, the shorter begins the longer. It does nothing.
    pub fn compare(&self, front: &Front<H>)
        ensures { Beside self.now front.now }
    {
        self.front.compare(front);
    }

    /// The length of the list, which is how many receipts were got with all desks.
    pub fn total(&mut self, desks: &mut [Desk<H>]) -> u64
        requires all { (length desks.old ≡ H.parts) × (0 < H.parts) }
        ensures list { result ≡ length self.new }
        ensures made { result ≡ receipts desks.old }
        ensures same { (self.new ≡ self.old) × (desks.new ≡ desks.old) }
    {
        let listed = self.front.len();
        let first = &mut desks[0];
        let mut none = first.share.empty();
        let made = add_up(&mut self.book, desks, &mut none, 0);
        let are_all = made == listed;
        prove!(are_all);
        made
    }
}
