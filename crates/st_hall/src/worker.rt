//! A worker, who answers requests one after the other at a desk.
//!
//! What a gate is told is no clause, since a gate has no state in contracts.
ghost use Rattle.std.specs.Prelude.{◌≡◌, ◌+◌, ◌-◌, ◌^◌, true, false, min, Some, is_some, Err, IfOk, IfSome, OnErr, OnOk, MatchResult};
ghost use mathlib.Core.List.{IsPrefix};
ghost use Rattle.st_core.specs.Step.{asker_of, asks_for_change};
ghost use Rattle.st_hall_press.specs.Steps.{reply_of, state_after};
ghost use Rattle.st_hall_press.specs.Views.{Learns};
ghost use Rattle.st_service.specs.Answers.{AsksBy, IsFound};
ghost use Rattle.st_hall.specs.Decisions.{Decides, counted};
ghost use Rattle.st_hall.specs.declared.commits.Undecided.TheVariants.{Lost as WasLost};

use crate::commits::{Commits, Lost, Outcome, Undecided};
use crate::synced::Synced;
use st_core::{Asked, Reply, Token};
use st_hall_desk::Desk;
use st_hall_press::HallName;
use st_hall_press::front::Front;
use st_hall_press::kept::KeptFront;
use st_http::message::Message;
use std::alloc::AllocError;
use std::marker::Model;
use std::sync::Wait;

// So often a worker asks a gate before it goes on.
const TURNS: u32 = 10_000;

/// What lets the reads of workers pass, and is told of their answers. A worker numbers its calls from 1.
pub trait Gate {
    /// Whether a read may be answered now.
    fn may_pass(&self, worker: u64, call: u64) -> bool;

    /// The answer to a call is made.
    fn answered(&self, worker: u64, call: u64);

    /// A read was not let pass, and is answered all the same.
    fn gave_up(&self, worker: u64, call: u64);
}

/// A worker at a desk, with what makes the changes of the hall and a gate. Contracts see its post, the same at its last sync, and
/// whether a sync failed.
pub struct Worker<'a, H: HallName, M: Commits<H>, G: Gate> {
    number: u64,
    calls: u64,
    learnt: Front<H>,
    desk: Desk<H>,
    synced: Synced<H>,
    // Whether all that was learnt is published.
    is_published: bool,
    // Whether a change may be made that was not answered.
    is_lost: bool,
    has_failed: bool,
    hall: &'a M,
    gate: &'a G,
}

// Written out, and not derived: a derived drop is proved anew in each crate that owns a worker.
impl<'a, H: HallName, M: Commits<H>, G: Gate> Drop for Worker<'a, H, M, G> {
    fn drop(self) {
        let Self {
            number: _number,
            calls: _calls,
            learnt: _learnt,
            desk: _desk,
            synced: _synced,
            is_published: _is_published,
            is_lost: _is_lost,
            has_failed: _has_failed,
            hall: _hall,
            gate: _gate,
        } = self;
    }
}

impl<'a, H: HallName, M: Commits<H>, G: Gate> Model for Worker<'a, H, M, G> {
    ghost use Rattle.std.specs.Prelude.{◌≡◌, true};
    ghost use mathlib.Core.List.{IsPrefix};
    ghost use Rattle.st_hall.specs.Decisions.{Standing};

    ghost Value = { Standing };

    ghost view = { λ s. record {
      post = record { number = s.number; calls = s.calls; learnt = s.learnt; seat = s.desk };
      synced = s.synced;
      has_failed = s.has_failed;
    } };

    ghost invariant = { λ s. IsPrefix s.learnt s.desk.seen × (s.has_failed ≡ true → M.may_lose) × (s.is_lost ≡ true → M.may_lose) };
}

// Asks the gate until it lets the read pass, or often enough.
fn wait_at<G: Gate>(gate: &G, worker: u64, call: u64) {
    for _ in 0..TURNS {
        if gate.may_pass(worker, call) {
            return;
        }
    }
    gate.gave_up(worker, call);
}

// Answers a read once the gate lets it pass, or has been asked often enough.
fn read<H: HallName, G: Gate>(
    gate: &G,
    worker: u64,
    call: u64,
    desk: &mut Desk<H>,
    asked: &Asked,
) -> Result<Reply, AllocError>
    requires { asks_for_change asked.now ≡ false }
    ensures reply { IfOk result (λ r. r ≡ reply_of (state_after H.start desk.new.seen) asked.now) }
    ensures seen { IsPrefix desk.old.seen desk.new.seen }
    ensures made { desk.new.made ≡ desk.old.made }
{
    wait_at(gate, worker, call);
    desk.read(asked)
}

// A desk learns the list of an outcome, and sees just that from then on.
fn learn<H: HallName>(desk: &mut Desk<H>, front: &Front<H>)
    requires { IsPrefix desk.old.seen front.now }
    ensures seen { desk.new.seen ≡ front.now }
    ensures made { desk.new.made ≡ desk.old.made }
{
    desk.learn(front);
}

impl<'a, H: HallName, M: Commits<H>, G: Gate> Worker<'a, H, M, G> {
    /// A worker of this number at a desk, of which all that it has seen is kept. What it has seen counts as learnt.
    pub fn new(
        number: u64,
        desk: Desk<H>,
        kept: KeptFront<H>,
        hall: &'a M,
        gate: &'a G,
    ) -> Worker<'a, H, M, G>
        requires { kept ≡ desk.seen }
        ensures post { result.post ≡ record { number = number; calls = 0; learnt = desk.seen; seat = desk } }
        ensures synced { result.synced ≡ result.post }
        ensures sound { result.has_failed ≡ false }
    {
        let learnt = desk.front();
        Worker {
            number,
            calls: 0,
            synced: Synced::of(number, 0, &learnt, &desk, kept),
            learnt,
            desk,
            is_published: true,
            is_lost: false,
            has_failed: false,
            hall,
            gate,
        }
    }

    /// How many receipts were got at the desk.
    pub fn made(&self) -> u64
        ensures { result ≡ self.now.post.seat.made }
    {
        self.desk.made()
    }

    /// Whether a sync failed, after which nothing more may be kept.
    pub fn has_failed(&self) -> bool
        ensures is { result ≡ self.now.has_failed }
        ensures lost { self.now.has_failed ≡ true → M.may_lose }
    {
        self.has_failed
    }

    /// Whether a change is lost, or it is known that nothing more is kept.
    pub fn is_lost(&self) -> bool
        ensures { result ≡ true → M.may_lose }
    {
        self.is_lost || self.hall.is_lost()
    }

    // A change may be made that is not answered.
    fn lose(&mut self)
        requires { M.may_lose }
        ensures { self.new ≡ self.old }
    {
        self.is_lost = true;
    }

    /// Whether a token holds after the changes that are then seen.
    pub fn knows(&mut self, token: Option<Token>) -> Result<bool, AllocError>
        ensures same { (self.new.synced ≡ self.old.synced) × (self.new.has_failed ≡ self.old.has_failed) }
        ensures number { self.new.post.number ≡ self.old.post.number }
        ensures calls { self.new.post.calls ≡ self.old.post.calls }
        ensures learnt { self.new.post.learnt ≡ self.old.post.learnt }
        ensures made { self.new.post.seat.made ≡ self.old.post.seat.made }
        ensures seen { IsPrefix self.old.post.seat.seen self.new.post.seat.seen }
        ensures holds { IfOk result (λ holds. holds
            ≡ is_some (asker_of (state_after H.start self.new.post.seat.seen).directory token)) }
    {
        self.desk.knows(token)
    }

    /// Begins a call, which is counted.
    pub fn begin(&mut self)
        ensures same { (self.new.synced ≡ self.old.synced) × (self.new.has_failed ≡ self.old.has_failed) }
        ensures number { self.new.post.number ≡ self.old.post.number }
        ensures calls { self.new.post.calls ≡ min (self.old.post.calls + 1) (2 ^ 64 - 1) }
        ensures learnt { self.new.post.learnt ≡ self.old.post.learnt }
        ensures seat { self.new.post.seat ≡ self.old.post.seat }
    {
        self.calls = self.calls.saturating_add(1);
    }

    /// Tells the gate that the answer to the call that began last is made.
    pub fn end(&self) {
        self.gate.answered(self.number, self.calls);
    }

    // Learns what a change came to, and gives its reply.
    fn take(&mut self, outcome: Outcome<H>) -> Option<Reply>
        requires { IsPrefix self.old.post.seat.seen outcome.front }
        ensures same { (self.new.synced ≡ self.old.synced) × (self.new.has_failed ≡ self.old.has_failed) }
        ensures reply { result ≡ outcome.reply }
        ensures number { self.new.post.number ≡ self.old.post.number }
        ensures calls { self.new.post.calls ≡ self.old.post.calls }
        ensures learnt { self.new.post.learnt ≡ outcome.front }
        ensures seen { self.new.post.seat.seen ≡ outcome.front }
        ensures made { self.new.post.seat.made ≡ self.old.post.seat.made }
    {
        let Outcome {
            reply,
            front,
            is_published,
        } = outcome;
        learn(&mut self.desk, &front);
        self.learnt = front;
        self.is_published = is_published;
        reply
    }

    // Makes a change, and learns what it came to.
    fn change<W: Wait>(
        &mut self,
        rt: &W,
        message: &Message<'_>,
        asked: &Asked,
    ) -> Result<Option<Reply>, Undecided>
        requires found { IsFound message.now }
        requires asks { AsksBy message.now asked.now }
        requires change { asks_for_change asked.now ≡ true }
        ensures same { (self.new.synced ≡ self.old.synced) × (self.new.has_failed ≡ self.old.has_failed) }
        ensures number { self.new.post.number ≡ self.old.post.number }
        ensures calls { self.new.post.calls ≡ self.old.post.calls }
        ensures made { MatchResult result (λ told. self.new.post.seat.made ≡ self.old.post.seat.made + counted told)
            (λ _. self.new.post.seat.made ≡ self.old.post.seat.made) }
        ensures decided { IfOk result (λ told. Decides H.start self.old.post.seat.seen asked.now told self.new.post.seat.seen) }
        ensures seen { IsPrefix self.old.post.seat.seen self.new.post.seat.seen }
        ensures learns { Learns self.old.post self.new.post }
        ensures lost { result ≡ Err WasLost → M.may_lose }
    {
        match self.hall.change(rt, &mut self.desk, message, asked) {
            Ok(outcome) => Ok(self.take(outcome)),
            Err(Undecided::NoMemory) => Err(Undecided::NoMemory),
            Err(Undecided::Lost) => {
                self.lose();
                Err(Undecided::Lost)
            }
        }
    }

    // Publishes all that was learnt, where it is not published yet and there is memory.
    fn publish<W: Wait>(&mut self, rt: &W) -> Result<(), Lost>
        ensures same { self.new ≡ self.old }
        ensures lost { OnErr result M.may_lose }
    {
        if !self.is_published {
            let synced = self.hall.sync(rt, &self.learnt)?;
            let (_kept, is_published) = synced;
            self.is_published = is_published;
        }
        Ok(())
    }

    // Publishes all that was learnt, where it is not published yet, and answers a read.
    fn read<W: Wait>(&mut self, rt: &W, asked: &Asked) -> Result<Reply, Undecided>
        requires { asks_for_change asked.now ≡ false }
        ensures same { (self.new.synced ≡ self.old.synced) × (self.new.has_failed ≡ self.old.has_failed) }
        ensures number { self.new.post.number ≡ self.old.post.number }
        ensures calls { self.new.post.calls ≡ self.old.post.calls }
        ensures learnt { self.new.post.learnt ≡ self.old.post.learnt }
        ensures made { self.new.post.seat.made ≡ self.old.post.seat.made }
        ensures seen { IsPrefix self.old.post.seat.seen self.new.post.seat.seen }
        ensures reply { IfOk result (λ r. r ≡ reply_of (state_after H.start self.new.post.seat.seen) asked.now) }
        ensures lost { result ≡ Err WasLost → M.may_lose }
    {
        if self.publish(rt).is_err() {
            return Err(Undecided::Lost);
        }
        match read(self.gate, self.number, self.calls, &mut self.desk, asked) {
            Ok(reply) => Ok(reply),
            Err(AllocError) => Err(Undecided::NoMemory),
        }
    }

    /// Answers what a message asks, in the call that began last; nothing where the token of a change does not hold. The list by which
    /// a change was decided is seen from then on. A read waits at the gate first, and shows all that was learnt. When out of memory
    /// a change is not made; a read may have seen more changes.
    pub fn ask<W: Wait>(
        &mut self,
        rt: &W,
        message: &Message<'_>,
        asked: &Asked,
    ) -> Result<Option<Reply>, Undecided>
        requires found { IsFound message.now }
        requires asks { AsksBy message.now asked.now }
        ensures same { (self.new.synced ≡ self.old.synced) × (self.new.has_failed ≡ self.old.has_failed) }
        ensures number { self.new.post.number ≡ self.old.post.number }
        ensures calls { self.new.post.calls ≡ self.old.post.calls }
        ensures seen { IsPrefix self.old.post.seat.seen self.new.post.seat.seen }
        ensures learns { Learns self.old.post self.new.post }
        ensures made { asks_for_change asked.now ≡ true
            → MatchResult result (λ told. self.new.post.seat.made ≡ self.old.post.seat.made + counted told)
            (λ _. self.new.post.seat.made ≡ self.old.post.seat.made) }
        ensures decided { asks_for_change asked.now ≡ true
            → IfOk result (λ told. Decides H.start self.old.post.seat.seen asked.now told self.new.post.seat.seen) }
        ensures read { asks_for_change asked.now ≡ false → self.new.post.seat.made ≡ self.old.post.seat.made }
        ensures reply { asks_for_change asked.now ≡ false
            → IfOk result (λ told. told ≡ Some (reply_of (state_after H.start self.new.post.seat.seen) asked.now)) }
        ensures lost { result ≡ Err WasLost → M.may_lose }
    {
        if asked.is_change() {
            return self.change(rt, message, asked);
        }
        match self.read(rt, asked) {
            Ok(reply) => Ok(Some(reply)),
            Err(why) => Err(why),
        }
    }

    // The kept-front token of a front, if the front is known to be kept.
    fn find_kept<W: Wait>(&self, rt: &W, front: &Front<H>) -> Option<KeptFront<H>>
        ensures { IfSome result (λ kept. kept ≡ front.now) }
    {
        match self.synced.find(front) {
            Some(kept) => Some(kept),
            None => self.hall.find_kept(rt, front),
        }
    }

    // Syncs all that was seen and, memory permitting, publishes all that was learnt. Returns the token of what was seen.
    fn keep<W: Wait>(&mut self, rt: &W) -> Result<KeptFront<H>, Lost>
        ensures same { self.new ≡ self.old }
        ensures kept { IfOk result (λ kept. kept ≡ self.new.post.seat.seen) }
        ensures lost { OnErr result M.may_lose }
    {
        let front = self.desk.front();
        if self.is_published {
            if let Some(kept) = self.find_kept(rt, &front) {
                return Ok(kept);
            }
        }
        let synced = self.hall.sync(rt, &front)?;
        let (kept, is_published) = synced;
        self.is_published = is_published;
        Ok(kept)
    }

    /// Ends the worker. Returns its desk, and the token of what the desk had seen at the last sync.
    pub fn apart(self) -> (Desk<H>, KeptFront<H>)
        ensures desk { result.0 ≡ self.entry.post.seat }
        ensures synced { result.1 ≡ self.entry.synced.seat.seen }
    {
        let Self {
            number: _number,
            calls: _calls,
            learnt: _learnt,
            desk,
            synced,
            is_published: _is_published,
            is_lost: _is_lost,
            has_failed: _has_failed,
            hall: _hall,
            gate: _gate,
        } = self;
        (desk, synced.into_seen())
    }

    /// Syncs all that was seen so far. If that fails, or nothing more is kept, `has_failed` stays true for good.
    pub fn sync<W: Wait>(&mut self, rt: &W) -> Result<(), Lost>
        ensures post { self.new.post ≡ self.old.post }
        ensures ok { OnOk result ((self.new.synced ≡ self.new.post) × (self.new.has_failed ≡ self.old.has_failed)) }
        ensures err { OnErr result ((self.new.synced ≡ self.old.synced) × (self.new.has_failed ≡ true)) }
        ensures lost { OnErr result M.may_lose }
    {
        if self.is_lost() {
            self.has_failed = true;
            return Err(Lost);
        }
        match self.keep(rt) {
            Ok(kept) => {
                self.synced = Synced::of(self.number, self.calls, &self.learnt, &self.desk, kept);
                Ok(())
            }
            Err(Lost) => {
                self.has_failed = true;
                Err(Lost)
            }
        }
    }
}
