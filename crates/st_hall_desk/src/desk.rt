//! Desks, which read a published copy and wait for nobody.
ghost use Rattle.std.specs.Prelude.{◌≡◌, ◌⊎◌, is_some, IfOk, false};
ghost use mathlib.Core.List.{IsPrefix};
ghost use Rattle.st_core.specs.Step.{asker_of, asks_for_change};
ghost use Rattle.st_policy.specs.declared.refusal.Refusal.TheVariants.{Json};
ghost use Rattle.st_core.specs.declared.asked.Call.TheVariants.{Bad};
ghost use Rattle.st_hall_press.specs.Steps.{Ask, HallState, reply_of, state_after};
ghost use Rattle.st_hall_press.specs.inner.Editions.{Agrees};

use core::mem::replace_with;
use left_right::reader::Reader;
use st_core::{Asked, Call, Denial, Refusal, Reply, Token};
use st_hall_press::HallName;
use st_hall_press::edition::{Agreeing, Consistent, Edition};
use st_hall_press::front::Front;
use st_hall_press::steps::answer;
use std::alloc::AllocError;
use std::marker::Model;
use std::sync::ledger::Share;

/// A place for a reader of the published state.
pub type EditionReader<H> = Reader<Edition<H>, (), Consistent<H>>;

/// A reader of the hall. Contracts see the changes that it has seen, and how many receipts were got with it.
pub struct Desk<H: HallName> {
    reader: EditionReader<H>,
    pub(crate) front: Front<H>,
    pub(crate) share: Share<H>,
    pub(crate) made: u64,
}

// Written out, and not derived: a derived drop is proved anew in each crate that owns a desk.
impl<H: HallName> Drop for Desk<H> {
    fn drop(self) {
        let Self {
            reader: _reader,
            front: _front,
            share: _share,
            made: _made,
        } = self;
    }
}

impl<H: HallName> Model for Desk<H> {
    ghost use Rattle.std.specs.Prelude.{◌≡◌};
    ghost use Rattle.st_hall_press.specs.Views.{Seat};

    ghost Value = { Seat };

    ghost view = { λ d. record { seen = d.front; made = d.made } };

    ghost invariant = { λ d. (d.share.parts ≡ 1) × (d.share.amount ≡ d.made) };
}

// Reads a copy. A copy that is older than what was seen, which never comes, is not read.
fn consult<H: HallName>(
    edition: &Edition<H>,
    front: &Front<H>,
    asked: &Asked,
) -> (Front<H>, Result<Reply, AllocError>)
    requires { Agrees H.start edition.now × (asks_for_change asked.now ≡ false) }
    ensures seen { IsPrefix front.now result.0 }
    ensures reply { IfOk result.1 (λ r. r ≡ reply_of (state_after H.start result.0) asked.now) }
{
    let next = &edition.front;
    front.compare(next);
    if next.len() < front.len() {
        return (front.again(), Err(AllocError));
    }
    (next.again(), answer(&edition.store, asked))
}

// Enters the copy that was published last, reads it and leaves it.
fn look<H: HallName>(
    reader: EditionReader<H>,
    at: (&Front<H>, &Asked),
) -> (EditionReader<H>, (Front<H>, Result<Reply, AllocError>))
    requires { asks_for_change at.1.now ≡ false }
    ensures seen { IsPrefix at.entry.0.now result.1.0 }
    ensures reply { IfOk result.1.1 (λ r. r ≡ reply_of (state_after H.start result.1.0) at.entry.1.now) }
{
    let (front, asked) = at;
    match reader.enter_as::<Agreeing<H>>() {
        Ok(reading) => {
            let sight = consult(reading.get(), front, asked);
            (reading.leave(), sight)
        }
        Err(reader) => (reader, (front.again(), Err(AllocError))),
    }
}

// Whether a call that is no JSON object was refused for that, and not for its token.
fn is_known(reply: &Reply) -> bool
    ensures { (s : HallState) (asked : Ask) → asked.call ≡ Bad Json → reply.now ≡ reply_of s asked
        → result ≡ is_some (asker_of s.directory asked.token) }
{
    match reply {
        Reply::Refused(Refusal::Denied(Denial::Token)) => false,
        _ => true,
    }
}

impl<H: HallName> Desk<H> {
    /// A desk at a place of its own, with one part of what counts receipts. The front is what it has seen.
    pub fn new(reader: EditionReader<H>, front: Front<H>, share: Share<H>) -> Desk<H>
        requires { (share.parts ≡ 1) × (share.amount ≡ 0) }
        ensures { (result.seen ≡ front) × (result.made ≡ 0) }
    {
        Desk {
            reader,
            front,
            share,
            made: 0,
        }
    }

    /// How many receipts were got with it.
    pub fn made(&self) -> u64
        ensures { result ≡ self.now.made }
    {
        self.made
    }

    /// Answers a read after the changes that are then seen.
    pub fn read(&mut self, asked: &Asked) -> Result<Reply, AllocError>
        requires { asks_for_change asked.now ≡ false }
        ensures reply { IfOk result (λ r. r ≡ reply_of (state_after H.start self.new.seen) asked.now) }
        ensures seen { IsPrefix self.old.seen self.new.seen }
        ensures made { self.new.made ≡ self.old.made }
    {
        let (front, reply) = replace_with(&mut self.reader, (&self.front, asked), look::<H>);
        self.front = front;
        reply
    }

    /// Whether a token holds after the changes that are then seen.
    pub fn knows(&mut self, token: Option<Token>) -> Result<bool, AllocError>
        ensures holds { IfOk result (λ holds. holds ≡ is_some (asker_of (state_after H.start self.new.seen).directory token)) }
        ensures seen { IsPrefix self.old.seen self.new.seen }
        ensures made { self.new.made ≡ self.old.made }
    {
        let asked = Asked {
            token,
            call: Call::Bad(Refusal::Json),
        };
        let told = self.read(&asked);
        drop(asked);
        let reply = told?;
        let holds = is_known(&reply);
        drop(reply);
        Ok(holds)
    }

    /// The changes that were seen, as a front.
    pub fn front(&self) -> Front<H>
        ensures { result ≡ self.now.seen }
    {
        self.front.again()
    }

    /// Learns a front. What was seen and the front begin each other, and the longer one is seen from now on.
    pub fn learn(&mut self, front: &Front<H>)
        ensures one { (self.new.seen ≡ self.old.seen) ⊎ (self.new.seen ≡ front.now) }
        ensures this { IsPrefix self.old.seen self.new.seen }
        ensures that { IsPrefix front.now self.new.seen }
        ensures made { self.new.made ≡ self.old.made }
    {
        self.front = self.front.longer(front);
    }
}
