//! Fronts: beginnings of the list of changes.
ghost use Rattle.std.specs.Prelude.{◌≡◌, ◌==◌, ◌<◌, ◌≤◌, ◌^◌, ◌++◌, ◌∷◌, ◌⊎◌, [], length, true, MatchBool};
ghost use mathlib.Core.List.{IsPrefix};
ghost use Rattle.st_hall_press.specs.Steps.{Ask};
ghost use Rattle.st_hall_press.specs.Views.{Beside};
ghost use Rattle.st_hall_press.specs.inner.History.{head_of};

use crate::history::{Add, Head, Law, Nothing};
use crate::name::HallName;
use logbook::{Offer, Seen, Word};
use st_core::Asked;
use std::marker::{Model, PhantomData};

/// A beginning of the list of changes of a hall. Contracts see it as its changes.
#[derive(Drop)]
pub struct Front<H: HallName> {
    changes: u64,
    seen: Seen<Asked, u64, Law>,
    of: PhantomData<H>,
}

impl<H: HallName> Model for Front<H> {
    ghost use Rattle.std.specs.Prelude.{◌≡◌, List, length};
    ghost use Rattle.st_hall_press.specs.Steps.{Ask};

    ghost Value = { List Ask };

    ghost view = { λ f. f.seen.log };

    ghost invariant = { λ f. (f.changes ≡ length f.seen.log) × (f.seen.book ≡ H.book) };
}

/// The right to add to an empty history, and its beginning.
pub fn begin<H: HallName>(
    word: Word<Asked, u64, Law>,
    seen: Seen<Asked, u64, Law>,
) -> (Head<H>, Front<H>)
    requires { (word ≡ head_of seen.book) × (seen.book ≡ H.book) × (seen.log ≡ []) }
    ensures { result.1 ≡ [] }
{
    let head = Head {
        word,
        of: PhantomData,
    };
    let front = Front {
        changes: 0,
        seen,
        of: PhantomData,
    };
    (head, front)
}

impl<H: HallName> Front<H> {
    /// How many changes it has.
    pub fn len(&self) -> u64
        ensures { result ≡ length self.now }
    {
        self.changes
    }

    /// An equal one.
    pub fn again(&self) -> Front<H>
        ensures { result ≡ self.now }
    {
        Front {
            changes: self.changes,
            seen: self.seen.again(),
            of: PhantomData,
        }
    }

    /// One of two beginnings of the list begins the other. It does nothing.
    pub fn compare(&self, other: &Front<H>)
        ensures { Beside self.now other.now }
    {
        let mut both = self.seen.again();
        both.learn(&other.seen);
    }

    /// Whether it has one change more than another.
    pub fn is_after(&self, before: &Front<H>) -> bool
        ensures { result ≡ true → (ask : Ask) × (self.now ≡ before.now ++ ask ∷ []) }
    {
        self.compare(before);
        let longer = self.len();
        let shorter = before.len();
        if longer <= shorter {
            return false;
        }
        longer - shorter == 1
    }

    /// Adds a change to all that was seen, and says whether it did. It did not where the history is longer.
    pub fn add(&mut self, head: &Head<H>, asked: &Asked) -> bool
        requires { length self.old < 2 ^ 62 }
        ensures { MatchBool result (self.new ≡ self.old ++ asked.now ∷ []) (length self.old ≤ length self.new) }
    {
        let mut offer: Offer<Asked, u64, Law, Nothing> = self
            .seen
            .plain::<Nothing, Asked, Add>(asked);
        let mut pen = self.seen.no_pen();
        let changes = self.changes;
        let found = head
            .word
            .compare_exchange::<Add, Nothing>(
                changes,
                changes + 1,
                &mut self.seen,
                &mut offer,
                &mut pen,
            );
        self.changes = if found == changes { changes + 1 } else { found };
        found == changes
    }

    /// The longer of two fronts, which the other begins.
    pub fn longer(&self, other: &Front<H>) -> Front<H>
        ensures one { (result ≡ self.now) ⊎ (result ≡ other.now) }
        ensures this { IsPrefix self.now result }
        ensures that { IsPrefix other.now result }
    {
        self.compare(other);
        if self.len() < other.len() {
            other.again()
        } else {
            self.again()
        }
    }
}
