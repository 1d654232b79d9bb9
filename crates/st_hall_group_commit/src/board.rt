//! What threads that wait for their changes look at.
//!
//! `is_awaited` says only that nobody waits if nobody leads, or once an append failed.
ghost use Rattle.std.specs.Prelude.{◌≡◌, ◌<◌, length, true, false, IfSome};
ghost use mathlib.Core.List.{IsPrefix};
ghost use Rattle.st_hall_group_commit.specs.inner.Boards.{Written};

use st_hall::{Front, HallName, KeptFront};
use std::marker::Model;

// What is known to be kept and to be published, whether a thread leads, and whether an append failed. A thread holds its lock only
// to read it or to write it. One thread at a time leads: it keeps and publishes what is decided, and writes down here how far.
#[derive(Drop)]
pub(crate) struct Board<H: HallName> {
    kept: KeptFront<H>,
    published: Front<H>,
    // How far the list is kept, even while a leader is still at work.
    sure: KeptFront<H>,
    is_led: bool,
    is_lost: bool,
}

impl<H: HallName> Model for Board<H> {
    ghost use Rattle.st_hall_group_commit.specs.inner.Boards.{Written};

    ghost Value = { Written };

    ghost view = { λ b. record { kept = b.kept; published = b.published; is_led = b.is_led; is_lost = b.is_lost } };
}

impl<H: HallName> Board<H> {
    // Nobody leads, and no append failed.
    pub(crate) fn new(kept: KeptFront<H>, published: Front<H>) -> Board<H>
        ensures { result ≡ record { kept = kept; published = published; is_led = false; is_lost = false } }
    {
        Board {
            sure: kept.again(),
            kept,
            published,
            is_led: false,
            is_lost: false,
        }
    }

    // Whether a front is known to be kept.
    pub(crate) fn keeps(&self, front: &Front<H>) -> bool
        ensures yes { result ≡ true → IsPrefix front.now self.now.kept }
        ensures no { result ≡ false → length self.now.kept < length front.now }
    {
        self.kept.front().compare(front);
        front.len() <= self.kept.front().len()
    }

    // Whether a front is known to be published.
    pub(crate) fn has_published(&self, front: &Front<H>) -> bool
        ensures yes { result ≡ true → IsPrefix front.now self.now.published }
        ensures no { result ≡ false → length self.now.published < length front.now }
    {
        let _both = self.published.longer(front);
        front.len() <= self.published.len()
    }

    // The kept-front token of a front, if it is known to be kept, even while a leader is still at work.
    pub(crate) fn find_sure(&self, front: &Front<H>) -> Option<KeptFront<H>>
        ensures { IfSome result (λ kept. kept ≡ front.now) }
    {
        self.sure.find(front)
    }

    // The kept-front token of a front that the caller need not work on: it is published, another thread leads, or an append failed.
    pub(crate) fn find_done(&self, front: &Front<H>) -> Option<KeptFront<H>>
        ensures { IfSome result (λ kept. kept ≡ front.now) }
    {
        if self.has_published(front) || self.is_led || self.is_lost {
            self.kept.find(front)
        } else {
            None
        }
    }

    // Whether an append failed.
    pub(crate) fn is_lost(&self) -> bool
        ensures { result ≡ self.now.is_lost }
    {
        self.is_lost
    }

    // Whether a thread has to wait for a front: another one leads, and may keep it yet.
    pub(crate) fn is_awaited(&self, front: &Front<H>) -> bool
        ensures led { result ≡ true → (self.now.is_led ≡ true) × (self.now.is_lost ≡ false) }
        ensures unkept { result ≡ true → length self.now.kept < length front.now }
    {
        self.is_led && !self.is_lost && !self.keeps(front)
    }

    // A thread leads from now on.
    pub(crate) fn begin(&mut self)
        ensures { self.new ≡ record { kept = self.old.kept; published = self.old.published; is_led = true; is_lost = self.old.is_lost } }
    {
        self.is_led = true;
    }

    // The thread that leads says how far it is kept, before it publishes that.
    pub(crate) fn note(&mut self, kept: KeptFront<H>)
        ensures { self.new ≡ self.old }
    {
        self.sure = kept;
    }

    // The thread that led says how far it came, and whether an append failed, and leads no more.
    pub(crate) fn end(&mut self, kept: KeptFront<H>, published: Front<H>, is_lost: bool)
        ensures { self.new ≡ record { kept = kept; published = published; is_led = false; is_lost = is_lost } }
    {
        self.sure = kept.again();
        self.kept = kept;
        self.published = published;
        self.is_led = false;
        self.is_lost = is_lost;
    }
}
