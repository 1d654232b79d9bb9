//! The press, which publishes the changes that a scribe has added.
ghost use Rattle.std.specs.Prelude.{◌≡◌, [], true, drop, MatchResult};
ghost use mathlib.Core.List.{IsPrefix};
ghost use Rattle.st_hall_press.specs.Steps.{state_after};
ghost use Rattle.st_hall_press.specs.Views.{Beside, IsNext};
ghost use Rattle.st_hall_press.specs.inner.Editions.{Agrees};

use crate::edition::{Edition, Queued};
use crate::front::Front;
use crate::name::HallName;
use crate::queue::{EditionWriter, hold, publish_queued, queue};
use core::mem::replace_with;
use left_right::Absorb;
use st_core::Store;
use std::alloc::AllocError;
use std::marker::Model;
use std::sync::Wait;

/// Publishes the changes that it is given, one after the other. Contracts see these changes, those of them that are published, and
/// whether there is room for the next one. Its drop waits for the readers.
pub struct Press<H: HallName, R: Wait + Drop>
where
    Edition<H>: Absorb<Queued<H>, State = Edition<H>>,
{
    writer: EditionWriter<H>,
    // The last change, where it is not queued yet.
    waiting: Option<Queued<H>>,
    front: Front<H>,
    // For the drop, which waits for the readers.
    rt: R,
}

impl<H: HallName, R: Wait + Drop> Model for Press<H, R>
where
    Edition<H>: Absorb<Queued<H>, State = Edition<H>>,
{
    ghost use Rattle.std.specs.Prelude.{◌++◌, drop, is_none};
    ghost use Rattle.st_hall_press.specs.Views.{Printed};
    ghost use Rattle.st_hall_press.specs.inner.Editions.{Agrees, Follows, waiting_list};

    ghost Value = { Printed };

    ghost view = { λ p. record { pushed = p.front; published = p.writer.desk.shown.value.list; has_room = is_none p.waiting } };

    ghost invariant = { λ p. Agrees H.start p.writer.desk.shown.value
        × Follows H.start p.writer.desk.shown.value.list (drop p.writer.behind p.writer.log.items ++ waiting_list p.waiting) p.front };
}

impl<H: HallName, R: Wait + Drop> Press<H, R> {
    /// A press that was given no change yet, over what publishes two copies of the opening state.
    pub fn new(writer: EditionWriter<H>, front: Front<H>, rt: R) -> Press<H, R>
        requires agrees { Agrees H.start writer.desk.shown.value }
        requires start { (writer.desk.shown.value.list ≡ []) × (drop writer.behind writer.log.items ≡ []) × (front ≡ []) }
        ensures { result ≡ record { pushed = []; published = []; has_room = true } }
    {
        Press {
            writer,
            waiting: None,
            front,
            rt,
        }
    }

    /// Makes room for the next change.
    pub fn make_room(&mut self) -> Result<(), AllocError>
        ensures pushed { self.new.pushed ≡ self.old.pushed }
        ensures published { self.new.published ≡ self.old.published }
        ensures room { MatchResult result (λ _. self.new.has_room ≡ true) (λ _. self.new.has_room ≡ self.old.has_room) }
    {
        queue(&mut self.writer, &mut self.waiting)
    }

    /// Takes the next change, for which there is room.
    pub fn put(&mut self, queued: Queued<H>)
        requires room { self.old.has_room ≡ true }
        requires next { IsNext H.start self.old.pushed queued }
        ensures pushed { self.new.pushed ≡ queued.list }
        ensures published { self.new.published ≡ self.old.published }
    {
        self.front = queued.front().again();
        hold(&mut self.waiting, queued);
    }

    /// Takes a change. Gives it back where it is not the next one after those that were taken, or out of memory.
    pub fn push(&mut self, queued: Queued<H>) -> Result<(), Queued<H>>
        ensures next { MatchResult result (λ _. IsNext H.start self.old.pushed queued) (λ back. back ≡ queued) }
        ensures pushed { MatchResult result (λ _. self.new.pushed ≡ queued.list) (λ _. self.new.pushed ≡ self.old.pushed) }
        ensures published { self.new.published ≡ self.old.published }
    {
        if !queued.is_after(&self.front) || self.make_room().is_err() {
            return Err(queued);
        }
        self.put(queued);
        Ok(())
    }

    /// Publishes all changes that were taken. If memory runs out, nothing further is published.
    pub fn publish<W: Wait>(&mut self, rt: &W) -> Result<(), AllocError>
        ensures pushed { self.new.pushed ≡ self.old.pushed }
        ensures published { MatchResult result (λ _. self.new.published ≡ self.new.pushed)
            (λ _. self.new.published ≡ self.old.published) }
        ensures grows { IsPrefix self.old.published self.new.published }
    {
        queue(&mut self.writer, &mut self.waiting)?;
        if !self.writer.has_pending_operations() {
            return Ok(());
        }
        replace_with(&mut self.writer, rt, publish_queued::<H, W>)
    }

    /// The changes that were taken, as a front.
    pub fn front(&self) -> Front<H>
        ensures { result ≡ self.now.pushed }
    {
        self.front.again()
    }

    /// The changes that are published, as a front.
    pub fn published_front(&self) -> Front<H>
        ensures { result ≡ self.now.published }
    {
        self.writer.published().front.again()
    }

    /// The store that desks read now.
    pub fn published(&self) -> &Store
        ensures store { result.now ≡ state_after H.start self.now.published }
        ensures begins { IsPrefix self.now.published self.now.pushed }
    {
        let _pushed = &self.front;
        &self.writer.published().store
    }

    /// Of what is published and a front, the shorter begins the longer. It does nothing.
    pub fn compare(&self, front: &Front<H>)
        ensures { Beside self.now.published front.now }
    {
        self.writer.published().front.compare(front);
    }
}

impl<H: HallName, R: Wait + Drop> Drop for Press<H, R> {
    fn drop(self) {
        let Self {
            writer,
            waiting,
            front: _front,
            rt,
        } = self;
        drop(waiting);
        drop(writer.take(&rt));
    }
}
