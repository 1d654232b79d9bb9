//! What the two copies hold: a store, and the changes that it stands for.
//!
//! A copy makes a queued change only if its list is one longer than the copy's own. `Absorb` of `left_right` has no `requires`, so
//! the other branch answers out of memory; it never runs. Of the moves of `left_right`, opening, publishing, entering and leaving
//! are used; adding a change is a step of the history.
ghost use Rattle.std.specs.Prelude.{◌≡◌, true};
ghost use Rattle.st_hall_press.specs.Steps.{state_after};
ghost use Rattle.st_hall_press.specs.Views.{IsNext};
ghost use Rattle.st_hall_press.specs.inner.Editions.{IsJudged};

use crate::front::Front;
use crate::name::HallName;
use crate::steps::make;
use crossbeam_utils::rule::{Outcome, Protocol};
use left_right::Absorb;
use st_core::{Judged, Store};
use std::alloc::AllocError;
use std::marker::{Model, PhantomData};

/// A change that was judged after the list before it, with the list that ends with it. It holds no token.
#[derive(Drop)]
pub struct Queued<H: HallName> {
    judged: Judged,
    front: Front<H>,
}

impl<H: HallName> Model for Queued<H> {
    ghost use Rattle.st_hall_press.specs.Views.{QueuedValue};
    ghost use Rattle.st_hall_press.specs.inner.Editions.{IsJudged};

    ghost Value = { QueuedValue };

    ghost view = { λ q. record { judged = q.judged; list = q.front } };

    ghost invariant = { λ q. IsJudged H.start (record { judged = q.judged; list = q.front }) };
}

/// A store beside the changes that it stands for.
#[derive(Drop)]
pub struct Edition<H: HallName> {
    pub store: Store,
    pub front: Front<H>,
}

impl<H: HallName> Model for Edition<H> {
    ghost use Rattle.std.specs.Prelude.{◌≡◌};
    ghost use Rattle.st_hall_press.specs.Steps.{state_after};
    ghost use Rattle.st_hall_press.specs.inner.Editions.{EditionValue};

    ghost Value = { EditionValue };

    ghost view = { λ e. record { state = e.store; list = e.front } };

    ghost invariant = { λ e. e.store ≡ state_after H.start e.front };
}

impl<H: HallName> Queued<H> {
    /// A change as it was judged, and the list that ends with it.
    pub fn new(judged: Judged, front: Front<H>) -> Queued<H>
        requires { IsJudged H.start (record { judged = judged; list = front }) }
        ensures { result ≡ record { judged = judged; list = front } }
    {
        Queued { judged, front }
    }

    /// The list that ends with it.
    pub fn front(&self) -> &Front<H>
        ensures { result.now ≡ self.now.list }
    {
        &self.front
    }

    /// Whether it is the next change after a list.
    pub fn is_after(&self, front: &Front<H>) -> bool
        ensures { result ≡ true → IsNext H.start front.now self.now }
    {
        self.front.is_after(front)
    }
}

impl<H: HallName> Edition<H> {
    /// A store, and the list of changes after which it is the state.
    pub fn new(store: Store, front: Front<H>) -> Edition<H>
        requires { store ≡ state_after H.start front }
        ensures { result ≡ record { state = store; list = front } }
    {
        Edition { store, front }
    }
}

impl<H: HallName> Absorb<Queued<H>> for Edition<H> {
    ghost use Rattle.st_hall_press.specs.inner.Editions.{absorbed};

    type State = Edition<H>;

    ghost state = { λ e. e };

    ghost applied = { absorbed };

    // A change that is not the next one, which never comes, is not made.
    fn absorb_first(&mut self, queued: &Queued<H>, _other: &Edition<H>) -> Result<(), AllocError> {
        if !queued.is_after(&self.front) {
            return Err(AllocError);
        }
        make(&mut self.store, &queued.judged)?;
        self.front = queued.front.again();
        Ok(())
    }
}

/// The published copy holds the state after its list.
pub struct Consistent<H: HallName> {
    of: PhantomData<H>,
}

impl<H: HallName> Protocol<Edition<H>, ()> for Consistent<H> {
    ghost use Rattle.st_hall_press.specs.inner.Editions.{Agrees};

    ghost holds = { λ e views. Agrees H.start e };

    ghost first = { tt };
}

/// What entering and publishing tell.
pub struct Agreeing<H: HallName> {
    of: PhantomData<H>,
}

impl<H: HallName> Outcome<Edition<H>, ()> for Agreeing<H> {
    ghost use Rattle.st_hall_press.specs.inner.Editions.{Agrees};

    ghost then = { λ v x y w. Agrees H.start y };
}
