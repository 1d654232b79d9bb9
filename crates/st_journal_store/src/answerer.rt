//! What answers messages by a store whose changes are kept.
ghost use Rattle.st_journal_store.specs.Keeping.{answered};
ghost use Rattle.st_journal_store.specs.inner.Sound.{IsSound};
ghost use Rattle.st_service.specs.Answers.{Answers, RepliesTo, StateAnswers};
ghost use Rattle.st_service.specs.inner.Represented.{is_replied};

use crate::answer::answer;
use crate::beginning::{Beginning, Since};
use crate::keep::keep;
use crate::loss::Loss;
use crate::pending::Pending;
use st_connection::Failed;
use st_connection::replies::Replies;
use st_core::Store;
use st_http::message::Message;
use st_journal::Journal;
use st_service::Answer;
use std::alloc::Global;
use std::marker::{Model, PhantomData};
use std::time::Clock;

// A store, the journal of its changes, and the change that was answered last, until it is kept.
#[derive(Drop)]
pub(crate) struct DurableAnswerer<'a, B: Beginning + Since, J: Journal + Drop, C: Clock> {
    pub(crate) alloc: Global,
    pub(crate) clock: &'a C,
    pub(crate) store: Store,
    pub(crate) journal: J,
    pub(crate) pending: Option<Pending>,
    pub(crate) loss: Option<Loss>,
    pub(crate) beginning: PhantomData<B>,
}

impl<'a, B: Beginning + Since, J: Journal + Drop, C: Clock> Model for DurableAnswerer<'a, B, J, C> {
    ghost use Rattle.st_journal_store.specs.Keeping.{Keeping};
    ghost use Rattle.st_journal_store.specs.inner.Sound.{IsSound};

    ghost Value = { Keeping J };

    ghost view = { λ a. record { kept = a.store; journal = a.journal; pending = a.pending; loss = a.loss } };

    ghost invariant = { λ a. IsSound J.Journal B.first B.faults
        (record { kept = a.store; journal = a.journal; pending = a.pending; loss = a.loss }) };
}

impl<'a, B: Beginning + Since, J: Journal + Drop, C: Clock> DurableAnswerer<'a, B, J, C> {
    // What is always true of it.
    pub(crate) fn laws(&self)
        ensures { IsSound J.Journal B.first B.faults self.now }
    {
        let _loss = self.loss;
    }
}

impl<'a, B: Beginning + Since, J: Journal + Drop, C: Clock> Replies
    for DurableAnswerer<'a, B, J, C> {
    ghost use Rattle.std.specs.declared.alloc.Global.{Global};
    ghost use Rattle.st_core.specs.State.{State};

    type Reply = Answer;

    ghost State = { State Global };

    ghost now = { answered };

    ghost kept = { λ a. a.kept };

    ghost use Rattle.std.specs.Prelude.{is_some, refl};

    ghost has_failed = { λ a. is_some a.loss };

    ghost answers = { Answers };

    ghost replies = { RepliesTo };

    ghost replied = { is_replied (StateAnswers {A = Global}) };

    ghost faults = { λ s reason bare. (refl, refl) };

    // While a change is not kept, no further one is taken. The loop syncs each answer before it reads the next message.
    fn reply(&mut self, message: &Message<'_>) -> Answer {
        if self.pending.is_some() {
            return Answer::Busy {
                close: message.close,
                bare: message.bare,
            };
        }
        if let Some(answer) = Answer::of_unrouted(self.alloc, message) {
            return answer;
        }
        let (answer, pending) = answer(self.alloc, self.clock, &self.store, message);
        self.pending = pending;
        answer
    }

    fn sync(&mut self) -> Result<(), Failed> {
        let Some(pending) = &self.pending else {
            return Ok(());
        };
        match keep(&mut self.store, &mut self.journal, pending) {
            Ok(()) => {
                self.pending = None;
                Ok(())
            }
            Err(loss) => {
                self.loss = Some(loss);
                Err(Failed)
            }
        }
    }
}
