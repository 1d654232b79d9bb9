//! A store that is made again from the records of its changes.
ghost use Rattle.std.specs.Prelude.{◌≡◌, IfOk};

use crate::recorded::judged_again;
use crate::settled::make;
use st_core::Store;
use st_journal::{Record, Replay, ReplayError};
use std::alloc::{AllocError, Global};
use std::marker::Model;

/// A store that is made again from the records of its changes. Contracts see it as the store's state.
#[derive(Drop)]
pub struct ReplayedStore {
    alloc: Global,
    store: Store,
}

impl Model for ReplayedStore {
    ghost use Rattle.std.specs.declared.alloc.Global.{Global};
    ghost use Rattle.st_core.specs.State.{State};

    ghost Value = { State Global };

    ghost view = { λ r. r.store };
}

impl ReplayedStore {
    /// The store before the first of the changes.
    pub fn new(alloc: Global, store: Store) -> ReplayedStore
        ensures { result ≡ store }
    {
        ReplayedStore { alloc, store }
    }

    /// The store after the changes that were made again.
    pub fn into_store(self) -> Store
        ensures { result ≡ self }
    {
        self.store
    }

    /// The store after the changes that were made again, and an equal copy of it. An error when out of memory.
    pub fn into_stores(self) -> Result<(Store, Store), AllocError>
        ensures { IfOk result (λ both. (both.0 ≡ self) × (both.1 ≡ self)) }
    {
        let store = self.into_store();
        let copy = store.copy()?;
        Ok((store, copy))
    }
}

impl Replay for ReplayedStore {
    ghost use Rattle.st_journal_store.specs.Applying.{Applies};

    ghost applies = { Applies };

    fn apply(&mut self, change: &Record) -> Result<(), ReplayError> {
        let judged = judged_again(self.alloc, self.store.directory(), change)?;
        match make(&mut self.store, &judged) {
            Ok(()) => Ok(()),
            Err(AllocError) => Err(ReplayError::NoMemory),
        }
    }
}
