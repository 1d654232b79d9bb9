//! A store that is made again from the records of its changes, and these records.
ghost use Rattle.std.specs.Prelude.{◌≡◌, Ok, Err, is_none, [], IfOk, OnOk, OnErr};
ghost use Rattle.std.specs.declared.alloc.Global.{Global as Heap};
ghost use Rattle.st_policy.specs.Policy.{refusal_of};
ghost use Rattle.st_core.specs.State.{State};
ghost use Rattle.st_journal_record.specs.Records.{ReadsAs};
ghost use Rattle.st_journal_store.specs.Applying.{Applies};

use crate::judged_record::JudgedRecord;
use st_core::Store;
use st_dir::Name;
use st_journal::{Record, Replay, ReplayError};
use st_journal_record::request_in;
use st_policy::{Request, decide};
use std::alloc::{AllocError, Global};
use std::marker::Model;

// Makes a recorded change again, and says whether the policy accepts it.
fn make_again(store: &mut Store, change: &Record, request: &Request) -> Result<bool, ReplayError>
    requires reads { ReadsAs change.now (Ok request.now) }
    ensures ok { OnOk result (Applies store.old change.now store.new) }
    ensures accepted { IfOk result (λ accepted. accepted ≡ is_none (refusal_of store.old.directory change.now.user request.now)) }
    ensures err { OnErr result (store.new ≡ store.old) }
    ensures invalid { result ≡ Err ReplayError.Invalid → (after : State Heap) → Applies store.old change.now after → ⊥ }
{
    let Ok(user) = Name::new(change.user.as_str()) else {
        return Err(ReplayError::Invalid);
    };
    if !request.is_change() || !store.directory().has_user(user.as_str()) {
        return Err(ReplayError::Invalid);
    }
    let accepted = decide(store.directory(), &user, request).is_ok();
    let told = store.change_by(&user, request);
    let made = match &told {
        Ok(_) => Ok(accepted),
        Err(AllocError) => Err(ReplayError::NoMemory),
    };
    drop(told);
    made
}

/// A store that is made again from the records of its changes, which are kept with what the policy says of them. Contracts see the
/// store's state and the changes.
#[derive(Drop)]
pub struct WatchedStore {
    alloc: Global,
    store: Store,
    changes: Vec<JudgedRecord>,
}

impl Model for WatchedStore {
    ghost use Rattle.st_journal_compact.specs.Watching.{Watched};

    ghost Value = { Watched };

    ghost view = { λ w. record { state = w.store; changes = w.changes.items } };
}

impl WatchedStore {
    /// The store before the first of the changes.
    pub fn new(alloc: Global, store: Store) -> WatchedStore
        ensures { result ≡ record { state = store; changes = [] } }
    {
        WatchedStore {
            alloc,
            store,
            changes: Vec::new(alloc),
        }
    }

    /// The changes that were made again, in order.
    pub fn into_changes(self) -> Vec<JudgedRecord>
        ensures { result.items ≡ self.changes }
    {
        self.changes
    }
}

impl Replay for WatchedStore {
    ghost use Rattle.st_journal_compact.specs.Watching.{Watches};

    ghost applies = { Watches };

    fn apply(&mut self, change: &Record) -> Result<(), ReplayError> {
        let Ok(note) = change.copy() else {
            return Err(ReplayError::NoMemory);
        };
        let request = request_in(self.alloc, self.alloc, change)?;
        if self.changes.reserve(1).is_err() {
            return Err(ReplayError::NoMemory);
        }
        let made = make_again(&mut self.store, change, &request);
        drop(request);
        let accepted = made?;
        let Ok(()) = self.changes.push(JudgedRecord { note, accepted }) else {
            unreachable!()
        };
        Ok(())
    }
}
