//! Keeping a change.
ghost use Rattle.std.specs.Prelude.{◌≡◌, ◌≤◌, ◌⊎◌, ◌++◌, ◌∷◌, [], Err, List, OnOk, OnErr};
ghost use Rattle.st_core.specs.Step.{settle};
ghost use Rattle.st_journal.specs.declared.record.Record.{Record};
ghost use Rattle.st_journal.specs.Faults.{FaultsRise};
ghost use Rattle.st_journal.specs.Leaving.{LeavesOnly};
ghost use Rattle.st_journal_store.specs.inner.Sound.{IsNoted};

use crate::loss::{Loss, loss_of};
use crate::pending::Pending;
use crate::settled::make;
use st_core::Store;
use st_journal::Journal;
use std::slice;

// Appends the record of a change, and then makes the change.
pub(crate) fn keep<J: Journal>(
    store: &mut Store,
    journal: &mut J,
    pending: &Pending,
) -> Result<(), Loss>
    requires ready { J.is_ready journal.old }
    requires is_noted { IsNoted store.old pending.now }
    ensures misreads { J.misreads journal.old ≤ J.misreads journal.new }
    ensures counts { J.faults journal.old ≤ J.faults journal.new }
    ensures made { OnOk result (store.new ≡ (settle store.old pending.now.judged).state) }
    ensures unmade { OnErr result (store.new ≡ store.old) }
    ensures ready { OnOk result (J.is_ready journal.new) }
    ensures list { OnOk result (J.misreads journal.new ≡ 0
        → J.list journal.new ≡ J.list journal.old ++ pending.now.note ∷ []) }
    ensures disk { J.misreads journal.new ≡ 0 → result ≡ Err Loss.Disk
        → FaultsRise (J.faults journal.old) (J.faults journal.new) }
    ensures crash { LeavesOnly J.Journal journal.new (λ left. (left ≡ J.list journal.old)
        ⊎ (left ≡ J.list journal.old ++ pending.now.note ∷ [])) }
{
    if let Err(error) = journal.append(slice::from_ref(&pending.note)) {
        return Err(loss_of(error));
    }
    if make(store, &pending.judged).is_err() {
        return Err(Loss::NoMemory);
    }
    Ok(())
}
