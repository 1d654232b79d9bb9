//! The end of a transaction.
ghost use Rattle.std.specs.Prelude.{◌≡◌, ◌≢◌, ◌⊎◌, ◌≤◌, ℕ, ⊤, false, Ok, Err, IsTrue, IfErr, OnOk, OnErr};
ghost use Rattle.st_journal.specs.Faults.{FaultsRise};
ghost use Rattle.st_journal.specs.declared.journal.AppendError.TheVariants as ends;
ghost use Rattle.sqlite_trees.specs.Tree.{Trees};
ghost use Rattle.sqlite_trees.specs.View.{View, doubt, HasCause, IsClean, Commits, IsRolledBack};
ghost use Rattle.st_journal_rows.specs.inner.Writes.{Wrote};

use sqlite_trees::error::StoreError;
use sqlite_trees::store::Store;
use st_journal::AppendError;

// Why nothing was kept, where the store goes on after this error.
fn reason(error: StoreError) -> AppendError
    ensures known { result ≢ ends.Unknown }
    ensures caused { (old : View) (before after : ℕ) → old.is_broken ≡ false → HasCause old (FaultsRise before after) ⊤ error
        → result ≡ ends.NotKept → FaultsRise before after }
{
    match error {
        StoreError::OutOfMemory | StoreError::Unstorable => AppendError::NoMemory,
        StoreError::Io | StoreError::Corrupt | StoreError::Full | StoreError::Broken => {
            AppendError::NotKept
        }
    }
}

// Commits what was written if all went well, and else rolls it back.
fn conclude<S: Store>(store: &mut S, written: Result<(), StoreError>) -> Result<(), StoreError>
    ensures clean { doubt (S.view store.old).is_clean ≤ doubt (S.view store.new).is_clean }
    ensures counts { S.faults store.old ≤ S.faults store.new }
    ensures numbered { IsClean (S.view store.new) → (S.view store.new).is_numbered ≡ (S.view store.old).is_numbered }
    ensures done { OnOk result (written ≡ Ok tt) }
    ensures ok { OnOk result (IsClean (S.view store.new) → Commits (S.view store.old) (S.view store.new)) }
    ensures err { OnErr result (IsRolledBack (S.view store.old) (S.view store.new)) }
    ensures cause { IfErr result (λ error. IsClean (S.view store.new) → (written ≡ Err error)
        ⊎ ((written ≡ Ok tt) × HasCause (S.view store.old) (FaultsRise (S.faults store.old) (S.faults store.new)) ⊥ error)) }
    ensures closes { IsClean (S.view store.new) → IsTrue (S.view store.old).is_open
        → IsTrue (S.view store.new).is_open ⊎ FaultsRise (S.faults store.old) (S.faults store.new) }
    ensures crash { (db : Trees) → S.recovers store.new db
        → ((written ≡ Ok tt) × ((S.view store.old).is_broken ≡ false) × (db ≡ (S.view store.old).trees)) ⊎ S.recovers store.old db }
{
    match written {
        Ok(()) => store.commit(),
        Err(error) => {
            store.rollback();
            Err(error)
        }
    }
}

// Commits what was written if all went well, and else rolls it back. `NoMemory` and `NotKept`: nothing was kept, and the store is
// still usable. `Unknown`: the store is broken, and what it holds is unknown until it is reopened.
pub(crate) fn finish<S: Store>(
    store: &mut S,
    written: Result<(), StoreError>,
) -> Result<(), AppendError>
    ensures clean { doubt (S.view store.old).is_clean ≤ doubt (S.view store.new).is_clean }
    ensures counts { S.faults store.old ≤ S.faults store.new }
    ensures numbered { IsClean (S.view store.new) → (S.view store.new).is_numbered ≡ (S.view store.old).is_numbered }
    ensures done { OnOk result (written ≡ Ok tt) }
    ensures ok { OnOk result (IsClean (S.view store.new) → Commits (S.view store.old) (S.view store.new)) }
    ensures err { OnErr result (IsRolledBack (S.view store.old) (S.view store.new)) }
    ensures not_kept { IsClean (S.view store.new) → result ≢ Err ends.Unknown
        → OnErr result (IsTrue (S.view store.new).is_open) }
    ensures refused { IsClean (S.view store.new) → result ≡ Err ends.NotKept → (sound : View) (before : ℕ) → before ≤ S.faults store.old
        → Wrote sound (S.view store.old) before (S.faults store.old) written → FaultsRise before (S.faults store.new) }
    ensures unknown { IsClean (S.view store.new) → result ≡ Err ends.Unknown → IsTrue (S.view store.old).is_open
        → FaultsRise (S.faults store.old) (S.faults store.new) }
    ensures crash { (db : Trees) → S.recovers store.new db
        → ((written ≡ Ok tt) × ((S.view store.old).is_broken ≡ false) × (db ≡ (S.view store.old).trees)) ⊎ S.recovers store.old db }
{
    let Err(error) = conclude(store, written) else {
        return Ok(());
    };
    if store.is_broken() {
        Err(AppendError::Unknown)
    } else {
        Err(reason(error))
    }
}
