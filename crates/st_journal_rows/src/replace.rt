//! Other rows in place of those that the table has.
ghost use Rattle.std.specs.Prelude.{◌≡◌, ◌+◌, ◌<◌, ◌≤◌, ◌^◌, ⊤, length, IfErr, OnOk};
ghost use Rattle.sqlite_trees.specs.View.{HasCause, IsClean, IsQuiet, KeepsCommitted};
ghost use Rattle.st_journal.specs.Faults.{FaultsRise};
ghost use Rattle.st_journal_rows.specs.Table.{table_tree};
ghost use Rattle.st_journal_rows.specs.Ready.{IsReady};
ghost use Rattle.st_journal_rows.specs.inner.Putting.{PutsBehind};
ghost use Rattle.st_journal_rows.specs.inner.Writes.{Replaces, Trims};

use crate::commit::finish;
use crate::object::TREE;
use crate::write::put_all;
use sqlite_trees::error::StoreError;
use sqlite_trees::store::{Shape, Store};
use st_journal::{AppendError, Record};
use std::alloc::Global;

// Takes out all rows of so many but the first `kept`, without a commit.
fn trim<S: Store>(store: &mut S, count: u64, kept: u64) -> Result<(), StoreError>
    requires table { IsClean (S.view store.old) → (S.view store.old).shape table_tree ≡ Shape.Table }
    requires room { count < 2 ^ 63 }
    requires fewer { kept ≤ count }
    ensures trimmed { OnOk result (IsClean (S.view store.new) → Trims (S.view store.old) (S.view store.new) count kept) }
    ensures kept { IsClean (S.view store.new) → KeepsCommitted (S.view store.old) (S.view store.new) }
    ensures cause { IsClean (S.view store.new)
        → IfErr result (HasCause (S.view store.old) (FaultsRise (S.faults store.old) (S.faults store.new)) ⊤) }
    ensures quiet { IsQuiet S.view S.faults S.recovers S.is_shielded store.old store.new }
{
    for done in 0..count - kept {
        let number = count - 1 - done;
        store.delete(TREE, number as i64)?;
    }
    Ok(())
}

// Writes the records behind the first `kept` of so many rows, in place of the others, without a commit. It fails where the store
// does; what was written until then is for [`finish`] to roll back.
fn replace_all<S: Store>(
    store: &mut S,
    alloc: Global,
    count: u64,
    kept: u64,
    records: &[Record],
) -> Result<(), StoreError>
    requires table { IsClean (S.view store.old) → (S.view store.old).shape table_tree ≡ Shape.Table }
    requires room { count < 2 ^ 63 }
    requires fewer { kept ≤ count }
    requires fits { kept + length records.now < 2 ^ 63 }
    ensures replaced { OnOk result (IsClean (S.view store.new) → Replaces (S.view store.old) (S.view store.new) count kept records.now) }
    ensures kept { IsClean (S.view store.new) → KeepsCommitted (S.view store.old) (S.view store.new) }
    ensures cause { IsClean (S.view store.new)
        → IfErr result (HasCause (S.view store.old) (FaultsRise (S.faults store.old) (S.faults store.new)) ⊤) }
    ensures quiet { IsQuiet S.view S.faults S.recovers S.is_shielded store.old store.new }
{
    trim(store, count, kept)?;
    put_all(store, alloc, kept, records)
}

/// Puts the records behind the first `kept` of so many rows, in place of the others, all of them or none, and returns once they would
/// outlast a crash. Where nothing was kept and the store goes on, `NoMemory` if memory ran out or a record is too long, and `NotKept` if
/// the store failed or refused; `Unknown` where the store is broken, so that only opening it again tells.
pub fn put_behind<S: Store>(
    store: &mut S,
    alloc: Global,
    count: u64,
    kept: u64,
    records: &[Record],
) -> Result<(), AppendError>
    requires ready { IsClean (S.view store.old) → IsReady (S.view store.old) count }
    requires room { count < 2 ^ 63 }
    requires fewer { kept ≤ count }
    requires some { IsClean (S.view store.old) → 0 < kept }
    requires fits { kept + length records.now < 2 ^ 63 }
    ensures { PutsBehind S.view S.faults S.recovers store.old store.new count kept records.now result }
{
    let written = replace_all(store, alloc, count, kept, records);
    finish(store, written)
}
