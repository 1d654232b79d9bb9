//! Records as rows of the table.
ghost use Rattle.std.specs.Prelude.{◌≡◌, ◌+◌, ◌<◌, ◌^◌, ℕ, ⊤, length, IfErr, OnOk};
ghost use Rattle.sqlite_trees.specs.View.{HasCause, IsClean, IsQuiet, KeepsCommitted};
ghost use Rattle.st_journal.specs.Faults.{FaultsRise};
ghost use Rattle.st_journal_rows.specs.Table.{table_tree, row_of};
ghost use Rattle.st_journal_rows.specs.inner.Writes.{Adds};

use crate::object::TREE;
use sqlite_trees::error::StoreError;
use sqlite_trees::store::{Shape, Store};
use sqlite_value::row::Row;
use sqlite_value::value::ValueRef;
use st_journal::Record;
use std::alloc::{AllocError, Global};

// Writes a record over the row.
fn fill(row: &mut Row, number: u64, change: &Record) -> Result<(), AllocError>
    requires { number < 2 ^ 63 }
    ensures { OnOk result (row.new ≡ row_of number change.now) }
{
    row.clear();
    row.push(ValueRef::Int(number as i64))?;
    row.push(ValueRef::Null)?;
    row.push(ValueRef::Int(change.time))?;
    row.push(ValueRef::Text(change.user.as_str().as_bytes()))?;
    row.push(ValueRef::Text(change.request.as_str().as_bytes()))?;
    row.push(ValueRef::Text(change.name.as_str().as_bytes()))?;
    row.push(ValueRef::Text(change.body.as_str().as_bytes()))?;
    row.push(ValueRef::Text(change.result.as_str().as_bytes()))
}

// Writes the records behind so many rows, without a commit. It fails where the store does; what was written until then is for
// [`crate::commit::finish`] to roll back.
pub(crate) fn put_all<S: Store>(
    store: &mut S,
    alloc: Global,
    count: u64,
    records: &[Record],
) -> Result<(), StoreError>
    requires table { IsClean (S.view store.old) → (S.view store.old).shape table_tree ≡ Shape.Table }
    requires room { count + length records.now < 2 ^ 63 }
    ensures added { OnOk result (IsClean (S.view store.new) → Adds (S.view store.old) (S.view store.new) count records.now) }
    ensures kept { IsClean (S.view store.new) → KeepsCommitted (S.view store.old) (S.view store.new) }
    ensures cause { IsClean (S.view store.new)
        → IfErr result (HasCause (S.view store.old) (FaultsRise (S.faults store.old) (S.faults store.new)) ⊤) }
    ensures quiet { IsQuiet S.view S.faults S.recovers S.is_shielded store.old store.new }
{
    let mut row = Row::new(alloc);
    let mut number = count;
    for change in records {
        fill(&mut row, number, change)?;
        store.put(TREE, &row)?;
        number += 1;
    }
    Ok(())
}
