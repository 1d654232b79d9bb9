//! Rows of the table, read back as records.
ghost use Rattle.std.specs.Prelude.{◌≡◌, ◌≢◌, ◌≤◌, ◌<◌, ◌+◌, ◌^◌, ℕ, false, Err, List, IsTrue, IfOk, OnOk, drop, take, slice_get};
ghost use Rattle.st_journal.specs.declared.record.Record.{Record};
ghost use Rattle.st_journal.specs.Faults.{FaultsRise};
ghost use Rattle.st_journal.specs.declared.read_back.ReadError.TheVariants as ends;
ghost use Rattle.sqlite_trees.specs.View.{IsClean, IsQuiet, IsRolledBack, KeepsCommitted};
ghost use Rattle.st_journal_rows.specs.Table.{table_tree, numbered_rows};
ghost use Rattle.st_journal_rows.specs.Ready.{IsReady};

use crate::error::OpenError;
use crate::object::TREE;
use crate::read::read_row;
use sqlite_trees::store::{Shape, Store};
use sqlite_value::row::Row;
use st_journal::{ReadError, Record};
use std::alloc::Global;

// Reads the record of the row with this number, if there is one.
fn read_one<S: Store>(
    store: &mut S,
    alloc: Global,
    row: &mut Row,
    number: u64,
) -> Result<Option<Record>, OpenError>
    requires table { IsClean (S.view store.old) → (S.view store.old).shape table_tree ≡ Shape.Table }
    requires number { number < 2 ^ 63 }
    ensures found { IfOk result (λ found. IsClean (S.view store.new) → (records : List Record)
        → (S.view store.old).trees table_tree ≡ numbered_rows 0 records → found ≡ slice_get records number) }
    ensures same { OnOk result (IsClean (S.view store.new) → S.view store.new ≡ S.view store.old) }
    ensures kept { IsClean (S.view store.new) → KeepsCommitted (S.view store.old) (S.view store.new) }
    ensures quiet { IsQuiet S.view S.faults S.recovers S.is_shielded store.old store.new }
{
    match store.get(TREE, number as i64, row) {
        Ok(true) => Ok(Some(read_row(alloc, row, number)?)),
        Ok(false) => Ok(None),
        Err(_) => Err(OpenError::Io),
    }
}

// Reads the records of the rows from this number on, at most so many. `Io` where the store cannot be read, `Damaged` where a row
// is no record, or has another number, and `NoMemory` where memory ran out.
fn read_from<S: Store>(
    store: &mut S,
    alloc: Global,
    number: u64,
    most: usize,
) -> Result<Vec<Record>, OpenError>
    requires table { IsClean (S.view store.old) → (S.view store.old).shape table_tree ≡ Shape.Table }
    requires room { number + most ≤ 2 ^ 63 }
    ensures found { IfOk result (λ found. IsClean (S.view store.new) → (records : List Record)
        → (S.view store.old).trees table_tree ≡ numbered_rows 0 records → found.items ≡ take most (drop number records)) }
    ensures same { OnOk result (IsClean (S.view store.new) → S.view store.new ≡ S.view store.old) }
    ensures kept { IsClean (S.view store.new) → KeepsCommitted (S.view store.old) (S.view store.new) }
    ensures quiet { IsQuiet S.view S.faults S.recovers S.is_shielded store.old store.new }
{
    let mut row = Row::new(alloc);
    let mut records = Vec::new(alloc);
    for at in 0..most {
        let Some(change) = read_one(store, alloc, &mut row, number + at as u64)? else {
            return Ok(records);
        };
        if records.push(change).is_err() {
            return Err(OpenError::NoMemory);
        }
    }
    Ok(records)
}

// Restarts the transaction after a failed read (nothing was written in it). Tells whether the store is still usable.
fn mend<S: Store>(store: &mut S) -> ReadError
    ensures rolled { IsRolledBack (S.view store.old) (S.view store.new) }
    ensures goes_on { IsClean (S.view store.new) → result ≢ ends.Lost
        → IsTrue (S.view store.new).is_open × ((S.view store.new).is_broken ≡ false) }
    ensures lost { IsClean (S.view store.new) → result ≡ ends.Lost → IsTrue (S.view store.old).is_open
        → FaultsRise (S.faults store.old) (S.faults store.new) }
    ensures quiet { IsQuiet S.view S.faults S.recovers S.is_shielded store.old store.new }
{
    store.rollback();
    if store.is_broken() {
        ReadError::Lost
    } else {
        ReadError::NotRead
    }
}

/// Reads the records of the rows from this number on, at most so many. `NotRead` where memory ran out or the store cannot be read
/// and goes on, `Lost` where only opening it again tells what it holds.
pub fn read_back<S: Store>(
    store: &mut S,
    alloc: Global,
    number: u64,
    most: usize,
) -> Result<Vec<Record>, ReadError>
    requires table { IsClean (S.view store.old) → (S.view store.old).shape table_tree ≡ Shape.Table }
    requires room { number + most ≤ 2 ^ 63 }
    ensures found { IfOk result (λ found. IsClean (S.view store.new) → (records : List Record)
        → (S.view store.old).trees table_tree ≡ numbered_rows 0 records → found.items ≡ take most (drop number records)) }
    ensures ready { IsClean (S.view store.new) → result ≢ Err ends.Lost
        → (count : ℕ) → IsReady (S.view store.old) count → IsReady (S.view store.new) count }
    ensures same { IsClean (S.view store.new) → result ≢ Err ends.Lost → (S.view store.new).committed ≡ (S.view store.old).committed }
    ensures numbered { IsClean (S.view store.new) → (S.view store.new).is_numbered ≡ (S.view store.old).is_numbered }
    ensures lost { IsClean (S.view store.new) → result ≡ Err ends.Lost → IsTrue (S.view store.old).is_open
        → FaultsRise (S.faults store.old) (S.faults store.new) }
    ensures quiet { IsQuiet S.view S.faults S.recovers S.is_shielded store.old store.new }
{
    match read_from(store, alloc, number, most) {
        Ok(records) => Ok(records),
        Err(_) => Err(mend(store)),
    }
}
