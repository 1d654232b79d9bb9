//! The rows that a store is opened with: those that stand in its table, or a first one.
ghost use Rattle.std.specs.Prelude.{◌≡◌, ◌≤◌, [], ◌∷◌, IsTrue, IfOk, IfErr, OnOk};
ghost use Rattle.st_journal.specs.declared.record.Record.{Record};
ghost use Rattle.sqlite_trees.specs.View.{doubt, IsClean};
ghost use Rattle.st_journal_rows.specs.Table.{opening_record, records_in};
ghost use Rattle.st_journal_rows.specs.Openings.{AreRefused};
ghost use Rattle.st_journal_rows.specs.inner.NoOther.{IsNoOther};
ghost use Rattle.st_journal_rows.specs.Ready.{HasRows, IsReady};
ghost use Rattle.st_journal_rows.specs.OpenedTable.{IsAtRest, OpensTable};

use crate::commit::finish;
use crate::error::OpenError;
use crate::object::{FORMAT, TREE};
use crate::progress::Progress;
use crate::read::read_all;
use crate::write::put_all;
use sqlite_trees::error::StoreError;
use sqlite_trees::store::{Alter, Shape};
use st_journal::{Record, Replay};
use st_text::Words;
use std::alloc::{AllocError, Global};
use std::slice;

// The first record of a journal.
fn first_record(alloc: Global, time: i64, opening: &str) -> Result<Record, AllocError>
    ensures { IfOk result (λ first. first ≡ opening_record time opening.now) }
{
    let user = Words::new(alloc, "")?;
    let request = Words::new(alloc, "open")?;
    let name = Words::new(alloc, "")?;
    let body = Words::new(alloc, opening)?;
    let result = Words::new(alloc, "")?;
    Ok(Record {
        time,
        user,
        request,
        name,
        body,
        result,
    })
}

// Writes the number of the format and the first record, without a commit.
fn write_first<S: Alter>(store: &mut S, alloc: Global, first: &Record) -> Result<(), StoreError>
    requires empty { IsClean (S.Store.view store.old) → HasRows (S.Store.view store.old) [] }
    ensures clean { doubt (S.Store.view store.old).is_clean ≤ doubt (S.Store.view store.new).is_clean }
    ensures written { OnOk result (IsClean (S.Store.view store.new) → HasRows (S.Store.view store.new) (first.now ∷ [])) }
{
    store.set_version(FORMAT)?;
    put_all(store, alloc, 0, slice::from_ref(first))
}

// Begins a journal in an empty table.
fn begin_new<S: Alter>(
    store: &mut S,
    alloc: Global,
    opening: &str,
    time: i64,
) -> Result<u64, OpenError>
    requires empty { IsClean (S.Store.view store.old) → HasRows (S.Store.view store.old) [] }
    ensures clean { doubt (S.Store.view store.old).is_clean ≤ doubt (S.Store.view store.new).is_clean }
    ensures ready { IfOk result (λ count. IsClean (S.Store.view store.new) → IsReady (S.Store.view store.new) count) }
    ensures records { OnOk result (IsClean (S.Store.view store.new)
        → records_in (S.Store.view store.new).committed ≡ opening_record time opening.now ∷ []) }
    ensures err { IfErr result IsNoOther }
{
    let Ok(first) = first_record(alloc, time, opening) else {
        return Err(OpenError::NoMemory);
    };
    let written = write_first(store, alloc, &first);
    match finish(store, written) {
        Ok(()) => Ok(1),
        Err(_) => Err(OpenError::Io),
    }
}

/// Takes the records of the table, or begins a journal where it has no rows. It answers how many records there are. `NotAJournal`
/// where the store has no such table, `LaterFormat` where a later version wrote it, `OtherOwner` where the first record says the
/// opening of another owner, `OtherOpening` where it says another one of the same owner, `Damaged` where the rows are not records in
/// order, one does not apply, or the format is an earlier one, `Io` where the store cannot be read or written, and `NoMemory` where
/// memory ran out. `progress` is told after every 100,000 changes.
pub fn begin<S: Alter, R: Replay, P: Progress>(
    store: &mut S,
    alloc: Global,
    opening: &str,
    time: i64,
    state: &mut R,
    progress: &P,
) -> Result<u64, OpenError>
    requires rest { IsClean (S.Store.view store.old) → IsTrue (S.Store.view store.old).is_open → IsAtRest (S.Store.view store.old) }
    ensures clean { doubt (S.Store.view store.old).is_clean ≤ doubt (S.Store.view store.new).is_clean }
    ensures ok { IfOk result (λ count. IsClean (S.Store.view store.new)
        → OpensTable R.applies opening.now (S.Store.view store.old) (S.Store.view store.new) count state.old state.new) }
    ensures err { IfErr result (λ error. IsClean (S.Store.view store.new)
        → AreRefused opening.now (records_in (S.Store.view store.old).committed) error) }
{
    if store.is_broken() {
        return Err(OpenError::Io);
    }
    let Shape::Table = store.shape(TREE) else {
        return Err(OpenError::NotAJournal);
    };
    let version = store.version();
    if version > FORMAT {
        return Err(OpenError::LaterFormat(version));
    }
    let count = read_all(store, alloc, opening, state, progress)?;
    if count == 0 {
        return begin_new(store, alloc, opening, time);
    }
    if version == FORMAT {
        Ok(count)
    } else {
        Err(OpenError::Damaged)
    }
}
