//! Rows of the table as records.
ghost use Rattle.std.specs.Prelude.{◌≡◌, ◌≤◌, ◌<◌, ◌^◌, pos, [], ◌∷◌, IsTrue, IfOk, IfErr, OnOk};
ghost use Rattle.sqlite_value.specs.declared.value.Value.TheVariants.{Null, Int, Text as TextValue};
ghost use Rattle.sqlite_value.specs.Order.{column};
ghost use Rattle.sqlite_trees.specs.Tree.{Trees};
ghost use Rattle.sqlite_trees.specs.View.{doubt, IsClean};
ghost use Rattle.st_journal_rows.specs.Table.{table_tree, row_of, opening_record, records_in};
ghost use Rattle.st_journal_rows.specs.Openings.{AreRefused};
ghost use Rattle.st_journal_rows.specs.inner.NoOther.{IsNoOther};
ghost use Rattle.st_journal_rows.specs.inner.Taking.{Takes, Reads};

use crate::error::OpenError;
use crate::last::last_number;
use crate::object::{MOST, TREE};
use crate::other::refusal;
use crate::progress::{Progress, report_at_step};
use sqlite_trees::store::{Direction, Shape, Store};
use sqlite_value::row::Row;
use sqlite_value::value::ValueRef;
use st_journal::{Record, Replay, ReplayError};
use st_text::Words;
use std::alloc::Global;
use std::str::from_utf8;

// The text in a column.
fn text_in(alloc: Global, row: &Row, at: usize) -> Result<Words, OpenError>
    ensures ok { IfOk result (λ text. column row.now at ≡ TextValue text) }
    ensures err { IfErr result IsNoOther }
{
    let ValueRef::Text(bytes) = row.get(at) else {
        return Err(OpenError::Damaged);
    };
    let Ok(text) = from_utf8(bytes) else {
        return Err(OpenError::Damaged);
    };
    match Words::new(alloc, text) {
        Ok(text) => Ok(text),
        Err(_) => Err(OpenError::NoMemory),
    }
}

// Whether a row begins with this number, and has NULL in the column of the number.
fn is_numbered(row: &Row, number: u64) -> bool
    requires { number < 2 ^ 63 }
    ensures number { IsTrue result → column row.now 0 ≡ Int (pos number) }
    ensures null { IsTrue result → column row.now 1 ≡ Null }
{
    let ValueRef::Int(found) = row.get(0) else {
        return false;
    };
    let ValueRef::Null = row.get(1) else {
        return false;
    };
    found == number as i64
}

// The record in a row, which has to have this number.
pub(crate) fn read_row(alloc: Global, row: &Row, number: u64) -> Result<Record, OpenError>
    requires { number < 2 ^ 63 }
    ensures ok { IfOk result (λ change. row.now ≡ row_of number change) }
    ensures err { IfErr result IsNoOther }
{
    if row.len() != 8 || !is_numbered(row, number) {
        return Err(OpenError::Damaged);
    }
    let ValueRef::Int(time) = row.get(2) else {
        return Err(OpenError::Damaged);
    };
    let user = text_in(alloc, row, 3)?;
    let request = text_in(alloc, row, 4)?;
    let name = text_in(alloc, row, 5)?;
    let body = text_in(alloc, row, 6)?;
    let result = text_in(alloc, row, 7)?;
    Ok(Record {
        time,
        user,
        request,
        name,
        body,
        result,
    })
}

// Whether the record is that of an opening, of whichever.
fn is_opening(change: &Record) -> bool
    ensures { IsTrue result → change.now ≡ opening_record change.now.time change.now.body }
{
    change.user.is("") && change.request.is("open") && change.name.is("") && change.result.is("")
}

// Takes the first record, which has to say this opening.
fn take_first(change: &Record, opening: &str) -> Result<(), OpenError>
    ensures ok { OnOk result (change.now ≡ opening_record change.now.time opening.now) }
    ensures err { IfErr result (AreRefused opening.now (change.now ∷ [])) }
{
    if !is_opening(change) {
        return Err(OpenError::Damaged);
    }
    if change.body.is(opening) {
        return Ok(());
    }
    Err(refusal(opening, change.body.as_str()))
}

// Takes the record behind so many: the first has to say this opening, and a later one is applied.
fn take<R: Replay>(
    count: u64,
    change: &Record,
    opening: &str,
    state: &mut R,
) -> Result<(), OpenError>
    ensures ok { OnOk result (Takes R.applies opening.now count change.now state.old state.new) }
    ensures first { IfErr result (AreRefused opening.now (change.now ∷ [])) }
    ensures later { 0 < count → IfErr result IsNoOther }
{
    if count == 0 {
        return take_first(change, opening);
    }
    match state.apply(change) {
        Ok(()) => Ok(()),
        Err(ReplayError::NoMemory) => Err(OpenError::NoMemory),
        Err(ReplayError::Invalid) => Err(OpenError::Damaged),
    }
}

// Reads the rows of the table and takes each. It answers how many there are.
pub(crate) fn read_all<S: Store, R: Replay, P: Progress>(
    store: &mut S,
    alloc: Global,
    opening: &str,
    state: &mut R,
    progress: &P,
) -> Result<u64, OpenError>
    requires table { IsClean (S.view store.old) → (S.view store.old).shape table_tree ≡ Shape.Table }
    ensures clean { doubt (S.view store.old).is_clean ≤ doubt (S.view store.new).is_clean }
    ensures outcomes { (db : Trees) → S.recovers store.new db → S.recovers store.old db }
    ensures ok { IfOk result (λ count. IsClean (S.view store.new)
        → Reads R.applies opening.now (S.view store.old) (S.view store.new) count state.old state.new) }
    ensures err { IfErr result (λ error. IsClean (S.view store.new)
        → AreRefused opening.now (records_in (S.view store.old).trees) error) }
{
    let last = last_number(store, alloc)?;
    let mut row = Row::new(alloc);
    let key = Row::new(alloc);
    if store.seek(0, TREE, &key, Direction::Forward).is_err() {
        return Err(OpenError::Io);
    }
    'rows: for count in 0..MOST {
        match store.next(0, &mut row) {
            Ok(true) => {}
            Ok(false) => return Ok(count),
            Err(_) => return Err(OpenError::Io),
        }
        let change = read_row(alloc, &row, count)?;
        take(count, &change, opening, state)?;
        report_at_step(progress, count, last);
    }
    Err(OpenError::NoMemory)
}
