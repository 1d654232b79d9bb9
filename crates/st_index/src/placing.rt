//! Rows that come to a place, and that go.
ghost use Rattle.std.specs.Prelude.{◌≡◌, ◌<◌, ◌≤◌, [], length, get_or, set, vec_capacity};
ghost use Rattle.std.specs.List.{insert, remove};
ghost use Rattle.st_key.specs.Key.{rank};
ghost use Rattle.st_index.specs.inner.Entries.{rank_of};
ghost use Rattle.st_index.specs.inner.Storages.{IsStored, stored_at, stored_rows};

use crate::room::{more, two};
use crate::row::Row;
use crate::storage::{OwnedRows, Storage, alone, into_rows, key_of, listed, vacant};
use st_key::{Key, Period};
use std::alloc::Allocator;
use std::mem;

// The place of the rows of a place and of a row at an index. Where their list is full, the new list takes all of them without
// more memory.
pub(crate) fn with_row<A: Allocator + Copy>(
    place: Storage<A>,
    index: usize,
    row: Row<A>,
    list: Vec<Row<A>, A>,
) -> Storage<A>
    requires stored { IsStored place }
    requires some { 0 < length (stored_rows place) }
    requires index { index ≤ length (stored_rows place) }
    requires empty { list.items ≡ [] }
    requires room { length (stored_rows place) < vec_capacity list }
    ensures stored { IsStored result }
    ensures at { stored_at result ≡ stored_at place }
    ensures rows { stored_rows result ≡ insert (stored_rows place) index row }
{
    let (period, key, held) = into_rows(place);
    let rows = match held {
        OwnedRows::One(other) => two(index, row, other, list),
        OwnedRows::Many(rows) => more(index, row, rows, list),
    };
    listed(period, key, rows)
}

// The row at an index of a place, and the place of the others.
pub(crate) fn without_row<A: Allocator + Copy>(
    place: Storage<A>,
    index: usize,
) -> (Row<A>, Storage<A>)
    requires stored { IsStored place }
    requires index { index < length (stored_rows place) }
    ensures stored { IsStored result.1 }
    ensures at { stored_at result.1 ≡ stored_at place }
    ensures value { result.0 ≡ get_or (stored_rows place) index result.0 }
    ensures left { stored_rows result.1 ≡ remove (stored_rows place) index }
{
    let (period, key, held) = into_rows(place);
    match held {
        OwnedRows::One(row) => (row, vacant(period, key)),
        OwnedRows::Many(mut rows) => {
            let row = rows.remove(index);
            (row, storage_of(period, key, rows))
        }
    }
}

// The place of rows that lie in a list: a single one that belongs to the key lies there no more.
fn storage_of<A: Allocator + Copy>(period: Period, key: Key, mut rows: Vec<Row<A>, A>) -> Storage<A>
    ensures stored { IsStored result }
    ensures at { stored_at result ≡ rank key }
    ensures rows { stored_rows result ≡ rows.items }
{
    if rows.len() != 1 || rows[0].key(period) != key {
        return listed(period, key, rows);
    }
    match rows.pop() {
        Some(row) => alone(period, key, row),
        None => vacant(period, key),
    }
}

// Puts a row of the key in the place of the one at an index.
pub(crate) fn replace<A: Allocator + Copy>(
    place: &mut Storage<A>,
    index: usize,
    period: Period,
    row: Row<A>,
) -> Row<A>
    requires stored { IsStored place.old }
    requires key { stored_at place.old ≡ rank_of period row }
    requires index { index < length (stored_rows place.old) }
    ensures stored { IsStored place.new }
    ensures at { stored_at place.new ≡ stored_at place.old }
    ensures value { result ≡ get_or (stored_rows place.old) index result }
    ensures rows { stored_rows place.new ≡ set (stored_rows place.old) index row }
{
    if let Storage::Heap { rows, .. } = place {
        return mem::replace(&mut rows[index], row);
    }
    let key = key_of(place);
    let (out, _) = without_row(mem::replace(place, alone(period, key, row)), index);
    out
}
