//! Lists of entries, in the order of their keys.
ghost use Rattle.std.specs.Prelude.{◌≡◌, ◌+◌, ◌<◌, ◌≤◌, ◌^◌, [], length, ltb, not, vec_len, vec_capacity, IfSome, IfNone, IfOk, IsOk};
ghost use Rattle.std.specs.Prelude.{OnErr};
ghost use Rattle.std.specs.List.{All, position};
ghost use Rattle.std.specs.List.Sorted.{IsSearchInRange, IsBinarySearchResult};
ghost use Rattle.std.specs.Ordering.{nat_cmp};
ghost use Rattle.st_key.specs.declared.period.Period.{Period};
ghost use Rattle.st_index.specs.declared.row.Row.{Row};
ghost use Rattle.st_key.specs.Key.{rank};
ghost use Rattle.st_index.specs.inner.Entries.{name_of, EntryValue, EntriesRise, rows_of, rank_of};
ghost use Rattle.st_index.specs.inner.Index.{Adds, Swaps, IsAbsent, RiseWith};
ghost use Rattle.st_index.specs.inner.Changes.{IsChange};

use crate::entry::Entry;
use crate::row::Row;
use crate::{order, room};
use st_key::{Key, Period};
use std::alloc::{AllocError, Allocator};

/// How a list of entries changed: at an index an entry came in, another one stands, or the one that stood there went.
#[derive(Clone, Copy)]
pub enum Change {
    Opened(usize),
    Altered(usize),
    Closed(usize),
}

// The index of the first entry that does not come before the key. The entries are looked at one by one: a processor fetches the
// keys of several at once, where a search by halves would wait for one after the other.
fn first_from<A: Allocator + Copy>(entries: &[Entry<A>], key: Key) -> Option<usize>
    ensures { result ≡ position (λ (e : EntryValue A). not (ltb e.at (rank key))) entries.now }
{
    entries
        .iter()
        .position(|entry| !order::is_before(entry.key(), key))
}

/// The index of the key's entry, or the index where it would stand.
pub fn find<A: Allocator + Copy>(entries: &[Entry<A>], key: Key) -> Result<usize, usize>
    ensures bound { IsSearchInRange result (length entries.now) }
    ensures place { IsBinarySearchResult (λ (e : EntryValue A). nat_cmp e.at (rank key)) entries.now result }
{
    let Some(place) = first_from(entries, key) else {
        return Err(entries.len());
    };
    let entry = &entries[place];
    if order::is_before(key, entry.key()) {
        Err(place)
    } else {
        Ok(place)
    }
}

/// Equal entries, in a list with room for so many. An error if memory runs out.
pub fn copies<A: Allocator + Copy>(
    alloc: A,
    entries: &[Entry<A>],
    room: usize,
) -> Result<Vec<Entry<A>, A>, AllocError>
    ensures items { IfOk result (λ copies. copies.items ≡ entries.now) }
    ensures room { IfOk result (λ copies. room ≤ vec_capacity copies) }
{
    let mut copies = Vec::with_capacity(alloc, room)?;
    for entry in entries {
        copies.push(entry.copy()?)?;
    }
    Ok(copies)
}

/// An empty list for one row more than a key holds, and for half as many again, so that few puts at a key move its rows. It
/// takes no memory where the key holds none.
pub fn list_for_more<A: Allocator + Copy>(
    alloc: A,
    held: usize,
) -> Result<Vec<Row<A>, A>, AllocError>
    requires { held + 1 < 2 ^ 64 }
    ensures empty { IfOk result (λ rows. rows.items ≡ []) }
    ensures room { 0 < held → IfOk result (λ rows. held < vec_capacity rows) }
    ensures no_room { held ≡ 0 → IfOk result (λ rows. vec_capacity rows ≡ 0) }
    ensures no_memory { held ≡ 0 → IsOk result }
{
    if held == 0 {
        return Ok(Vec::new(alloc));
    }
    Vec::with_capacity(alloc, (held + 1).saturating_add(held / 2))
}

/// Puts a row into a list of entries, at its key in a period, and says where. The lists take it without more memory.
pub fn put<A: Allocator + Copy>(
    entries: &mut Vec<Entry<A>, A>,
    period: Period,
    row: Row<A>,
    rows: Vec<Row<A>, A>,
) -> Change
    requires empty { rows.items ≡ [] }
    requires room { vec_len entries.old < vec_capacity entries.old }
    requires rows_room { All (λ (e : EntryValue A). e.at ≡ rank_of period row → 0 < length e.rows
        → length e.rows < vec_capacity rows) entries.old.items }
    ensures added { Adds row (rows_of entries.old.items) (rows_of entries.new.items) }
    ensures change { IsChange result entries.old.items entries.new.items }
    ensures rising { RiseWith (rank_of period row) row entries.old.items entries.new.items }
    ensures longer { vec_len entries.old ≤ vec_len entries.new }
    ensures at_most_one { vec_len entries.new ≤ vec_len entries.old + 1 }
    ensures new_key { (p : Period) (lo hi : _) → EntriesRise p lo hi entries.old.items → vec_len entries.old < vec_len entries.new
        → All (λ (e : EntryValue A). e.at ≡ rank_of period row → ⊥) entries.old.items }
    ensures capacity { vec_capacity entries.old ≤ vec_capacity entries.new }
{
    let key = row.key(period);
    match find(entries, key) {
        Ok(i) => {
            let entry = &mut entries[i];
            entry.put(period, row, rows);
            Change::Altered(i)
        }
        Err(i) => {
            room::put(entries, i, Entry::new(period, row));
            Change::Opened(i)
        }
    }
}

/// Takes out the row of this key and this name, and says where it stood.
pub fn take<A: Allocator + Copy>(
    entries: &mut Vec<Entry<A>, A>,
    key: Key,
    id: &str,
    label: &str,
    change: &mut Change,
) -> Option<Row<A>>
    ensures some { IfSome result (λ row. Adds row (rows_of entries.new.items) (rows_of entries.old.items)
        × ((name_of row) ≡ record { id = id.now; label = label.now })) }
    ensures placed { IfSome result (λ row. (period : Period) (lo hi : _) → EntriesRise period lo hi entries.old.items
        → rank_of period row ≡ rank key) }
    ensures change { IfSome result (λ _. IsChange change.new entries.old.items entries.new.items) }
    ensures none { IfNone result (entries.new.items ≡ entries.old.items) }
    ensures absent { IfNone result
        ((period : Period) (lo hi : _) → EntriesRise period lo hi entries.old.items
        → IsAbsent period (rank key) (record { id = id.now; label = label.now }) (rows_of entries.old.items)) }
    ensures rising { (period : Period) (lo hi : _) → EntriesRise period lo hi entries.old.items
        → EntriesRise period lo hi entries.new.items }
    ensures shorter { vec_len entries.new ≤ vec_len entries.old }
    ensures at_most_one { vec_len entries.old ≤ vec_len entries.new + 1 }
    ensures capacity { vec_capacity entries.new ≡ vec_capacity entries.old }
{
    let Ok(i) = find(entries, key) else {
        return None;
    };
    let entry = &mut entries[i];
    let row = entry.take(id, label)?;
    if entry.is_empty() {
        drop(entries.remove(i));
        *change = Change::Closed(i);
    } else {
        *change = Change::Altered(i);
    }
    Some(row)
}

/// Puts a row in the place of the one of its key in a period and of its name, and says where.
pub fn swap<A: Allocator + Copy>(
    entries: &mut Vec<Entry<A>, A>,
    period: Period,
    row: Row<A>,
    change: &mut Change,
) -> Result<Row<A>, Row<A>>
    ensures ok { IfOk result (λ out. Swaps out row (rows_of entries.old.items) (rows_of entries.new.items)
        × ((name_of out) ≡ (name_of row))) }
    ensures change { IfOk result (λ _. IsChange change.new entries.old.items entries.new.items) }
    ensures placed { IfOk result (λ out. (p : Period) (lo hi : _) → EntriesRise p lo hi entries.old.items
        → rank_of p out ≡ rank_of period row) }
    ensures absent { OnErr result ((p : Period) (lo hi : _) → EntriesRise p lo hi entries.old.items
        → IsAbsent p (rank_of period row) (name_of row) (rows_of entries.old.items)) }
    ensures rising { (p : Period) (lo hi : _) → rank_of period row ≡ rank_of p row → EntriesRise p lo hi entries.old.items
        → EntriesRise p lo hi entries.new.items }
    ensures err { OnErr result (entries.new.items ≡ entries.old.items) }
    ensures len { vec_len entries.new ≡ vec_len entries.old }
    ensures capacity { vec_capacity entries.new ≡ vec_capacity entries.old }
{
    let key = row.key(period);
    match find(entries, key) {
        Ok(i) => {
            let entry = &mut entries[i];
            match entry.swap(period, row) {
                Ok(out) => {
                    *change = Change::Altered(i);
                    Ok(out)
                }
                Err(row) => Err(row),
            }
        }
        Err(_) => Err(row),
    }
}

/// How many rows the key has.
pub fn count_at<A: Allocator + Copy>(entries: &[Entry<A>], key: Key) -> usize
    ensures value { (period : Period) (lo hi : _) → EntriesRise period lo hi entries.now
        → All (λ (e : EntryValue A). e.at ≡ rank key → length e.rows ≡ result) entries.now }
    ensures none { All (λ (e : EntryValue A). e.at ≡ rank key → ⊥) entries.now → result ≡ 0 }
    ensures in_range { result + 1 < 2 ^ 64 }
{
    match find(entries, key) {
        Ok(i) => {
            let entry = &entries[i];
            entry.len()
        }
        Err(_) => 0,
    }
}
