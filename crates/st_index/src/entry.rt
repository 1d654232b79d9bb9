//! The rows of one key.
//!
//! The entry has a variant for a row without a note and one with a box, so a note costs 8 bytes and no tag. The label of a noted
//! row lies in the note's box. A list that shrinks to one row gives it back to the entry. `RowView` gives its key without computing
//! the point.
ghost use Rattle.std.specs.Prelude.{◌≡◌, ◌+◌, ◌<◌, ◌≤◌, ◌==◌, ◌^◌, [], ◌∷◌, true, false, length, get_or, set, vec_capacity, IfSome};
ghost use Rattle.std.specs.Prelude.{IfNone, IfOk, OnErr};
ghost use Rattle.std.specs.List.{All, insert, remove};
ghost use Rattle.std.specs.List.Sorted.{IsSearchInRange, IsBinarySearchResult};
ghost use Rattle.st_key.specs.declared.period.Period.{Period};
ghost use Rattle.st_index.specs.declared.row.Row.{Row};
ghost use Rattle.st_key.specs.Key.{rank};
ghost use Rattle.st_index.specs.inner.Views.{viewed};
ghost use Rattle.st_index.specs.inner.Entries.{name_of, name_cmp, NamesRise, rank_of};
ghost use Rattle.st_index.specs.inner.Index.{Adds, Swaps, IsAbsent};

use crate::copying::copy_storage;
use crate::placing;
use crate::room::overwrite;
use crate::row::Row;
use crate::rows_view::RowsView;
use crate::storage::{self, Storage};
use st_key::{Key, Period};
use std::alloc::{AllocError, Allocator, Global};
use std::marker::Model;
use std::mem;

/// The rows of one key, by their names: by the id's bytes, then by the label's. A row alone lies in the entry, and takes no
/// memory of its own. An entry takes 48 bytes where its allocator takes none.
#[derive(Drop)]
pub struct Entry<A: Allocator = Global> {
    place: Storage<A>,
}

const _: () = prove!(size_of::<Entry>() == 48);

impl<A: Allocator> Model for Entry<A> {
    ghost use Rattle.st_index.specs.inner.Entries.{EntryValue};

    ghost Value = { EntryValue A };

    ghost use Rattle.st_index.specs.inner.Storages.{IsStored, stored_at, stored_rows};

    ghost view = { λ e. record { at = stored_at e.place; rows = stored_rows e.place } };

    ghost invariant = { λ e. IsStored e.place };
}

impl<A: Allocator + Copy> Entry<A> {
    /// An entry of one row at its key in a period, which takes no memory of its own.
    pub fn new(period: Period, row: Row<A>) -> Self
        ensures { result ≡ record { at = rank_of period row; rows = row ∷ [] } }
    {
        let key = row.key(period);
        Entry {
            place: storage::alone(period, key, row),
        }
    }

    /// An equal entry, or an error if memory runs out.
    pub fn copy(&self) -> Result<Self, AllocError>
        ensures { IfOk result (λ entry. entry ≡ self.now) }
    {
        Ok(Entry {
            place: copy_storage(&self.place)?,
        })
    }

    /// The key.
    pub fn key(&self) -> Key
        ensures { rank result ≡ self.now.at }
    {
        storage::key_of(&self.place)
    }

    /// The rows.
    pub fn rows(&self) -> RowsView<'_, A>
        ensures { viewed result ≡ self.now.rows }
    {
        storage::rows_in(&self.place)
    }

    /// How many rows the entry has.
    pub fn len(&self) -> usize
        ensures value { result ≡ length self.now.rows }
        ensures in_range { result + 1 < 2 ^ 64 }
    {
        storage::count(&self.place)
    }

    /// Whether the entry has no row left.
    pub fn is_empty(&self) -> bool
        ensures { result ≡ (length self.now.rows == 0) }
    {
        self.len() == 0
    }

    // The index of the row of this name, or the index where it would stand.
    fn find(&self, id: &str, label: &str) -> Result<usize, usize>
        ensures bound { IsSearchInRange result (length self.now.rows) }
        ensures place { IsBinarySearchResult (λ (r : Row A). name_cmp (name_of r) (record { id = id.now; label = label.now }))
            self.now.rows result }
    {
        storage::find(&self.place, id, label)
    }

    /// Whether there is a row of this name. No point is computed.
    pub fn has(&self, id: &str, label: &str) -> bool
        ensures held { result ≡ true
            → All (λ (r : Row A). (name_of r) ≡ record { id = id.now; label = label.now } → ⊥) self.now.rows → ⊥ }
        ensures absent { result ≡ false → NamesRise self.now.rows
            → All (λ (r : Row A). (name_of r) ≡ record { id = id.now; label = label.now } → ⊥) self.now.rows }
    {
        match self.find(id, label) {
            Ok(_) => true,
            Err(_) => false,
        }
    }

    // Puts in a row at an index, beside others. Where their list is full, the new list takes all of them without more memory.
    fn insert(&mut self, index: usize, row: Row<A>, list: Vec<Row<A>, A>)
        requires some { 0 < length self.old.rows }
        requires index { index ≤ length self.old.rows }
        requires empty { list.items ≡ [] }
        requires room { length self.old.rows < vec_capacity list }
        ensures at { self.new.at ≡ self.old.at }
        ensures rows { self.new.rows ≡ insert self.old.rows index row }
    {
        let place = mem::replace(&mut self.place, storage::nothing());
        overwrite(&mut self.place, placing::with_row(place, index, row, list));
    }

    // Takes out the row at an index.
    fn remove(&mut self, index: usize) -> Row<A>
        requires { index < length self.old.rows }
        ensures value { result ≡ get_or self.old.rows index result }
        ensures at { self.new.at ≡ self.old.at }
        ensures rows { self.new.rows ≡ remove self.old.rows index }
    {
        let place = mem::replace(&mut self.place, storage::nothing());
        let (row, left) = placing::without_row(place, index);
        overwrite(&mut self.place, left);
        row
    }

    // Puts a row of the key in the place of the one at an index.
    fn replace(&mut self, index: usize, period: Period, row: Row<A>) -> Row<A>
        requires key { self.old.at ≡ rank_of period row }
        requires index { index < length self.old.rows }
        ensures value { result ≡ get_or self.old.rows index result }
        ensures at { self.new.at ≡ self.old.at }
        ensures rows { self.new.rows ≡ set self.old.rows index row }
    {
        placing::replace(&mut self.place, index, period, row)
    }

    // Puts a row of the key at its place. Where there are rows already and their list is full, the new list takes all of them
    // without more memory.
    pub(crate) fn put(&mut self, period: Period, row: Row<A>, rows: Vec<Row<A>, A>)
        requires key { self.old.at ≡ rank_of period row }
        requires empty { rows.items ≡ [] }
        requires room { 0 < length self.old.rows → length self.old.rows < vec_capacity rows }
        ensures at { self.new.at ≡ self.old.at }
        ensures added { Adds row self.old.rows self.new.rows }
        ensures named { (p : Period) → NamesRise self.old.rows → IsAbsent p (rank_of p row) (name_of row) self.old.rows
            → All (λ r. rank_of p r ≡ rank_of p row) self.old.rows → NamesRise self.new.rows }
    {
        if self.is_empty() {
            overwrite(self, Entry::new(period, row));
            return;
        }
        let place = match self.find(row.id.as_str(), row.label.text()) {
            Ok(place) => place,
            Err(place) => place,
        };
        self.insert(place, row, rows);
    }

    // Takes out the row of this name.
    pub(crate) fn take(&mut self, id: &str, label: &str) -> Option<Row<A>>
        ensures at { self.new.at ≡ self.old.at }
        ensures some { IfSome result (λ row. Adds row self.new.rows self.old.rows
            × ((name_of row) ≡ record { id = id.now; label = label.now })) }
        ensures none { IfNone result (self.new ≡ self.old) }
        ensures absent { IfNone result (NamesRise self.old.rows
            → All (λ (r : Row A). (name_of r) ≡ record { id = id.now; label = label.now } → ⊥) self.old.rows) }
        ensures named { NamesRise self.old.rows → NamesRise self.new.rows }
    {
        match self.find(id, label) {
            Ok(i) => Some(self.remove(i)),
            Err(_) => None,
        }
    }

    // Puts a row of the key in the place of the one of its name.
    pub(crate) fn swap(&mut self, period: Period, row: Row<A>) -> Result<Row<A>, Row<A>>
        requires { self.old.at ≡ rank_of period row }
        ensures at { self.new.at ≡ self.old.at }
        ensures ok { IfOk result (λ out. Swaps out row self.old.rows self.new.rows × ((name_of out) ≡ (name_of row))) }
        ensures err { OnErr result (self.new ≡ self.old) }
        ensures absent { OnErr result (NamesRise self.old.rows → All (λ (r : Row A). (name_of r) ≡ (name_of row) → ⊥) self.old.rows) }
        ensures named { NamesRise self.old.rows → NamesRise self.new.rows }
    {
        match self.find(row.id.as_str(), row.label.text()) {
            Ok(i) => Ok(self.replace(i, period, row)),
            Err(_) => Err(row),
        }
    }
}
