//! Tables.
ghost use Rattle.std.specs.Prelude.{◌≡◌, ◌↔◌, ◌^◌, ◌<◌, ◌≤◌, ◌⊎◌, [], length, map, nat_lt, option_copied, option_map, take, OnOk};
ghost use Rattle.std.specs.Prelude.{OnErr, IsOk, IfOk, IfErr, IfSome};
ghost use Rattle.st_key.specs.declared.period.Period.{Period};
ghost use Rattle.st_key.specs.Key.{rank};
ghost use Rattle.st_text.specs.Texts.{in_order};
ghost use Rattle.st_index.specs.Order.{InScanOrder, scan_key};
ghost use Rattle.st_index.specs.RowViews.{row_of_view};
ghost use Rattle.st_index.specs.inner.Entries.{name_of};
ghost use Rattle.st_scan.specs.Grids.{grid_of};
ghost use Rattle.st_scan.specs.inner.Pages.{visible_after};
ghost use Rattle.st_scan.specs.Visible.{is_visible, visible_rows};
ghost use Rattle.st_scan.specs.declared.fault.ScanFault.TheVariants.{BadGrid, BadLimit};
ghost use Rattle.st_table.specs.Table.{rows_by_label, with_row, without_named};
ghost use Rattle.st_table.specs.inner.Once.{HasEachOnce};
ghost use Rattle.st_table.specs.inner.Found.{IsFound};
ghost use Rattle.st_table.specs.inner.Places.{IsTied, name_hash, number_at, place_of};

use crate::lookup::{self, find, key_at};
use crate::moving::copy_rows;
use crate::own_name::OwnName;
use crate::places::{Places, Stand};
use crate::seed::Seed;
use st_auth::Auths;
use st_box::Query;
use st_index::{AsRow, RowIndex, RowView, order};
use st_key::{Key, Period, Place};
use st_scan::{Page, ScanFault};
use std::alloc::{AllocError, Allocator};
use std::cmp::Ordering;
use std::marker::Model;

/// The rows of one table.
#[derive(Drop)]
pub struct Table<I: RowIndex> {
    index: I,
    places: Places<I::Alloc>,
}

impl<I: RowIndex> Model for Table<I> {
    ghost use Rattle.st_table.specs.Table.{TableValue};
    ghost use Rattle.st_table.specs.inner.Once.{HasEachOnce};
    ghost use Rattle.st_table.specs.inner.Places.{IsTied};

    ghost Value = { TableValue I.Alloc };

    ghost view = { λ t. record { period = I.period_of t.index; rows = I.content t.index } };

    ghost invariant = { λ t. IsTied t.places.seed (I.period_of t.index) t.places.numbers (I.content t.index)
        × HasEachOnce (I.content t.index) };
}

// Puts a row into an index in place of the one of its name, which stands at this key, if there is one.
fn put_at<I: RowIndex>(index: &mut I, before: Option<Key>, row: I::Row, spare: I::Spare)
    requires room { I.has_room index.old (I.Row.value row) spare }
    requires found { IsFound (I.period_of index.old) before (name_of (I.Row.value row)) (I.content index.old) }
    ensures rows { I.content index.new ≡ with_row (I.period_of index.old) (I.Row.value row) (I.content index.old) }
    ensures period { I.period_of index.new ≡ I.period_of index.old }
{
    let Some(old) = before else {
        index.insert(row, spare);
        return;
    };
    let key = row.as_row().key(index.period());
    match order::compare(old, key) {
        Ordering::Equal => {
            let _ = index.replace(row);
        }
        _ => {
            let name = OwnName::of(row.as_row());
            index.insert(row, spare);
            let _ = index.remove(old, name.id.as_str(), name.label.as_str());
        }
    }
}

// Takes the row of a name, which has this hash, out of an index, and gives where it stood. It takes no memory.
fn take_out<I: RowIndex>(
    index: &mut I,
    places: &Places<I::Alloc>,
    hash: u64,
    id: &str,
    label: &str,
) -> Option<Stand>
    requires hash { hash ≡ name_hash places.now.seed id.now label.now }
    requires hash_in_range { hash < 2 ^ 47 }
    requires tied { IsTied places.now.seed (I.period_of index.old) places.now.numbers (I.content index.old) }
    requires once { HasEachOnce (I.content index.old) }
    ensures found { IsFound (I.period_of index.old) (option_map (λ stand. stand.key) result)
        (record { id = id.now; label = label.now }) (I.content index.old) }
    ensures held { IfSome result (λ stand. 0 < number_at places.now.numbers (place_of hash (rank stand.key))) }
    ensures number { IfSome result (λ stand. stand.number ≡ number_at places.now.numbers (place_of hash (rank stand.key))) }
    ensures rows { I.content index.new ≡ without_named id.now label.now (I.content index.old) }
    ensures period { I.period_of index.new ≡ I.period_of index.old }
{
    let mut from = 0;
    'keys: while let Some((found, number)) = places.next(hash, from) {
        let key = key_at(found);
        if index.remove(key, id, label).is_some() {
            return Some(Stand { key, number });
        }
        from = found + 1;
    }
    None
}

impl<I: RowIndex + Drop> Table<I> {
    /// A table over an index of no rows, or an error if memory runs out. The seed is that of the hashes of names.
    pub fn new(alloc: I::Alloc, seed: Seed, index: I) -> Result<Table<I>, AllocError>
        requires { I.content index ≡ [] }
        ensures { IfOk result (λ table. table ≡ record { period = I.period_of index; rows = [] }) }
    {
        Ok(Table {
            index,
            places: Places::new(alloc, seed),
        })
    }

    /// An equal table, or an error if memory runs out.
    pub fn copy(&self) -> Result<Table<I>, AllocError>
        ensures { IfOk result (λ table. table ≡ self.now) }
    {
        let index = self.index.copy()?;
        let places = self.places.copy()?;
        Ok(Table { index, places })
    }

    /// Moves the rows into an index of no rows, whose period becomes the table's. If memory runs out, nothing is changed.
    pub fn rebuild(&mut self, index: I) -> Result<(), AllocError>
        requires { I.content index ≡ [] }
        ensures ok { OnOk result (self.new
            ≡ record { period = I.period_of index; rows = in_order (scan_key (I.period_of index)) self.old.rows }) }
        ensures err { OnErr result (self.new ≡ self.old) }
    {
        let alloc = self.places.alloc();
        let mut table = Table::new(alloc, self.places.seed(), index)?;
        copy_rows(alloc, &self.index, &mut table)?;
        *self = table;
        Ok(())
    }
}

impl<I: RowIndex> Table<I> {
    /// The period of the table's keys.
    pub fn period(&self) -> Period
        ensures value { result ≡ self.now.period }
        ensures in_order { InScanOrder self.now.period self.now.rows }
        ensures each_once { HasEachOnce self.now.rows }
    {
        self.index.period()
    }

    /// Puts a row in place of the row of its id and its label's text, wherever that one stands. If memory runs out, nothing is
    /// changed.
    pub fn put(&mut self, row: I::Row) -> Result<(), AllocError>
        ensures ok { OnOk result (self.new ≡ record self.old { rows = with_row self.old.period (I.Row.value row) self.old.rows }) }
        ensures err { OnErr result (self.new ≡ self.old) }
    {
        let own = row.as_row();
        let key = own.key(self.index.period());
        let spare = self.index.prepare(own)?;
        let (id, label) = (own.id.as_str(), own.label.text());
        let hash = self.places.seed().name_hash(id, label);
        let before = find(&self.index, &self.places, hash, id, label);
        self.places.put(hash, before, key)?;
        put_at(&mut self.index, before, row, spare);
        Ok(())
    }

    /// Takes out the row of this id and this label's text, if there is one. It takes no memory.
    pub fn delete(&mut self, id: &str, label: &str)
        ensures { self.new ≡ record self.old { rows = without_named id.now label.now self.old.rows } }
    {
        let hash = self.places.seed().name_hash(id, label);
        let Some(stand) = take_out(&mut self.index, &self.places, hash, id, label) else {
            return;
        };
        self.places.delete(hash, stand);
    }

    /// The rows of an id whose labels the authorizations satisfy, by the bytes of their labels. An error if memory runs out.
    pub fn get<B: Allocator>(
        &self,
        id: &str,
        auths: &Auths<B>,
    ) -> Result<Vec<RowView<'_, I::Alloc>, I::Alloc>, AllocError>
        ensures { IfOk result (λ rows. map row_of_view rows.items ≡ rows_by_label id.now (is_visible auths.now) self.now.rows) }
    {
        lookup::rows_by_label(&self.index, &self.places, id, auths)
    }

    /// How many rows are inside the query and have a label that the authorizations satisfy.
    pub fn count<B: Allocator>(&self, query: &Query, auths: &Auths<B>) -> u64
        ensures { result ≡ length (visible_rows query.now auths.now self.now.rows) }
    {
        st_scan::count(self.places.alloc(), &self.index, query, auths)
    }

    /// The first rows, at most `limit` of them, that are inside the query, have a label that the authorizations satisfy, and come
    /// after a place, if one is given; and whether more follow. The place need name no row. `BadLimit` where the limit is not 1 to
    /// 1,000.
    pub fn page<B: Allocator, C: Allocator + Copy>(
        &self,
        query: &Query,
        auths: &Auths<B>,
        after: Option<&Place<C>>,
        limit: usize,
    ) -> Result<Page<'_, I::Alloc>, ScanFault>
        ensures rows { IfOk result (λ page. map row_of_view page.rows.items
            ≡ take limit (visible_after self.now.period query.now auths.now (option_copied after.entry) self.now.rows)) }
        ensures more { IfOk result (λ page. page.more
            ≡ nat_lt limit (length (visible_after self.now.period query.now auths.now (option_copied after.entry) self.now.rows))) }
        ensures limit { IsOk result → (1 ≤ limit) × (limit ≤ 1000) }
        ensures bad_limit { IfErr result (λ fault. fault ≡ BadLimit ↔ ((limit ≡ 0) ⊎ (1000 < limit))) }
        ensures no_grid { IfErr result (λ fault. fault ≡ BadGrid → ⊥) }
    {
        st_scan::page(self.places.alloc(), &self.index, query, auths, after, limit)
    }

    /// How many rows that are inside the query, and have a label that the authorizations satisfy, are in each field of a grid of so many
    /// columns and lines over the query's box, line by line. `BadGrid` where there are not 1 to 32 columns and 1 to 32 lines.
    pub fn grid<B: Allocator>(
        &self,
        query: &Query,
        auths: &Auths<B>,
        columns: usize,
        lines: usize,
    ) -> Result<Vec<u64, I::Alloc>, ScanFault>
        ensures grid { IfOk result (λ grid. grid.items ≡ grid_of query.now columns lines (visible_rows query.now auths.now self.now.rows)) }
        ensures columns { IsOk result → (1 ≤ columns) × (columns ≤ 32) }
        ensures lines { IsOk result → (1 ≤ lines) × (lines ≤ 32) }
        ensures bad_grid { IfErr result (λ fault. fault ≡ BadGrid ↔ ((columns ≡ 0) ⊎ (32 < columns) ⊎ (lines ≡ 0) ⊎ (32 < lines))) }
        ensures no_limit { IfErr result (λ fault. fault ≡ BadLimit → ⊥) }
    {
        let alloc = self.places.alloc();
        st_scan::grid(alloc, &self.index, query, auths, columns, lines)
    }
}
