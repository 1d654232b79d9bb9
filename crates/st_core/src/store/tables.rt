//! The tables of a store, each with its rows.
ghost use Rattle.std.specs.Prelude.{◌≡◌, ◌≤◌, ◌<◌, ◌∷◌, [], None, true, Bool, filter, is_some, length, slice_index_or};
ghost use Rattle.std.specs.Prelude.{IfOk, OnOk, OnErr};
ghost use Rattle.st_text.specs.Texts.{Text, comes_before, in_order};
ghost use Rattle.st_dir.specs.Sorted.{Rises};
ghost use Rattle.st_dir.specs.inner.Places.{IsPlace, IsAlone};
ghost use Rattle.st_index.specs.Order.{InScanOrder, scan_key};
ghost use Rattle.st_index.specs.declared.row.Row.{Row as Labelled};
ghost use Rattle.st_table.specs.Rows.{put_row, rows_in_table, without_row};
ghost use Rattle.st_table.specs.Table.{rows_by_label, with_row, without_named};
ghost use Rattle.st_table.specs.inner.Once.{HasEachOnce};
ghost use Rattle.st_core.specs.inner.Tables.{heading_key, heading_named, headings_with, is_of, tables_without};
ghost use Rattle.st_core.specs.inner.Shelves.{heading_of, headings_in};
ghost use Rattle.st_core.specs.declared.store.tables.Shelf.{Shelf as Kept};

use st_dir::TableName;
use st_index::{Row, RowIndex};
use st_key::Period;
use st_table::{Seed, Table};
use st_ubtree::UbTree;
use std::alloc::{AllocError, Allocator, Global};
use std::marker::Model;

// A table, and its name.
#[derive(Drop)]
pub(crate) struct Shelf<A: Allocator + Copy = Global> {
    name: TableName,
    table: Table<UbTree<A>>,
}

// The tables, by the bytes of their names: finding one costs the logarithm of their number.
#[derive(Drop)]
pub(crate) struct Tables<A: Allocator + Copy = Global> {
    seed: Seed,
    shelves: Vec<Shelf<A>, A>,
}

impl<A: Allocator + Copy> Model for Tables<A> {
    ghost use Rattle.st_dir.specs.Sorted.{Rises};
    ghost use Rattle.st_core.specs.inner.Tables.{TablesValue, heading_key};
    ghost use Rattle.st_core.specs.inner.Shelves.{headings_in, tables_in};

    ghost Value = { TablesValue A };

    ghost view = { λ t. tables_in t.shelves.items };

    ghost invariant = { λ t. Rises heading_key (headings_in t.shelves.items) };
}

// How many tables' names come before this one.
fn place_of<A: Allocator + Copy>(shelves: &[Shelf<A>], name: &str) -> usize
    requires { Rises heading_key (headings_in shelves.now) }
    ensures inside { result ≤ length shelves.now }
    ensures place { IsPlace heading_key (name.now ∷ []) (headings_in shelves.now) result }
    ensures alone { IsAlone (is_of name.now) (headings_in shelves.now) result }
{
    shelves.partition_point(
        |shelf: &Shelf<A>| -> bool
            ensures { result ≡ comes_before (heading_key (heading_of shelf.now)) (name.entry.now ∷ []) }
        { comes_before_name(shelf, name) },
    )
}

// Whether the table's name comes before this one, by its bytes.
fn comes_before_name<A: Allocator + Copy>(shelf: &Shelf<A>, name: &str) -> bool
    ensures { result ≡ comes_before (heading_key (heading_of shelf.now)) (name.now ∷ []) }
{
    shelf.name.as_str() < name
}

// Where the table of this name stands.
fn position<A: Allocator + Copy>(shelves: &[Shelf<A>], name: &str) -> usize
    requires in_order { Rises heading_key (headings_in shelves.now) }
    requires there { is_some (heading_named name.now (headings_in shelves.now)) ≡ true }
    ensures inside { result < length shelves.now }
    ensures found { (d : Kept A) → is_of name.now (heading_of (slice_index_or shelves.now result d)) ≡ true }
    ensures alone { IsAlone (is_of name.now) (headings_in shelves.now) result }
{
    place_of(shelves, name)
}

impl<A: Allocator + Copy> Shelf<A> {
    // A table of no rows.
    fn new(alloc: A, seed: Seed, name: &TableName, period: Period) -> Result<Shelf<A>, AllocError>
        ensures { IfOk result (λ shelf. shelf ≡ record { name = name.now; table = record { period = period; rows = [] } }) }
    {
        let index = UbTree::new(alloc, period)?;
        Ok(Shelf {
            name: name.copy(),
            table: Table::new(alloc, seed, index)?,
        })
    }

    // An equal table of the same name. An error when out of memory.
    fn copy(&self) -> Result<Shelf<A>, AllocError>
        ensures { IfOk result (λ shelf. shelf ≡ self.now) }
    {
        Ok(Shelf {
            name: self.name.copy(),
            table: self.table.copy()?,
        })
    }

    // The table: its rows stand in scan order, and no two of them have one name.
    fn table(&self) -> &Table<UbTree<A>>
        ensures value { result.now ≡ self.now.table }
        ensures in_order { InScanOrder self.now.table.period self.now.table.rows }
        ensures each_once { HasEachOnce self.now.table.rows }
    {
        let _ = self.table.period();
        &self.table
    }

    // Puts a copy of a row in place of the row of its name. When out of memory all stays as it was.
    fn put(&mut self, row: &Row<A>) -> Result<(), AllocError>
        ensures ok { OnOk result (self.new ≡ record self.old {
          table = record self.old.table { rows = with_row self.old.table.period row.now self.old.table.rows };
        }) }
        ensures err { OnErr result (self.new ≡ self.old) }
        ensures in_order { InScanOrder self.old.table.period self.old.table.rows }
    {
        let _ = self.table.period();
        self.table.put(row.copy()?)
    }

    // Takes out the row of this id and this label's text, if there is one.
    fn delete(&mut self, id: &str, label: &str)
        ensures { self.new ≡ record self.old {
          table = record self.old.table { rows = without_named id.now label.now self.old.table.rows };
        } }
    {
        self.table.delete(id, label);
    }

    // Keeps the rows by the keys of another period. When out of memory all stays as it was.
    fn rebuild(&mut self, alloc: A, period: Period) -> Result<(), AllocError>
        ensures ok { OnOk result (self.new ≡ record self.old {
          table = record { period = period; rows = in_order (scan_key period) self.old.table.rows };
        }) }
        ensures err { OnErr result (self.new ≡ self.old) }
        ensures each_once { HasEachOnce self.old.table.rows }
    {
        let _ = self.table.period();
        let index = UbTree::new(alloc, period)?;
        self.table.rebuild(index)
    }
}

// Equal tables, in order. An error when out of memory.
fn copies<A: Allocator + Copy>(
    alloc: A,
    shelves: &[Shelf<A>],
) -> Result<Vec<Shelf<A>, A>, AllocError>
    ensures { IfOk result (λ copies. copies.items ≡ shelves.now) }
{
    let mut copies = Vec::new(alloc);
    for shelf in shelves {
        copies.push(shelf.copy()?)?;
    }
    Ok(copies)
}

impl<A: Allocator + Copy> Tables<A> {
    // No tables.
    pub(crate) fn new(alloc: A, seed: Seed) -> Tables<A>
        ensures { result ≡ record { headings = []; rows = [] } }
    {
        Tables {
            seed,
            shelves: Vec::new(alloc),
        }
    }

    // Equal tables. An error when out of memory.
    pub(crate) fn copy(&self, alloc: A) -> Result<Tables<A>, AllocError>
        ensures { IfOk result (λ tables. tables ≡ self.now) }
    {
        Ok(Tables {
            seed: self.seed,
            shelves: copies(alloc, &self.shelves)?,
        })
    }

    // Adds a table of no rows, whose name is new. When out of memory all stays as it was.
    pub(crate) fn add(
        &mut self,
        alloc: A,
        name: &TableName,
        period: Period,
    ) -> Result<(), AllocError>
        requires { heading_named name.now self.old.headings ≡ None }
        ensures ok { OnOk result (self.new ≡ record self.old {
          headings = in_order heading_key (record { table = name.now; period = period } ∷ self.old.headings);
        }) }
        ensures back { OnOk result (tables_without name.now self.new ≡ self.old) }
        ensures err { OnErr result (self.new ≡ self.old) }
    {
        let shelf = Shelf::new(alloc, self.seed, name, period)?;
        let place = place_of(&self.shelves, name.as_str());
        let Ok(()) = self.shelves.insert(place, shelf) else {
            return Err(AllocError);
        };
        Ok(())
    }

    // Takes away the table of this name and its rows.
    pub(crate) fn remove(&mut self, name: &str)
        requires { is_some (heading_named name.now self.old.headings) ≡ true }
        ensures { self.new ≡ tables_without name.now self.old }
    {
        let place = position(&self.shelves, name);
        drop(self.shelves.remove(place));
    }

    // Keeps a table's rows by the keys of another period. When out of memory all stays as it was.
    pub(crate) fn rebuild(&mut self, alloc: A, name: &str, period: Period) -> Result<(), AllocError>
        requires { is_some (heading_named name.now self.old.headings) ≡ true }
        ensures ok { OnOk result (self.new ≡ record self.old { headings = headings_with name.now period self.old.headings }) }
        ensures err { OnErr result (self.new ≡ self.old) }
    {
        let place = position(&self.shelves, name);
        self.shelves[place].rebuild(alloc, period)
    }

    // Puts a copy of a row into the table of this name in place of the row of its id and its label's text. When out of memory all
    // stays as it was.
    pub(crate) fn put(&mut self, name: &str, row: &Row<A>) -> Result<(), AllocError>
        requires { is_some (heading_named name.now self.old.headings) ≡ true }
        ensures ok { OnOk result (self.new ≡ record self.old {
          rows = put_row (record { table = name.now; row = row.now }) self.old.rows;
        }) }
        ensures err { OnErr result (self.new ≡ self.old) }
    {
        let place = position(&self.shelves, name);
        self.shelves[place].put(row)
    }

    // Takes out the table's row of this id and this label's text, if there is one.
    pub(crate) fn delete(&mut self, name: &str, id: &str, label: &str)
        requires { is_some (heading_named name.now self.old.headings) ≡ true }
        ensures { self.new ≡ record self.old { rows = without_row name.now id.now label.now self.old.rows } }
    {
        let place = position(&self.shelves, name);
        self.shelves[place].delete(id, label);
    }

    // The table of this name. Its rows in scan order, and those of an id by their labels, are those of the table among the rows of
    // all tables.
    pub(crate) fn table(&self, name: &str) -> &Table<UbTree<A>>
        requires { is_some (heading_named name.now self.now.headings) ≡ true }
        ensures period { heading_named name.now self.now.headings ≡ Some (record { table = name.now; period = result.now.period }) }
        ensures scans { (test : Labelled A → Bool)
            → in_order (scan_key result.now.period) (filter test (rows_in_table name.now self.now.rows)) ≡ filter test result.now.rows }
        ensures gets { (id : Text) (test : Labelled A → Bool)
            → rows_by_label id test (rows_in_table name.now self.now.rows) ≡ rows_by_label id test result.now.rows }
    {
        let place = position(&self.shelves, name);
        self.shelves[place].table()
    }
}
