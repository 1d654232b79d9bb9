//! The tables.
ghost use Rattle.std.specs.Prelude.{◌≡◌, ◌∷◌, [], None, find, filter, not, option_map, IfOk, OnOk, OnErr};
ghost use Rattle.st_text.specs.Texts.{same, in_order};
ghost use Rattle.st_dir.specs.Changes.{with_table};
ghost use Rattle.st_dir.specs.Order.{table_key};
ghost use Rattle.st_sorted.specs.Sorted.{Rises};
ghost use Rattle.st_dir.specs.declared.table.TableInfo as Declared;

use crate::table::TableInfo;
use st_grant::Named;
use st_key::Period;
use st_sorted::{get, place_of, position, remove};
use st_text::Items;
use std::alloc::{AllocError, Allocator, Global};
use std::marker::Model;

/// The tables, sorted by the bytes of their names.
#[derive(Drop)]
pub struct Tables<A: Allocator = Global> {
    tables: Vec<TableInfo, A>,
}

impl<A: Allocator> Model for Tables<A> {
    ghost use Rattle.std.specs.Prelude.{List};
    ghost use Rattle.st_dir.specs.Order.{table_key};
    ghost use Rattle.st_sorted.specs.Sorted.{Rises};
    ghost use Rattle.st_dir.specs.declared.table.TableInfo.{TableInfo};

    ghost Value = { List TableInfo };

    ghost view = { λ u. u.tables.items };

    ghost invariant = { λ u. Rises table_key u.tables.items };
}

impl<A: Allocator> Tables<A> {
    /// The table of this name.
    pub fn get(&self, name: &str) -> Option<&TableInfo>
        ensures { option_map (λ info. info.now) result ≡ find (λ info. same info.table name.now) self.now }
    {
        get(&self.tables, &Named(name))
    }

    /// Takes out the table of this name, if there is one.
    pub fn remove(&mut self, name: &str)
        ensures { self.new ≡ filter (λ info. not (same info.table name.now)) self.old }
    {
        remove(&mut self.tables, &Named(name));
    }

    /// Turns the constraint of the table of this name, if there is one, on or off.
    pub fn set_constraint(&mut self, name: &str, on: bool)
        ensures { self.new ≡ with_table name.now (λ info. record info { constraint = on }) self.old }
    {
        match position(&self.tables, &Named(name)) {
            Some(place) => self.tables[place].constraint = on,
            None => {}
        }
    }

    /// Gives the table of this name, if there is one, another period.
    pub fn set_period(&mut self, name: &str, period: Period)
        ensures { self.new ≡ with_table name.now (λ info. record info { period = period }) self.old }
    {
        match position(&self.tables, &Named(name)) {
            Some(place) => self.tables[place].period = period,
            None => {}
        }
    }
}

impl<A: Allocator + Copy> Tables<A> {
    /// No tables.
    pub fn new(alloc: A) -> Tables<A>
        ensures { result ≡ [] }
    {
        Tables {
            tables: Vec::new(alloc),
        }
    }

    /// Puts in a table whose name is new. `AllocError` when out of memory; the tables are then unchanged.
    pub fn add(&mut self, info: TableInfo) -> Result<(), AllocError>
        requires { find (λ other. same other.table info.table) self.old ≡ None }
        ensures ok { OnOk result (self.new ≡ in_order table_key (info ∷ self.old)) }
        ensures back { OnOk result (filter (λ other. not (same other.table info.table)) self.new ≡ self.old) }
        ensures err { OnErr result (self.new ≡ self.old) }
    {
        let place = place_of(&self.tables, &Named(info.table.as_str()));
        let Ok(()) = self.tables.insert(place, info) else {
            return Err(AllocError);
        };
        Ok(())
    }
}

// Equal tables, in order. `AllocError` when out of memory.
fn copies<A: Allocator + Copy>(
    alloc: A,
    tables: &[TableInfo],
) -> Result<Vec<TableInfo, A>, AllocError>
    ensures { IfOk result (λ copies. copies.items ≡ tables.now) }
{
    let mut copies = Vec::new(alloc);
    for info in tables {
        copies.push(info.copy())?;
    }
    Ok(copies)
}

impl<A: Allocator + Copy> Tables<A> {
    /// The tables as a list, in byte order of their names. `AllocError` when out of memory.
    pub fn list(&self, alloc: A) -> Result<Items<TableInfo, A>, AllocError>
        ensures { IfOk result (λ list. list ≡ in_order table_key self.now) }
    {
        let copies = copies(alloc, &self.tables)?;
        Ok(Items::from_vec(copies))
    }

    /// Equal tables. `AllocError` when out of memory.
    pub fn copy(&self, alloc: A) -> Result<Tables<A>, AllocError>
        ensures { IfOk result (λ tables. tables ≡ self.now) }
    {
        Ok(Tables {
            tables: copies(alloc, &self.tables)?,
        })
    }
}
