//! Changes of tables and of their rows.
ghost use Rattle.std.specs.Prelude.{◌≡◌, true, false, OnOk, OnErr};
ghost use Rattle.st_dir.specs.Changes.{table_added, table_dropped, period_set};
ghost use Rattle.st_dir.specs.Directory.{is_user, is_table};
ghost use Rattle.st_table.specs.Rows.{put_row, without_row, without_table};

use crate::store::Store;
use crate::store::changing::done;
use st_dir::{Name, TableName};
use st_index::Row;
use st_key::Period;
use std::alloc::{AllocError, Allocator};

impl<A: Allocator + Copy> Store<A> {
    // Makes a table of no rows. When out of memory all stays as it was.
    pub(crate) fn create_table(
        &mut self,
        asker: &Name,
        table: &TableName,
        period: Period,
    ) -> Result<(), AllocError>
        requires known { is_user self.old.directory asker.now ≡ true }
        requires new { is_table self.old.directory table.now ≡ false }
        ensures ok { OnOk result (self.new ≡ record self.old { directory = table_added table.now asker.now period self.old.directory }) }
        ensures err { OnErr result (self.new ≡ self.old) }
    {
        self.tables.add(self.alloc, table, period)?;
        match self.directory.create_table(table, asker, period) {
            Ok(()) => Ok(()),
            Err(_) => {
                self.tables.remove(table.as_str());
                Err(AllocError)
            }
        }
    }

    // Takes away a table with its rows and the grants on it.
    pub(crate) fn drop_table(&mut self, table: &TableName) -> Result<(), AllocError>
        requires { is_table self.old.directory table.now ≡ true }
        ensures ok { OnOk result (self.new ≡ record self.old {
          directory = table_dropped table.now self.old.directory;
          rows = without_table table.now self.old.rows;
        }) }
        ensures err { OnErr result (self.new ≡ self.old) }
    {
        self.tables.remove(table.as_str());
        done(self.directory.drop_table(table))
    }

    // Keeps a table's rows by the keys of another period. When out of memory all stays as it was.
    pub(crate) fn set_period(&mut self, table: &TableName, period: Period) -> Result<(), AllocError>
        requires { is_table self.old.directory table.now ≡ true }
        ensures ok { OnOk result (self.new ≡ record self.old { directory = period_set table.now period self.old.directory }) }
        ensures err { OnErr result (self.new ≡ self.old) }
    {
        self.tables.rebuild(self.alloc, table.as_str(), period)?;
        done(self.directory.set_period(table, period))
    }

    // Puts a row into a table. When out of memory all stays as it was.
    pub(crate) fn put(&mut self, table: &TableName, row: &Row<A>) -> Result<(), AllocError>
        requires { is_table self.old.directory table.now ≡ true }
        ensures ok { OnOk result (self.new ≡ record self.old {
          rows = put_row (record { table = table.now; row = row.now }) self.old.rows;
        }) }
        ensures err { OnErr result (self.new ≡ self.old) }
    {
        self.tables.put(table.as_str(), row)
    }

    // Takes out a table's row of this id and this label's text, if there is one.
    pub(crate) fn delete(&mut self, table: &TableName, id: &str, label: &str)
        requires { is_table self.old.directory table.now ≡ true }
        ensures { self.new ≡ record self.old { rows = without_row table.now id.now label.now self.old.rows } }
    {
        self.tables.delete(table.as_str(), id, label);
    }
}
