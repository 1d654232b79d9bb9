//! Changes of tables.
ghost use Rattle.std.specs.Prelude.{◌≡◌, true, false, Err, IfErr, IsOk, OnOk, OnErr};
ghost use Rattle.st_dir.specs.Changes.{table_added, table_dropped, constraint_set, period_set};
ghost use Rattle.st_dir.specs.Directory.{is_user, is_table};
ghost use Rattle.st_dir.specs.declared.fault.DirectoryFault.TheVariants.{NoUser, NoTable, TableExists, NoMemory};

use crate::directory::Directory;
use crate::fault::DirectoryFault;
use crate::table::TableInfo;
use st_grant::{Name, Scope, TableName};
use st_key::Period;
use std::alloc::Allocator;

impl<A: Allocator + Copy> Directory<A> {
    /// Creates a table without a constraint, on which its creator has each table permission. `NoUser`,
    /// if the creator is not a user, comes before `TableExists`, and that before `NoMemory`. An error
    /// leaves the directory unchanged.
    pub fn create_table(
        &mut self,
        table: &TableName,
        creator: &Name,
        period: Period,
    ) -> Result<(), DirectoryFault>
        ensures no_user { is_user self.old creator.now ≡ false → result ≡ Err NoUser }
        ensures exists { is_user self.old creator.now ≡ true → is_table self.old table.now ≡ true → result ≡ Err TableExists }
        ensures fault { is_user self.old creator.now ≡ true → is_table self.old table.now ≡ false
            → IfErr result (λ fault. fault ≡ NoMemory) }
        ensures ok { OnOk result (self.new ≡ table_added table.now creator.now period self.old) }
        ensures err { OnErr result (self.new ≡ self.old) }
    {
        if !self.has_user(creator.as_str()) {
            return Err(DirectoryFault::NoUser);
        }
        if self.has_table(table) {
            return Err(DirectoryFault::TableExists);
        }
        let made = TableInfo {
            table: table.copy(),
            constraint: false,
            period,
        };
        let Ok(()) = self.tables.add(made) else {
            return Err(DirectoryFault::NoMemory);
        };
        let scope = Scope::OnTable(table.copy());
        match self.grants.add_all(creator, &scope) {
            Ok(()) => Ok(()),
            Err(_) => {
                self.tables.remove(table.as_str());
                Err(DirectoryFault::NoMemory)
            }
        }
    }
}

impl<A: Allocator> Directory<A> {
    /// Removes a table and every grant on it; `NoTable` if there is none. Grants on its namespace
    /// stay. A table of the same name created later has none of the old grants.
    pub fn drop_table(&mut self, table: &TableName) -> Result<(), DirectoryFault>
        ensures no_table { is_table self.old table.now ≡ false → result ≡ Err NoTable }
        ensures there { is_table self.old table.now ≡ true → IsOk result }
        ensures ok { OnOk result (self.new ≡ table_dropped table.now self.old) }
        ensures err { OnErr result (self.new ≡ self.old) }
    {
        if !self.has_table(table) {
            return Err(DirectoryFault::NoTable);
        }
        self.tables.remove(table.as_str());
        self.grants.remove_scope(&Scope::OnTable(table.copy()));
        Ok(())
    }

    /// Turns the table's visibility constraint on or off; `NoTable` if there is none.
    pub fn set_constraint(&mut self, table: &TableName, on: bool) -> Result<(), DirectoryFault>
        ensures no_table { is_table self.old table.now ≡ false → result ≡ Err NoTable }
        ensures there { is_table self.old table.now ≡ true → IsOk result }
        ensures ok { OnOk result (self.new ≡ constraint_set table.now on self.old) }
        ensures err { OnErr result (self.new ≡ self.old) }
    {
        if !self.has_table(table) {
            return Err(DirectoryFault::NoTable);
        }
        self.tables.set_constraint(table.as_str(), on);
        Ok(())
    }

    /// Gives the table another length of time bins; `NoTable` if there is none.
    pub fn set_period(&mut self, table: &TableName, period: Period) -> Result<(), DirectoryFault>
        ensures no_table { is_table self.old table.now ≡ false → result ≡ Err NoTable }
        ensures there { is_table self.old table.now ≡ true → IsOk result }
        ensures ok { OnOk result (self.new ≡ period_set table.now period self.old) }
        ensures err { OnErr result (self.new ≡ self.old) }
    {
        if !self.has_table(table) {
            return Err(DirectoryFault::NoTable);
        }
        self.tables.set_period(table.as_str(), period);
        Ok(())
    }
}
