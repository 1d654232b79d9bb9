//! Changes of grants on tables and namespaces.
ghost use Rattle.std.specs.Prelude.{◌≡◌, true, false, Err, IfErr, IsOk, OnOk, OnErr};
ghost use Rattle.st_dir.specs.Changes.{granted, revoked};
ghost use Rattle.st_dir.specs.Directory.{is_user, is_table};
ghost use Rattle.st_grant.specs.Permissions.{table_permission};
ghost use Rattle.st_dir.specs.declared.fault.DirectoryFault.TheVariants.{NoUser, NoTable, NoMemory};
ghost use Rattle.st_grant.specs.declared.grant.Scope.TheVariants.{OnTable, OnNamespace};

use crate::directory::Directory;
use crate::fault::DirectoryFault;
use st_grant::{Grant, Name, Permission, Scope, TableName, TablePermission};
use std::alloc::Allocator;

impl<A: Allocator> Directory<A> {
    // Gives the user a permission on a scope.
    fn grant(
        &mut self,
        user: &Name,
        scope: Scope,
        permission: Permission,
    ) -> Result<(), DirectoryFault>
        ensures no_user { is_user self.old user.now ≡ false → result ≡ Err NoUser }
        ensures fault { is_user self.old user.now ≡ true → IfErr result (λ fault. fault ≡ NoMemory) }
        ensures ok { OnOk result (self.new ≡ granted user.now scope permission self.old) }
        ensures err { OnErr result (self.new ≡ self.old) }
    {
        if !self.has_user(user.as_str()) {
            return Err(DirectoryFault::NoUser);
        }
        let grant = Grant {
            user: user.copy(),
            scope,
            permission,
        };
        match self.grants.add(grant) {
            Ok(()) => Ok(()),
            Err(_) => Err(DirectoryFault::NoMemory),
        }
    }

    // Takes a permission on a scope from the user.
    fn revoke(
        &mut self,
        user: &Name,
        scope: Scope,
        permission: Permission,
    ) -> Result<(), DirectoryFault>
        ensures no_user { is_user self.old user.now ≡ false → result ≡ Err NoUser }
        ensures there { is_user self.old user.now ≡ true → IsOk result }
        ensures ok { OnOk result (self.new ≡ revoked user.now scope permission self.old) }
        ensures err { OnErr result (self.new ≡ self.old) }
    {
        if !self.has_user(user.as_str()) {
            return Err(DirectoryFault::NoUser);
        }
        self.grants.remove(user.as_str(), &scope, permission);
        Ok(())
    }

    /// Gives the user a permission on the table. `NoTable` comes before `NoUser`, and that before
    /// `NoMemory`. An error leaves the directory unchanged.
    pub fn grant_table(
        &mut self,
        table: &TableName,
        user: &Name,
        permission: TablePermission,
    ) -> Result<(), DirectoryFault>
        ensures no_table { is_table self.old table.now ≡ false → result ≡ Err NoTable }
        ensures no_user { is_table self.old table.now ≡ true → is_user self.old user.now ≡ false → result ≡ Err NoUser }
        ensures fault { is_table self.old table.now ≡ true → is_user self.old user.now ≡ true
            → IfErr result (λ fault. fault ≡ NoMemory) }
        ensures ok { OnOk result (self.new ≡ granted user.now (OnTable table.now) (table_permission permission) self.old) }
        ensures err { OnErr result (self.new ≡ self.old) }
    {
        if !self.has_table(table) {
            return Err(DirectoryFault::NoTable);
        }
        self.grant(user, Scope::OnTable(table.copy()), permission.permission())
    }

    /// Takes a permission on the table itself from the user; grants on its namespace stay. `NoTable`
    /// comes before `NoUser`. An error leaves the directory unchanged.
    pub fn revoke_table(
        &mut self,
        table: &TableName,
        user: &Name,
        permission: TablePermission,
    ) -> Result<(), DirectoryFault>
        ensures no_table { is_table self.old table.now ≡ false → result ≡ Err NoTable }
        ensures no_user { is_table self.old table.now ≡ true → is_user self.old user.now ≡ false → result ≡ Err NoUser }
        ensures there { is_table self.old table.now ≡ true → is_user self.old user.now ≡ true → IsOk result }
        ensures ok { OnOk result (self.new ≡ revoked user.now (OnTable table.now) (table_permission permission) self.old) }
        ensures err { OnErr result (self.new ≡ self.old) }
    {
        if !self.has_table(table) {
            return Err(DirectoryFault::NoTable);
        }
        self.revoke(user, Scope::OnTable(table.copy()), permission.permission())
    }

    /// Gives the user a permission on each table of the namespace, also on those made later. `NoUser`
    /// comes before `NoMemory`. An error leaves the directory unchanged.
    pub fn grant_namespace(
        &mut self,
        namespace: &Name,
        user: &Name,
        permission: TablePermission,
    ) -> Result<(), DirectoryFault>
        ensures no_user { is_user self.old user.now ≡ false → result ≡ Err NoUser }
        ensures fault { is_user self.old user.now ≡ true → IfErr result (λ fault. fault ≡ NoMemory) }
        ensures ok { OnOk result (self.new ≡ granted user.now (OnNamespace namespace.now) (table_permission permission) self.old) }
        ensures err { OnErr result (self.new ≡ self.old) }
    {
        let scope = Scope::OnNamespace(namespace.copy());
        self.grant(user, scope, permission.permission())
    }

    /// Takes a permission on the namespace from the user; grants on its tables stay. `NoUser` if
    /// there is no such user.
    pub fn revoke_namespace(
        &mut self,
        namespace: &Name,
        user: &Name,
        permission: TablePermission,
    ) -> Result<(), DirectoryFault>
        ensures no_user { is_user self.old user.now ≡ false → result ≡ Err NoUser }
        ensures there { is_user self.old user.now ≡ true → IsOk result }
        ensures ok { OnOk result (self.new ≡ revoked user.now (OnNamespace namespace.now) (table_permission permission) self.old) }
        ensures err { OnErr result (self.new ≡ self.old) }
    {
        let scope = Scope::OnNamespace(namespace.copy());
        self.revoke(user, scope, permission.permission())
    }
}
