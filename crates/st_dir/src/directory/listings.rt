//! Listings of the directory.
ghost use Rattle.std.specs.Prelude.{◌≡◌, false, true, map, Err, IfOk, IfErr};
ghost use Rattle.st_dir.specs.Directory.{is_table};
ghost use Rattle.st_dir.specs.Listings.{who, users_of, tables_of, held_on, grants_on};
ghost use Rattle.st_dir.specs.declared.fault.DirectoryFault.TheVariants.{NoTable, NoMemory};
ghost use Rattle.st_grant.specs.declared.grant.Scope.TheVariants.{OnTable, OnNamespace};

use crate::account::Account;
use crate::directory::Directory;
use crate::fault::DirectoryFault;
use crate::grantee::Grantee;
use crate::table::TableInfo;
use st_auth::Auths;
use st_grant::{Name, Scope, TableName};
use st_text::Items;
use std::alloc::{AllocError, Allocator};

impl<A: Allocator + Copy> Directory<A> {
    /// The account of the user of this name, if there is one. `AllocError` when out of memory.
    pub fn who(&self, name: &str) -> Result<Option<Account<A>>, AllocError>
        ensures { IfOk result (λ account. account ≡ who self.now name.now) }
    {
        match self.users.get(name) {
            Some(user) => Ok(Some(user.account(self.alloc)?)),
            None => Ok(None),
        }
    }

    /// The names of the users, in byte order. `AllocError` when out of memory.
    pub fn users(&self) -> Result<Items<Name, A>, AllocError>
        ensures { IfOk result (λ names. names ≡ users_of self.now) }
    {
        self.users.names(self.alloc)
    }

    /// The tables, in byte order of their names. `AllocError` when out of memory.
    pub fn tables(&self) -> Result<Items<TableInfo, A>, AllocError>
        ensures { IfOk result (λ tables. tables ≡ tables_of self.now) }
    {
        self.tables.list(self.alloc)
    }

    // These users, each with what it has been granted on the scope itself.
    fn grantees(&self, names: &[Name], scope: &Scope) -> Result<Items<Grantee<A>, A>, AllocError>
        ensures { IfOk result (λ given. given
            ≡ map (λ user. record { user = user; permissions = held_on self.now scope.now user }) names.now) }
    {
        let mut given = Items::new(self.alloc);
        for name in names {
            given.push(Grantee {
                user: name.copy(),
                permissions: self.grants.held_on(self.alloc, name, scope)?,
            })?;
        }
        Ok(given)
    }

    // The users who have been granted something on the scope itself, each with what it has.
    fn grants_on(&self, scope: &Scope) -> Result<Items<Grantee<A>, A>, AllocError>
        ensures { IfOk result (λ given. given ≡ grants_on self.now scope.now) }
    {
        let names = self.grants.users_on(self.alloc, scope)?;
        self.grantees(names.as_slice(), scope)
    }

    /// The users who have been granted something on the table itself, in byte order,
    /// each with its permissions in listing order. `NoTable` comes before `NoMemory`.
    pub fn grants(&self, table: &TableName) -> Result<Items<Grantee<A>, A>, DirectoryFault>
        ensures no_table { is_table self.now table.now ≡ false → result ≡ Err NoTable }
        ensures fault { is_table self.now table.now ≡ true → IfErr result (λ fault. fault ≡ NoMemory) }
        ensures ok { IfOk result (λ given. given ≡ grants_on self.now (OnTable table.now)) }
    {
        if !self.has_table(table) {
            return Err(DirectoryFault::NoTable);
        }
        match self.grants_on(&Scope::OnTable(table.copy())) {
            Ok(given) => Ok(given),
            Err(_) => Err(DirectoryFault::NoMemory),
        }
    }

    /// The users who have been granted something on the namespace itself, in byte
    /// order, each with its permissions in listing order. `AllocError` when out of memory.
    pub fn namespace_grants(&self, namespace: &Name) -> Result<Items<Grantee<A>, A>, AllocError>
        ensures { IfOk result (λ given. given ≡ grants_on self.now (OnNamespace namespace.now)) }
    {
        self.grants_on(&Scope::OnNamespace(namespace.copy()))
    }

    /// An equal directory. `AllocError` when out of memory.
    pub fn copy(&self) -> Result<Directory<A>, AllocError>
        ensures { IfOk result (λ directory. directory ≡ self.now) }
    {
        Ok(Directory {
            alloc: self.alloc,
            users: self.users.copy(self.alloc)?,
            tables: self.tables.copy(self.alloc)?,
            grants: self.grants.copy(self.alloc)?,
            nobody: Auths::none(self.alloc),
        })
    }
}
