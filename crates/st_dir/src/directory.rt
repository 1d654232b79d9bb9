//! The directory.
ghost use Rattle.std.specs.Prelude.{◌≡◌, IfOk, option_map};
ghost use Rattle.st_grant.specs.declared.grant.Scope.TheVariants.{OnNamespace};
ghost use Rattle.st_dir.specs.Directory.{user_named, table_named, auths_of, has_digest, has_system, has_table};
ghost use Rattle.st_dir.specs.Directory.{is_user, is_table, is_granted, first_directory};

mod first;
mod grant_changes;
mod listings;
mod table_changes;
mod user_changes;

use crate::directory::first::{first_grants, first_tables, first_users};
use crate::table::TableInfo;
use crate::tables::Tables;
use crate::user::User;
use crate::users::Users;
use st_auth::Auths;
use st_grant::{Grants, Name, Permission, Scope, TableName};
use st_key::Period;
use std::alloc::{AllocError, Allocator, Global};
use std::marker::Model;

/// The users, the tables and the grants, each in a list sorted by key.
#[derive(Drop)]
pub struct Directory<A: Allocator = Global> {
    alloc: A,
    users: Users<A>,
    tables: Tables<A>,
    grants: Grants<A>,
    // The authorizations of a name that is not a user: none.
    nobody: Auths<A>,
}

impl<A: Allocator> Model for Directory<A> {
    ghost use Rattle.std.specs.Prelude.{◌≡◌, []};
    ghost use Rattle.st_dir.specs.Directory.{Directory as Lists};

    ghost Value = { Lists A };

    ghost view = { λ d. record { users = d.users; tables = d.tables; grants = d.grants } };

    ghost invariant = { λ d. d.nobody ≡ [] };
}

impl<A: Allocator + Copy> Directory<A> {
    /// The directory that a server begins with: the user root with this digest of its secret, these
    /// authorizations and each permission on the system, and the table points, created by
    /// root. `AllocError` when out of memory.
    pub fn new(alloc: A, digest: [u8; 32], auths: Auths<A>) -> Result<Directory<A>, AllocError>
        ensures { IfOk result (λ directory. directory ≡ first_directory digest auths) }
    {
        Ok(Directory {
            alloc,
            users: first_users(alloc, digest, auths)?,
            tables: first_tables(alloc)?,
            grants: first_grants(alloc)?,
            nobody: Auths::none(alloc),
        })
    }
}

impl<A: Allocator> Directory<A> {
    // The user of this name.
    fn user(&self, name: &str) -> Option<&User<A>>
        ensures { option_map (λ user. user.now) result ≡ user_named self.now name.now }
    {
        self.users.get(name)
    }

    // The table of this name.
    fn table(&self, name: &str) -> Option<&TableInfo>
        ensures { option_map (λ info. info.now) result ≡ table_named self.now name.now }
    {
        self.tables.get(name)
    }

    /// Whether there is a user of this name, and this is the digest of the user's secret.
    pub fn authenticate(&self, name: &str, digest: &[u8; 32]) -> bool
        ensures { result ≡ has_digest self.now name.now digest.now }
    {
        match self.user(name) {
            Some(user) => user.digest == *digest,
            None => false,
        }
    }

    /// The authorizations of the user of this name, none if there is no such user.
    pub fn auths_of(&self, name: &str) -> &Auths<A>
        ensures { result.now ≡ auths_of self.now name.now }
    {
        match self.user(name) {
            Some(user) => &user.auths,
            None => &self.nobody,
        }
    }

    /// Whether the table's visibility constraint is on, or `None` if there is no such table.
    pub fn constraint_of(&self, table: &TableName) -> Option<bool>
        ensures { result ≡ option_map (λ info. info.constraint) (table_named self.now table.now) }
    {
        match self.table(table.as_str()) {
            Some(info) => Some(info.constraint),
            None => None,
        }
    }

    /// Whether the user has the permission on the system.
    pub fn holds_system(&self, user: &str, permission: Permission) -> bool
        ensures { result ≡ has_system self.now user.now permission }
    {
        match self.user(user) {
            Some(user) => user.permissions.has(permission),
            None => false,
        }
    }

    /// Whether there is a user of this name.
    pub fn has_user(&self, name: &str) -> bool
        ensures { result ≡ is_user self.now name.now }
    {
        self.user(name).is_some()
    }

    /// Whether there is a table of this name.
    pub fn has_table(&self, table: &TableName) -> bool
        ensures { result ≡ is_table self.now table.now }
    {
        self.table(table.as_str()).is_some()
    }

    /// The length of the table's time bins, or `None` if there is no such table.
    pub fn period_of(&self, table: &TableName) -> Option<Period>
        ensures { result ≡ option_map (λ info. info.period) (table_named self.now table.now) }
    {
        match self.table(table.as_str()) {
            Some(info) => Some(info.period),
            None => None,
        }
    }

    /// Whether the user has the permission on the table, by a grant on the table or on its namespace.
    pub fn holds_table(&self, user: &str, table: &TableName, permission: Permission) -> bool
        ensures { result ≡ has_table self.now user.now table.now permission }
    {
        let on_table = Scope::OnTable(table.copy());
        if self.grants.has(user, &on_table, permission) {
            return true;
        }
        match table.namespace() {
            Some(namespace) => self.holds_namespace(user, &namespace, permission),
            None => false,
        }
    }

    /// Whether the user has been granted the permission on the namespace itself.
    pub fn holds_namespace(&self, user: &str, namespace: &Name, permission: Permission) -> bool
        ensures { result ≡ is_granted self.now user.now (OnNamespace namespace.now) permission }
    {
        let on_namespace = Scope::OnNamespace(namespace.copy());
        self.grants.has(user, &on_namespace, permission)
    }
}
