//! The grants.
ghost use Rattle.std.specs.Prelude.{◌≡◌, ◌<◌, ◌≤◌, ◌+◌, [], filter, map, not, length, IfOk, IsOk, OnOk, OnErr};
ghost use Rattle.std.specs.List.{list_any, fold};
ghost use Rattle.std.specs.Vec.{vec_len, vec_capacity};
ghost use Rattle.st_text.specs.Texts.{same, set_of};
ghost use Rattle.st_grant.specs.Grants.{grant_of, same_grant, same_scope, with_all, with_grant};
ghost use Rattle.st_grant.specs.Order.{grant_key};
ghost use Rattle.st_grant.specs.Permissions.{table_permissions};
ghost use Rattle.st_sorted.specs.Sorted.{Rises};
ghost use Rattle.st_grant.specs.declared.grant.Grant as Declared;

use crate::grant::{Grant, Scope};
use crate::name::Name;
use crate::permission::Permission;
use crate::user_names::granted_on;
use crate::wanted_grant::WantedGrant;
use st_sorted::{has, place_of, remove};
use st_text::Items;
use std::alloc::{AllocError, Allocator, Global};
use std::marker::Model;

// The permissions on a table, in listing order.
pub(crate) const TABLE_PERMISSIONS: [Permission; 5] = [
    Permission::Read,
    Permission::Write,
    Permission::AlterTable,
    Permission::Grant,
    Permission::DropTable,
];

/// The grants, sorted by what they are on, by their users and by their permissions.
#[derive(Drop)]
pub struct Grants<A: Allocator = Global> {
    grants: Vec<Grant, A>,
}

impl<A: Allocator> Model for Grants<A> {
    ghost use Rattle.std.specs.Prelude.{List};
    ghost use Rattle.st_grant.specs.Order.{grant_key};
    ghost use Rattle.st_sorted.specs.Sorted.{Rises};
    ghost use Rattle.st_grant.specs.declared.grant.Grant.{Grant};

    ghost Value = { List Grant };

    ghost view = { λ g. g.grants.items };

    ghost invariant = { λ g. Rises grant_key g.grants.items };
}

// Puts in a grant, unless it is held. It succeeds if there is room.
fn put<A: Allocator>(grants: &mut Vec<Grant, A>, grant: Grant) -> Result<(), AllocError>
    requires { Rises grant_key grants.old.items }
    ensures ok { OnOk result (grants.new.items ≡ with_grant grant grants.old.items) }
    ensures err { OnErr result (grants.new.items ≡ grants.old.items) }
    ensures sorted { Rises grant_key grants.new.items }
    ensures room { vec_len grants.old < vec_capacity grants.old → IsOk result }
    ensures len { vec_len grants.new ≤ vec_len grants.old + 1 }
    ensures capacity { vec_capacity grants.old ≤ vec_capacity grants.new }
{
    if has(grants, &grant) {
        return Ok(());
    }
    let place = place_of(grants, &grant);
    let Ok(()) = grants.insert(place, grant) else {
        return Err(AllocError);
    };
    Ok(())
}

// Puts in the grants of these permissions, for which there is room.
fn put_each<A: Allocator>(
    grants: &mut Vec<Grant, A>,
    user: &Name,
    scope: &Scope,
    permissions: &[Permission],
)
    requires sorted { Rises grant_key grants.old.items }
    requires room { vec_len grants.old + length permissions.now ≤ vec_capacity grants.old }
    ensures items { grants.new.items
        ≡ fold (λ held p. with_grant (grant_of user.now scope.now p) held) grants.old.items permissions.now }
    ensures sorted { Rises grant_key grants.new.items }
{
    for permission in permissions {
        let grant = Grant {
            user: user.copy(),
            scope: scope.copy(),
            permission: *permission,
        };
        let Ok(()) = put(grants, grant) else {
            unreachable!()
        };
    }
}

impl<A: Allocator> Grants<A> {
    /// Whether the user has been granted the permission on the scope itself.
    pub fn has(&self, user: &str, scope: &Scope, permission: Permission) -> bool
        ensures { result ≡ list_any (same_grant (grant_of user.now scope.now permission)) self.now }
    {
        let wanted = WantedGrant {
            user,
            scope,
            permission,
        };
        has(&self.grants, &wanted)
    }

    /// Puts in a grant, unless it is held. `AllocError` when out of memory; the grants are then
    /// unchanged.
    pub fn add(&mut self, grant: Grant) -> Result<(), AllocError>
        ensures ok { OnOk result (self.new ≡ with_grant grant self.old) }
        ensures err { OnErr result (self.new ≡ self.old) }
    {
        put(&mut self.grants, grant)
    }

    /// Puts in each table permission for the user on the scope. `AllocError` when out of memory; the
    /// grants are then unchanged.
    pub fn add_all(&mut self, user: &Name, scope: &Scope) -> Result<(), AllocError>
        ensures ok { OnOk result (self.new ≡ with_all user.now scope.now self.old) }
        ensures err { OnErr result (self.new ≡ self.old) }
    {
        self.grants.reserve(TABLE_PERMISSIONS.len())?;
        put_each(&mut self.grants, user, scope, &TABLE_PERMISSIONS);
        Ok(())
    }

    /// Takes out a grant, if it is held.
    pub fn remove(&mut self, user: &str, scope: &Scope, permission: Permission)
        ensures { self.new ≡ filter (λ g. not (same_grant (grant_of user.now scope.now permission) g)) self.old }
    {
        let wanted = WantedGrant {
            user,
            scope,
            permission,
        };
        remove(&mut self.grants, &wanted);
    }

    /// Takes out every grant to the user.
    pub fn remove_user(&mut self, name: &str)
        ensures { self.new ≡ filter (λ g. not (same g.user name.now)) self.old }
    {
        self.grants.retain(|grant| !grant.user.is(name));
    }

    /// Takes out every grant on the scope itself.
    pub fn remove_scope(&mut self, scope: &Scope)
        ensures { self.new ≡ filter (λ g. not (same_scope scope.now g.scope)) self.old }
    {
        self.grants.retain(|grant| !scope.is_same(&grant.scope));
    }
}

impl<A: Allocator + Copy> Grants<A> {
    /// No grants.
    pub fn new(alloc: A) -> Grants<A>
        ensures { result ≡ [] }
    {
        Grants {
            grants: Vec::new(alloc),
        }
    }

    /// The users who have been granted something on the scope itself, by the bytes of their names,
    /// each once. `AllocError` when out of memory.
    pub fn users_on(&self, alloc: A, scope: &Scope) -> Result<Items<Name, A>, AllocError>
        ensures { IfOk result (λ names. names ≡ set_of (map (λ g. g.user) (filter (λ g. same_scope scope.now g.scope) self.now))) }
    {
        granted_on(alloc, &self.grants, scope)
    }

    // Those of these table permissions that the user has been granted on the scope itself.
    fn held_of(
        &self,
        alloc: A,
        user: &Name,
        scope: &Scope,
        all: &[Permission; 5],
    ) -> Result<Items<Permission, A>, AllocError>
        ensures { IfOk result (λ list. list ≡ filter (λ p. list_any (same_grant (grant_of user.now scope.now p)) self.now) all.now) }
    {
        let mut list = Items::new(alloc);
        for permission in all {
            if self.has(user.as_str(), scope, *permission) {
                list.push(*permission)?;
            }
        }
        Ok(list)
    }

    /// The table permissions that the user has been granted on the scope itself, in listing order.
    /// `AllocError` when out of memory.
    pub fn held_on(
        &self,
        alloc: A,
        user: &Name,
        scope: &Scope,
    ) -> Result<Items<Permission, A>, AllocError>
        ensures { IfOk result (λ list. list
            ≡ filter (λ p. list_any (same_grant (grant_of user.now scope.now p)) self.now) table_permissions) }
    {
        self.held_of(alloc, user, scope, &TABLE_PERMISSIONS)
    }

    /// Equal grants. `AllocError` when out of memory.
    pub fn copy(&self, alloc: A) -> Result<Grants<A>, AllocError>
        ensures { IfOk result (λ grants. grants ≡ self.now) }
    {
        Ok(Grants {
            grants: copies(alloc, &self.grants)?,
        })
    }
}

// Equal grants, in order. `AllocError` when out of memory.
fn copies<A: Allocator + Copy>(alloc: A, grants: &[Grant]) -> Result<Vec<Grant, A>, AllocError>
    ensures { IfOk result (λ copies. copies.items ≡ grants.now) }
{
    let mut copies = Vec::new(alloc);
    for grant in grants {
        copies.push(grant.copy())?;
    }
    Ok(copies)
}
