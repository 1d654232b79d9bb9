//! Permissions on the system.
ghost use Rattle.std.specs.Prelude.{◌≡◌, [], ◌∷◌, filter, not, IfOk};
ghost use Rattle.std.specs.List.{list_any};
ghost use Rattle.st_grant.specs.Permissions.{same_permission, system_permissions, listed};

use crate::permission::Permission;
use arrayvec::ArrayVec;
use st_text::Items;
use std::alloc::{AllocError, Allocator};
use std::marker::Model;

// The permissions on the system, in listing order.
pub(crate) const SYSTEM_PERMISSIONS: [Permission; 8] = [
    Permission::CreateTable,
    Permission::DropTable,
    Permission::AlterTable,
    Permission::CreateUser,
    Permission::DropUser,
    Permission::AlterUser,
    Permission::Grant,
    Permission::System,
];

/// The permissions that a user has on the system. They lie in the value itself.
#[derive(Drop)]
pub struct SystemPermissions {
    permissions: ArrayVec<Permission, 8>,
}

impl Model for SystemPermissions {
    ghost use Rattle.std.specs.Prelude.{List};
    ghost use Rattle.st_grant.specs.declared.permission.Permission.{Permission};

    ghost Value = { List Permission };

    ghost view = { λ s. s.permissions.items };
}

// Whether a permission is among these.
pub(crate) fn has_permission(permissions: &[Permission], permission: Permission) -> bool
    ensures { result ≡ list_any (same_permission permission) permissions.now }
{
    for held in permissions {
        if permission.is_same(*held) {
            return true;
        }
    }
    false
}

impl SystemPermissions {
    /// No permission.
    pub fn none() -> SystemPermissions
        ensures { result ≡ [] }
    {
        SystemPermissions {
            permissions: ArrayVec::new(),
        }
    }

    /// Each permission on the system.
    pub fn all() -> SystemPermissions
        ensures { result ≡ system_permissions }
    {
        let mut permissions = ArrayVec::new();
        for permission in SYSTEM_PERMISSIONS {
            permissions.push(permission);
        }
        SystemPermissions { permissions }
    }

    /// Whether the permission is one of them.
    pub fn has(&self, permission: Permission) -> bool
        ensures { result ≡ list_any (same_permission permission) self.now }
    {
        has_permission(self.permissions.as_slice(), permission)
    }

    // Whether a permission is among these or is the one given.
    fn is_listed_with(&self, permission: Permission, next: Permission) -> bool
        ensures { result ≡ list_any (same_permission next) (permission ∷ self.now) }
    {
        next.is_same(permission) || self.has(next)
    }

    // Those of a list that are among these or are the one given.
    fn among(&self, permission: Permission, all: &[Permission; 8]) -> SystemPermissions
        ensures { result ≡ filter (λ next. list_any (same_permission next) (permission ∷ self.now)) all.now }
    {
        let mut permissions = ArrayVec::new();
        for next in all {
            if self.is_listed_with(permission, *next) {
                permissions.push(*next);
            }
        }
        SystemPermissions { permissions }
    }

    // Those on the system that are among these or are the one given.
    pub(crate) fn with(&self, permission: Permission) -> SystemPermissions
        ensures { result ≡ listed (permission ∷ self.now) }
    {
        self.among(permission, &SYSTEM_PERMISSIONS)
    }

    // These without the one given.
    pub(crate) fn without(&self, permission: Permission) -> SystemPermissions
        ensures { result ≡ filter (λ held. not (same_permission permission held)) self.now }
    {
        let mut permissions = ArrayVec::new();
        for held in self.permissions.as_slice() {
            if !permission.is_same(*held) {
                permissions.push(*held);
            }
        }
        SystemPermissions { permissions }
    }

    /// Adds the permission, if it is one on the system.
    pub fn add(&mut self, permission: Permission)
        ensures { self.new ≡ listed (permission ∷ self.old) }
    {
        *self = self.with(permission);
    }

    /// Takes the permission out.
    pub fn remove(&mut self, permission: Permission)
        ensures { self.new ≡ filter (λ held. not (same_permission permission held)) self.old }
    {
        *self = self.without(permission);
    }

    // Those of a list that are among these. `AllocError` when out of memory.
    fn held_of<A: Allocator + Copy>(
        &self,
        alloc: A,
        all: &[Permission; 8],
    ) -> Result<Items<Permission, A>, AllocError>
        ensures { IfOk result (λ list. list ≡ filter (λ p. list_any (same_permission p) self.now) all.now) }
    {
        let mut list = Items::new(alloc);
        for permission in all {
            if self.has(*permission) {
                list.push(*permission)?;
            }
        }
        Ok(list)
    }

    /// The permissions as a list. `AllocError` when out of memory.
    pub fn listed<A: Allocator + Copy>(&self, alloc: A) -> Result<Items<Permission, A>, AllocError>
        ensures { IfOk result (λ list. list ≡ listed self.now) }
    {
        self.held_of(alloc, &SYSTEM_PERMISSIONS)
    }

    /// An equal set.
    pub fn copy(&self) -> SystemPermissions
        ensures { result ≡ self.now }
    {
        let mut permissions = ArrayVec::new();
        for held in self.permissions.as_slice() {
            permissions.push(*held);
        }
        SystemPermissions { permissions }
    }
}
