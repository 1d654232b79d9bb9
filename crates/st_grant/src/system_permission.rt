//! Permissions on the system.
ghost use Rattle.std.specs.Prelude.{◌≡◌, find, option_map};
ghost use Rattle.st_text.specs.Texts.{same};
ghost use Rattle.st_grant.specs.Permissions.{permission_name, system_permission, system_permission_named};

use crate::permission::Permission;

/// What a user may be granted on the system.
#[derive(Clone, Copy, PartialEq, Eq, Debug)]
pub enum SystemPermission {
    CreateTable,
    DropTable,
    AlterTable,
    CreateUser,
    DropUser,
    AlterUser,
    Grant,
    System,
}

// The permissions on the system, in listing order.
const SYSTEM_PERMISSIONS: [SystemPermission; 8] = [
    SystemPermission::CreateTable,
    SystemPermission::DropTable,
    SystemPermission::AlterTable,
    SystemPermission::CreateUser,
    SystemPermission::DropUser,
    SystemPermission::AlterUser,
    SystemPermission::Grant,
    SystemPermission::System,
];

// The permission of the list that has this name.
fn named<'a>(listed: &'a [SystemPermission], text: &str) -> Option<&'a SystemPermission>
    ensures { option_map (λ p. p.now) result ≡ find (λ p. same (permission_name (system_permission p)) text.now) listed.now }
{
    listed.iter().find(|p| p.permission().name() == text)
}

impl SystemPermission {
    /// The permission that it is.
    pub fn permission(self) -> Permission
        ensures { result ≡ system_permission self }
    {
        match self {
            SystemPermission::CreateTable => Permission::CreateTable,
            SystemPermission::DropTable => Permission::DropTable,
            SystemPermission::AlterTable => Permission::AlterTable,
            SystemPermission::CreateUser => Permission::CreateUser,
            SystemPermission::DropUser => Permission::DropUser,
            SystemPermission::AlterUser => Permission::AlterUser,
            SystemPermission::Grant => Permission::Grant,
            SystemPermission::System => Permission::System,
        }
    }

    /// The permission on the system of this name, if there is one.
    pub fn named(text: &str) -> Option<SystemPermission>
        ensures { result ≡ system_permission_named text.now }
    {
        named(&SYSTEM_PERMISSIONS, text).copied()
    }
}
