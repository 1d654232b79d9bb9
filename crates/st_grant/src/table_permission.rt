//! Permissions on tables.
ghost use Rattle.std.specs.Prelude.{◌≡◌, find, option_map};
ghost use Rattle.st_text.specs.Texts.{same};
ghost use Rattle.st_grant.specs.Permissions.{permission_name, table_permission, table_permission_named};

use crate::permission::Permission;

/// What a user may be granted on a table, or on a namespace for each of its tables.
#[derive(Clone, Copy, PartialEq, Eq, Debug)]
pub enum TablePermission {
    Read,
    Write,
    AlterTable,
    Grant,
    DropTable,
}

// The permissions on tables, in listing order.
const TABLE_PERMISSIONS: [TablePermission; 5] = [
    TablePermission::Read,
    TablePermission::Write,
    TablePermission::AlterTable,
    TablePermission::Grant,
    TablePermission::DropTable,
];

// The permission of the list that has this name.
fn named<'a>(listed: &'a [TablePermission], text: &str) -> Option<&'a TablePermission>
    ensures { option_map (λ p. p.now) result ≡ find (λ p. same (permission_name (table_permission p)) text.now) listed.now }
{
    listed.iter().find(|p| p.permission().name() == text)
}

impl TablePermission {
    /// The permission that it is.
    pub fn permission(self) -> Permission
        ensures { result ≡ table_permission self }
    {
        match self {
            TablePermission::Read => Permission::Read,
            TablePermission::Write => Permission::Write,
            TablePermission::AlterTable => Permission::AlterTable,
            TablePermission::Grant => Permission::Grant,
            TablePermission::DropTable => Permission::DropTable,
        }
    }

    /// The permission on tables of this name, if there is one.
    pub fn named(text: &str) -> Option<TablePermission>
        ensures { result ≡ table_permission_named text.now }
    {
        named(&TABLE_PERMISSIONS, text).copied()
    }
}
