//! Permissions.
ghost use Rattle.std.specs.Prelude.{◌≡◌};

/// What a user may be allowed, on a table, on a namespace or on the whole system. The names are those
/// of Apache Accumulo's table and system permissions.
#[derive(Clone, Copy, PartialEq, Eq, Debug, Default)]
pub enum Permission {
    #[default]
    Read,
    Write,
    AlterTable,
    Grant,
    DropTable,
    CreateTable,
    CreateUser,
    DropUser,
    AlterUser,
    System,
}

impl Permission {
    ghost use Rattle.st_grant.specs.Permissions.{place_of, permission_name, same_permission};

    // Its rank in the order of grants.
    pub(crate) fn place(self) -> u8
        ensures { result ≡ place_of self }
    {
        match self {
            Permission::Read => 0,
            Permission::Write => 1,
            Permission::AlterTable => 2,
            Permission::Grant => 3,
            Permission::DropTable => 4,
            Permission::CreateTable => 5,
            Permission::CreateUser => 6,
            Permission::DropUser => 7,
            Permission::AlterUser => 8,
            Permission::System => 9,
        }
    }

    /// Whether it is the same permission.
    pub fn is_same(self, other: Permission) -> bool
        ensures { result ≡ same_permission self other }
    {
        self.place() == other.place()
    }

    /// Its name in requests and replies.
    pub fn name(self) -> &'static str
        ensures { result.now ≡ permission_name self }
    {
        match self {
            Permission::Read => "READ",
            Permission::Write => "WRITE",
            Permission::AlterTable => "ALTER_TABLE",
            Permission::Grant => "GRANT",
            Permission::DropTable => "DROP_TABLE",
            Permission::CreateTable => "CREATE_TABLE",
            Permission::CreateUser => "CREATE_USER",
            Permission::DropUser => "DROP_USER",
            Permission::AlterUser => "ALTER_USER",
            Permission::System => "SYSTEM",
        }
    }
}
