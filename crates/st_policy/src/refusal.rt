//! Refusals.
use crate::denial::Denial;
use crate::field_name::FieldName;
use st_dir::{Name, TableName};

/// Why a request was refused. Each kind has a number, which the audit listing shows.
#[derive(Debug, Drop)]
pub enum Refusal {
    /// The body is no JSON object (RFC 8259).
    Json,
    /// A field of the body is missing, of another type or out of range.
    Field { name: FieldName },
    /// Six numbers that make no query.
    BadBox,
    /// A text that is no label, and the place in it that shows it.
    BadLabel { at: u64 },
    /// A text that is no name.
    BadName { field: FieldName },
    Denied(Denial),
    NoTable { table: TableName },
    NoUser { user: Name },
    TableExists { table: TableName },
    UserExists { user: Name },
}

impl Refusal {
    ghost use Rattle.std.specs.Prelude.{◌≡◌};
    ghost use Rattle.st_policy.specs.Refusals.{number_of};

    /// The number of the refusal.
    pub fn number(&self) -> u8
        ensures { result ≡ number_of self.now }
    {
        match self {
            Refusal::Json => 3,
            Refusal::Field { .. } => 4,
            Refusal::BadBox => 5,
            Refusal::BadLabel { .. } => 6,
            Refusal::BadName { .. } => 7,
            Refusal::Denied(denial) => denial.number(),
            Refusal::NoTable { .. } => 14,
            Refusal::NoUser { .. } => 15,
            Refusal::TableExists { .. } => 17,
            Refusal::UserExists { .. } => 18,
        }
    }

    /// An equal refusal.
    pub fn copy(&self) -> Refusal
        ensures { result ≡ self.now }
    {
        match self {
            Refusal::Json => Refusal::Json,
            Refusal::Field { name } => Refusal::Field { name: *name },
            Refusal::BadBox => Refusal::BadBox,
            Refusal::BadLabel { at } => Refusal::BadLabel { at: *at },
            Refusal::BadName { field } => Refusal::BadName { field: *field },
            Refusal::Denied(denial) => Refusal::Denied(denial.copy()),
            Refusal::NoTable { table } => Refusal::NoTable {
                table: table.copy(),
            },
            Refusal::NoUser { user } => Refusal::NoUser { user: user.copy() },
            Refusal::TableExists { table } => Refusal::TableExists {
                table: table.copy(),
            },
            Refusal::UserExists { user } => Refusal::UserExists { user: user.copy() },
        }
    }
}
