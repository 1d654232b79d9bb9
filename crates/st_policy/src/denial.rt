//! Denials.
//!
//! A refusal takes no memory, so it has room for a text of 256 bytes. A result that may be one takes 280 bytes, and is moved whole
//! some 24 times a request.
use st_dir::{Name, Permission, TableName};
use st_text::Text;

/// Why a user was not allowed what was asked. Each names what refused.
#[derive(Debug, Drop)]
pub enum Denial {
    /// There is no token, or its name or its digest is not a user's.
    Token,
    /// A permission that the user lacks: on a table, or else on the system.
    Permission {
        name: Permission,
        table: Option<TableName>,
    },
    /// A permission that the user lacks on a namespace.
    NamespacePermission {
        name: Permission,
        namespace: Name,
    },
    /// An authorization that a read names and the user lacks.
    Authorization {
        name: Text<256>,
    },
    /// The label of a row that its writer could not see, in a table whose constraint is on.
    Constraint {
        label: Text<256>,
    },
    /// A user may not drop its own account.
    OwnSelf,
}

impl Denial {
    ghost use Rattle.std.specs.Prelude.{◌≡◌};
    ghost use Rattle.st_policy.specs.Refusals.{number_of};
    ghost use Rattle.st_policy.specs.declared.refusal.Refusal.TheVariants.{Denied};

    /// The number of the refusal.
    pub fn number(&self) -> u8
        ensures { result ≡ number_of (Denied self.now) }
    {
        match self {
            Denial::Token => 8,
            Denial::Permission { .. } | Denial::NamespacePermission { .. } => 9,
            Denial::Authorization { .. } => 10,
            Denial::Constraint { .. } => 11,
            Denial::OwnSelf => 12,
        }
    }

    /// An equal denial.
    pub fn copy(&self) -> Denial
        ensures { result ≡ self.now }
    {
        match self {
            Denial::Token => Denial::Token,
            Denial::Permission { name, table: None } => Denial::Permission {
                name: *name,
                table: None,
            },
            Denial::Permission {
                name,
                table: Some(table),
            } => Denial::Permission {
                name: *name,
                table: Some(table.copy()),
            },
            Denial::NamespacePermission { name, namespace } => Denial::NamespacePermission {
                name: *name,
                namespace: namespace.copy(),
            },
            Denial::Authorization { name } => Denial::Authorization { name: name.copy() },
            Denial::Constraint { label } => Denial::Constraint {
                label: label.copy(),
            },
            Denial::OwnSelf => Denial::OwnSelf,
        }
    }
}
