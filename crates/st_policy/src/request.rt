//! Requests.

mod about;

use crate::limits::{Budget, Limit, Side};
use st_auth::Auths;
use st_box::Query;
use st_dir::{Name, SystemPermission, TableName, TablePermission};
use st_index::{Id, Row};
use st_key::{Period, Place};
use st_label::Label;
use std::alloc::{Allocator, Global};

/// A request: one variant for each line that is served. The lines from `Put` on are changes.
pub enum Request<A: Allocator = Global> {
    /// The asker's own account.
    Whoami,
    /// The tables.
    Tables,
    /// The names of the users.
    Users,
    /// A user's account.
    User {
        user: Name,
    },
    /// Who has been granted what on a table.
    Grants {
        table: TableName,
    },
    /// Who has been granted what on a namespace.
    NamespaceGrants {
        namespace: Name,
    },
    /// The normal form of a label.
    Label {
        label: Label<A>,
    },
    /// The changes that were asked for.
    Audit,
    /// The rows of a table under an id that are seen with these authorizations.
    Get {
        table: TableName,
        id: Id<A>,
        auths: Auths<A>,
    },
    /// The first rows of a table that are inside a query, seen with these authorizations and after a
    /// place, if one is given, in scan order.
    Scan {
        table: TableName,
        query: Query,
        auths: Auths<A>,
        limit: Limit,
        after: Option<Place<A>>,
    },
    /// How many rows of a table are inside a query and seen with these authorizations.
    Count {
        table: TableName,
        query: Query,
        auths: Auths<A>,
    },
    /// How many such rows are in each field of a grid over the query's box.
    Grid {
        table: TableName,
        query: Query,
        auths: Auths<A>,
        columns: Side,
        lines: Side,
    },
    /// The plan of a query: the ranges of its keys.
    Plan {
        table: TableName,
        query: Query,
        budget: Budget,
    },
    /// Puts a row into a table, in place of the row of the same id and label text, if there is one.
    Put {
        table: TableName,
        row: Row<A>,
    },
    /// Takes the row of this id and label text out of a table, if there is one.
    Delete {
        table: TableName,
        id: Id<A>,
        label: Label<A>,
    },
    /// Makes an empty table, whose constraint is off, and gives its maker each table permission.
    CreateTable {
        table: TableName,
        period: Period,
    },
    /// Takes a table away, with its rows and the grants on it.
    DropTable {
        table: TableName,
    },
    /// Turns a table's visibility constraint on or off.
    Constraint {
        table: TableName,
        on: bool,
    },
    /// Sets the length of a table's time bins.
    Period {
        table: TableName,
        period: Period,
    },
    /// Makes a user, who has these authorizations and no permissions.
    CreateUser {
        user: Name,
        /// The SHA-256 of the user's secret.
        digest: [u8; 32],
        auths: Auths<A>,
    },
    /// Takes a user away, with each grant to it.
    DropUser {
        user: Name,
    },
    /// Sets the digest of a user's secret.
    Token {
        user: Name,
        /// The SHA-256 of the user's secret.
        digest: [u8; 32],
    },
    /// Sets a user's authorizations.
    Auths {
        user: Name,
        auths: Auths<A>,
    },
    /// Gives a user a permission on the system.
    GrantSystem {
        user: Name,
        permission: SystemPermission,
    },
    /// Takes a permission on the system from a user.
    RevokeSystem {
        user: Name,
        permission: SystemPermission,
    },
    /// Gives a user a permission on a table.
    GrantTable {
        table: TableName,
        user: Name,
        permission: TablePermission,
    },
    /// Takes a permission on a table from a user.
    RevokeTable {
        table: TableName,
        user: Name,
        permission: TablePermission,
    },
    /// Gives a user a permission on each table of a namespace.
    GrantNamespace {
        namespace: Name,
        user: Name,
        permission: TablePermission,
    },
    /// Takes a permission on the tables of a namespace from a user.
    RevokeNamespace {
        namespace: Name,
        user: Name,
        permission: TablePermission,
    },
}

// Written out, and not derived: a derived drop is proved anew in each crate that owns a request.
impl<A: Allocator> Drop for Request<A> {
    fn drop(self) {
        match self {
            Request::Whoami | Request::Tables | Request::Users | Request::Audit => {}
            Request::User { user: _user } | Request::DropUser { user: _user } => {}
            Request::NamespaceGrants {
                namespace: _namespace,
            } => {}
            Request::Grants { table: _table } | Request::DropTable { table: _table } => {}
            Request::Constraint {
                table: _table,
                on: _on,
            } => {}
            Request::CreateTable {
                table: _table,
                period: _period,
            }
            | Request::Period {
                table: _table,
                period: _period,
            } => {}
            Request::Label { label: _label } => {}
            Request::Get {
                table: _table,
                id: _id,
                auths: _auths,
            } => {}
            Request::Scan {
                table: _table,
                query: _query,
                auths: _auths,
                limit: _limit,
                after: _after,
            } => {}
            Request::Count {
                table: _table,
                query: _query,
                auths: _auths,
            } => {}
            Request::Grid {
                table: _table,
                query: _query,
                auths: _auths,
                columns: _columns,
                lines: _lines,
            } => {}
            Request::Plan {
                table: _table,
                query: _query,
                budget: _budget,
            } => {}
            Request::Put {
                table: _table,
                row: _row,
            } => {}
            Request::Delete {
                table: _table,
                id: _id,
                label: _label,
            } => {}
            Request::CreateUser {
                user: _user,
                digest: _digest,
                auths: _auths,
            } => {}
            Request::Token {
                user: _user,
                digest: _digest,
            } => {}
            Request::Auths {
                user: _user,
                auths: _auths,
            } => {}
            Request::GrantSystem {
                user: _user,
                permission: _permission,
            }
            | Request::RevokeSystem {
                user: _user,
                permission: _permission,
            } => {}
            Request::GrantTable {
                table: _table,
                user: _user,
                permission: _permission,
            }
            | Request::RevokeTable {
                table: _table,
                user: _user,
                permission: _permission,
            } => {}
            Request::GrantNamespace {
                namespace: _namespace,
                user: _user,
                permission: _permission,
            }
            | Request::RevokeNamespace {
                namespace: _namespace,
                user: _user,
                permission: _permission,
            } => {}
        }
    }
}
