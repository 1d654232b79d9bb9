//! Equal requests.
ghost use Rattle.std.specs.Prelude.{◌≡◌, IfOk, true};
ghost use Rattle.st_policy.specs.inner.Kinds.{shows_rows, shows_numbers, changes_tables, changes_users, is_grant, is_revoke};

use crate::request::Request;
use st_key::Place;
use std::alloc::{AllocError, Allocator};

// An equal place, where there is one.
fn copy_place<A: Allocator + Copy>(place: &Option<Place<A>>) -> Result<Option<Place<A>>, AllocError>
    ensures { IfOk result (λ other. other ≡ place.now) }
{
    let Some(place) = place else {
        return Ok(None);
    };
    Ok(Some(Place {
        point: place.point,
        id: place.id.copy()?,
        label: place.label.copy()?,
    }))
}

// An equal request that shows rows.
fn copy_of_rows<A: Allocator + Copy>(request: &Request<A>) -> Result<Request<A>, AllocError>
    requires { shows_rows request.now ≡ true }
    ensures { IfOk result (λ other. other ≡ request.now) }
{
    Ok(match request {
        Request::Get { table, id, auths } => Request::Get {
            table: table.copy(),
            id: id.copy()?,
            auths: auths.copy()?,
        },
        Request::Scan {
            table,
            query,
            auths,
            limit,
            after,
        } => Request::Scan {
            table: table.copy(),
            query: *query,
            auths: auths.copy()?,
            limit: *limit,
            after: copy_place(after)?,
        },
        _ => unreachable!(),
    })
}

// An equal request that shows numbers.
fn copy_of_numbers<A: Allocator + Copy>(request: &Request<A>) -> Result<Request<A>, AllocError>
    requires { shows_numbers request.now ≡ true }
    ensures { IfOk result (λ other. other ≡ request.now) }
{
    Ok(match request {
        Request::Count {
            table,
            query,
            auths,
        } => Request::Count {
            table: table.copy(),
            query: *query,
            auths: auths.copy()?,
        },
        Request::Grid {
            table,
            query,
            auths,
            columns,
            lines,
        } => Request::Grid {
            table: table.copy(),
            query: *query,
            auths: auths.copy()?,
            columns: *columns,
            lines: *lines,
        },
        Request::Plan {
            table,
            query,
            budget,
        } => Request::Plan {
            table: table.copy(),
            query: *query,
            budget: *budget,
        },
        _ => unreachable!(),
    })
}

// An equal change of a table or of its rows.
fn copy_of_table_change<A: Allocator + Copy>(request: &Request<A>) -> Result<Request<A>, AllocError>
    requires { changes_tables request.now ≡ true }
    ensures { IfOk result (λ other. other ≡ request.now) }
{
    Ok(match request {
        Request::Put { table, row } => Request::Put {
            table: table.copy(),
            row: row.copy()?,
        },
        Request::Delete { table, id, label } => Request::Delete {
            table: table.copy(),
            id: id.copy()?,
            label: label.copy()?,
        },
        Request::CreateTable { table, period } => Request::CreateTable {
            table: table.copy(),
            period: *period,
        },
        Request::DropTable { table } => Request::DropTable {
            table: table.copy(),
        },
        Request::Constraint { table, on } => Request::Constraint {
            table: table.copy(),
            on: *on,
        },
        Request::Period { table, period } => Request::Period {
            table: table.copy(),
            period: *period,
        },
        _ => unreachable!(),
    })
}

// An equal change of a user.
fn copy_of_user_change<A: Allocator + Copy>(request: &Request<A>) -> Result<Request<A>, AllocError>
    requires { changes_users request.now ≡ true }
    ensures { IfOk result (λ other. other ≡ request.now) }
{
    Ok(match request {
        Request::CreateUser {
            user,
            digest,
            auths,
        } => Request::CreateUser {
            user: user.copy(),
            digest: *digest,
            auths: auths.copy()?,
        },
        Request::DropUser { user } => Request::DropUser { user: user.copy() },
        Request::Token { user, digest } => Request::Token {
            user: user.copy(),
            digest: *digest,
        },
        Request::Auths { user, auths } => Request::Auths {
            user: user.copy(),
            auths: auths.copy()?,
        },
        _ => unreachable!(),
    })
}

// An equal grant.
fn copy_of_grant<A: Allocator>(request: &Request<A>) -> Request<A>
    requires { is_grant request.now ≡ true }
    ensures { result ≡ request.now }
{
    match request {
        Request::GrantSystem { user, permission } => Request::GrantSystem {
            user: user.copy(),
            permission: *permission,
        },
        Request::GrantTable {
            table,
            user,
            permission,
        } => Request::GrantTable {
            table: table.copy(),
            user: user.copy(),
            permission: *permission,
        },
        Request::GrantNamespace {
            namespace,
            user,
            permission,
        } => Request::GrantNamespace {
            namespace: namespace.copy(),
            user: user.copy(),
            permission: *permission,
        },
        _ => unreachable!(),
    }
}

// An equal revoke.
fn copy_of_revoke<A: Allocator>(request: &Request<A>) -> Request<A>
    requires { is_revoke request.now ≡ true }
    ensures { result ≡ request.now }
{
    match request {
        Request::RevokeSystem { user, permission } => Request::RevokeSystem {
            user: user.copy(),
            permission: *permission,
        },
        Request::RevokeTable {
            table,
            user,
            permission,
        } => Request::RevokeTable {
            table: table.copy(),
            user: user.copy(),
            permission: *permission,
        },
        Request::RevokeNamespace {
            namespace,
            user,
            permission,
        } => Request::RevokeNamespace {
            namespace: namespace.copy(),
            user: user.copy(),
            permission: *permission,
        },
        _ => unreachable!(),
    }
}

impl<A: Allocator + Copy> Request<A> {
    /// An equal request. `AllocError` when out of memory.
    pub fn copy(&self) -> Result<Request<A>, AllocError>
        ensures { IfOk result (λ other. other ≡ self.now) }
    {
        match self {
            Request::Whoami => Ok(Request::Whoami),
            Request::Tables => Ok(Request::Tables),
            Request::Users => Ok(Request::Users),
            Request::User { user } => Ok(Request::User { user: user.copy() }),
            Request::Grants { table } => Ok(Request::Grants {
                table: table.copy(),
            }),
            Request::NamespaceGrants { namespace } => Ok(Request::NamespaceGrants {
                namespace: namespace.copy(),
            }),
            Request::Label { label } => Ok(Request::Label {
                label: label.copy()?,
            }),
            Request::Audit => Ok(Request::Audit),
            Request::Get { .. } | Request::Scan { .. } => copy_of_rows(self),
            Request::Count { .. } | Request::Grid { .. } | Request::Plan { .. } => copy_of_numbers(
                self,
            ),
            Request::Put { .. }
            | Request::Delete { .. }
            | Request::CreateTable { .. }
            | Request::DropTable { .. }
            | Request::Constraint { .. }
            | Request::Period { .. } => copy_of_table_change(self),
            Request::CreateUser { .. }
            | Request::DropUser { .. }
            | Request::Token { .. }
            | Request::Auths { .. } => copy_of_user_change(self),
            Request::GrantSystem { .. }
            | Request::GrantTable { .. }
            | Request::GrantNamespace { .. } => Ok(copy_of_grant(self)),
            Request::RevokeSystem { .. }
            | Request::RevokeTable { .. }
            | Request::RevokeNamespace { .. } => Ok(copy_of_revoke(self)),
        }
    }
}
