//! The policy.
ghost use Rattle.std.specs.Prelude.{◌≡◌};
ghost use Rattle.st_policy.specs.Policy.{refusal_of, decision, meets, table_exists, user_exists, name_is_free};
ghost use Rattle.st_policy.specs.Policy.{auths_are_held, label_is_met, is_not_oneself};
ghost use Rattle.st_policy.specs.Requests.{need_of, table_of, user_of, named_auths};

use crate::asker_auths::{lacking, sees, text_of_label};
use crate::denial::Denial;
use crate::needs::{
    on_namespace_or_system, on_system, on_table, on_table_or_system, oneself_or_system,
};
use crate::refusal::Refusal;
use crate::request::Request;
use st_dir::{Directory, Name, Permission};
use std::alloc::Allocator;

// The table that a request is about is there.
fn finds_table<A: Allocator>(directory: &Directory<A>, request: &Request<A>) -> Result<(), Refusal>
    ensures { result ≡ decision (table_exists directory.now (table_of request.now)) }
{
    match request.table() {
        Some(table) => {
            if directory.has_table(table) {
                return Ok(());
            }
            Err(Refusal::NoTable {
                table: table.copy(),
            })
        }
        None => Ok(()),
    }
}

// The user that a request is about is there.
fn finds_user<A: Allocator>(directory: &Directory<A>, request: &Request<A>) -> Result<(), Refusal>
    ensures { result ≡ decision (user_exists directory.now (user_of request.now)) }
{
    match request.user() {
        Some(user) => {
            if directory.has_user(user.as_str()) {
                return Ok(());
            }
            Err(Refusal::NoUser { user: user.copy() })
        }
        None => Ok(()),
    }
}

// The name that a request makes a table or a user by is free.
fn finds_free_name<A: Allocator>(
    directory: &Directory<A>,
    request: &Request<A>,
) -> Result<(), Refusal>
    ensures { result ≡ decision (name_is_free directory.now request.now) }
{
    match request {
        Request::CreateTable { table, .. } => {
            if !directory.has_table(table) {
                return Ok(());
            }
            Err(Refusal::TableExists {
                table: table.copy(),
            })
        }
        Request::CreateUser { user, .. } => {
            if !directory.has_user(user.as_str()) {
                return Ok(());
            }
            Err(Refusal::UserExists { user: user.copy() })
        }
        _ => Ok(()),
    }
}

// The asker has the permission that a request needs.
fn permits<A: Allocator>(
    directory: &Directory<A>,
    asker: &Name,
    request: &Request<A>,
) -> Result<(), Refusal>
    ensures { result ≡ decision (meets directory.now asker.now (need_of request.now)) }
{
    match request {
        Request::Whoami
        | Request::Tables
        | Request::Users
        | Request::User { .. }
        | Request::Grants { .. }
        | Request::NamespaceGrants { .. }
        | Request::Label { .. } => Ok(()),
        Request::Audit => on_system(directory, asker, Permission::System),
        Request::Get { table, .. }
        | Request::Scan { table, .. }
        | Request::Count { table, .. }
        | Request::Grid { table, .. }
        | Request::Plan { table, .. } => on_table(directory, asker, table, Permission::Read),
        Request::Put { table, .. } | Request::Delete { table, .. } => {
            on_table(directory, asker, table, Permission::Write)
        }
        Request::CreateTable { .. } => on_system(directory, asker, Permission::CreateTable),
        Request::DropTable { table } => {
            on_table_or_system(directory, asker, table, Permission::DropTable)
        }
        Request::Constraint { table, .. } | Request::Period { table, .. } => {
            on_table_or_system(directory, asker, table, Permission::AlterTable)
        }
        Request::CreateUser { .. } => on_system(directory, asker, Permission::CreateUser),
        Request::DropUser { .. } => on_system(directory, asker, Permission::DropUser),
        Request::Token { user, .. } => oneself_or_system(
            directory,
            asker,
            user,
            Permission::AlterUser,
        ),
        Request::Auths { .. } => on_system(directory, asker, Permission::AlterUser),
        Request::GrantSystem { .. } | Request::RevokeSystem { .. } => {
            on_system(directory, asker, Permission::Grant)
        }
        Request::GrantTable { table, .. } | Request::RevokeTable { table, .. } => {
            on_table_or_system(directory, asker, table, Permission::Grant)
        }
        Request::GrantNamespace { namespace, .. } | Request::RevokeNamespace { namespace, .. } => {
            on_namespace_or_system(directory, asker, namespace, Permission::Grant)
        }
    }
}

// The authorizations that a request names are the asker's own.
fn holds_auths<A: Allocator>(
    directory: &Directory<A>,
    asker: &Name,
    request: &Request<A>,
) -> Result<(), Refusal>
    ensures { result ≡ decision (auths_are_held directory.now asker.now (named_auths request.now)) }
{
    match request {
        Request::Get { auths, .. }
        | Request::Scan { auths, .. }
        | Request::Count { auths, .. }
        | Request::Grid { auths, .. } => match lacking(directory, asker, auths) {
            Some(name) => Err(Refusal::Denied(Denial::Authorization { name })),
            None => Ok(()),
        },
        _ => Ok(()),
    }
}

// In a table with a constraint, the label that is put is one that its writer sees.
fn meets_constraint<A: Allocator>(
    directory: &Directory<A>,
    asker: &Name,
    request: &Request<A>,
) -> Result<(), Refusal>
    ensures { result ≡ decision (label_is_met directory.now asker.now request.now) }
{
    match request {
        Request::Put { table, row } => {
            if directory.constraint_of(table) != Some(true) || sees(directory, asker, &row.label) {
                return Ok(());
            }
            Err(Refusal::Denied(Denial::Constraint {
                label: text_of_label(&row.label),
            }))
        }
        _ => Ok(()),
    }
}

// You cannot drop yourself.
fn spares_oneself<A: Allocator>(asker: &Name, request: &Request<A>) -> Result<(), Refusal>
    ensures { result ≡ decision (is_not_oneself asker.now request.now) }
{
    match request {
        Request::DropUser { user } => {
            if !user.is(asker.as_str()) {
                return Ok(());
            }
            Err(Refusal::Denied(Denial::OwnSelf))
        }
        _ => Ok(()),
    }
}

/// Whether the directory allows the asker the request, or the first refusal that applies: existence of
/// the table and of the user, a name that is held, permission, authorization, constraint, oneself.
pub fn decide<A: Allocator>(
    directory: &Directory<A>,
    asker: &Name,
    request: &Request<A>,
) -> Result<(), Refusal>
    ensures { result ≡ decision (refusal_of directory.now asker.now request.now) }
{
    finds_table(directory, request)?;
    finds_user(directory, request)?;
    finds_free_name(directory, request)?;
    permits(directory, asker, request)?;
    holds_auths(directory, asker, request)?;
    meets_constraint(directory, asker, request)?;
    spares_oneself(asker, request)
}
