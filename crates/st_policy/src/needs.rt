//! Permissions that are needed.
ghost use Rattle.std.specs.Prelude.{◌≡◌};
ghost use Rattle.st_policy.specs.Policy.{decision, meets};
ghost use Rattle.st_policy.specs.Requests.{Table, System, TableOrSystem, NamespaceOrSystem, OneselfOrSystem};

use crate::denial::Denial;
use crate::refusal::Refusal;
use st_dir::{Directory, Name, Permission, TableName};
use std::alloc::Allocator;

// The permission on the system, or the denial that names it.
pub(crate) fn on_system<A: Allocator>(
    directory: &Directory<A>,
    asker: &Name,
    name: Permission,
) -> Result<(), Refusal>
    ensures { result ≡ decision (meets directory.now asker.now (System name)) }
{
    if directory.holds_system(asker.as_str(), name) {
        return Ok(());
    }
    Err(Refusal::Denied(Denial::Permission { name, table: None }))
}

// The permission on the table, or the denial that names both.
pub(crate) fn on_table<A: Allocator>(
    directory: &Directory<A>,
    asker: &Name,
    table: &TableName,
    name: Permission,
) -> Result<(), Refusal>
    ensures { result ≡ decision (meets directory.now asker.now (Table table.now name)) }
{
    if directory.holds_table(asker.as_str(), table, name) {
        return Ok(());
    }
    Err(Refusal::Denied(Denial::Permission {
        name,
        table: Some(table.copy()),
    }))
}

// The permission on the table or on the system, or the denial that names the table's.
pub(crate) fn on_table_or_system<A: Allocator>(
    directory: &Directory<A>,
    asker: &Name,
    table: &TableName,
    name: Permission,
) -> Result<(), Refusal>
    ensures { result ≡ decision (meets directory.now asker.now (TableOrSystem table.now name)) }
{
    if directory.holds_table(asker.as_str(), table, name)
        || directory.holds_system(asker.as_str(), name)
    {
        return Ok(());
    }
    Err(Refusal::Denied(Denial::Permission {
        name,
        table: Some(table.copy()),
    }))
}

// The permission on the namespace or on the system, or the denial that names the namespace's.
pub(crate) fn on_namespace_or_system<A: Allocator>(
    directory: &Directory<A>,
    asker: &Name,
    namespace: &Name,
    name: Permission,
) -> Result<(), Refusal>
    ensures { result ≡ decision (meets directory.now asker.now (NamespaceOrSystem namespace.now name)) }
{
    if directory.holds_namespace(asker.as_str(), namespace, name)
        || directory.holds_system(asker.as_str(), name)
    {
        return Ok(());
    }
    Err(Refusal::Denied(Denial::NamespacePermission {
        name,
        namespace: namespace.copy(),
    }))
}

// To be the user, or the permission on the system, or the denial that names the permission.
pub(crate) fn oneself_or_system<A: Allocator>(
    directory: &Directory<A>,
    asker: &Name,
    user: &Name,
    name: Permission,
) -> Result<(), Refusal>
    ensures { result ≡ decision (meets directory.now asker.now (OneselfOrSystem user.now name)) }
{
    if user.is(asker.as_str()) || directory.holds_system(asker.as_str(), name) {
        return Ok(());
    }
    Err(Refusal::Denied(Denial::Permission { name, table: None }))
}
