//! The endpoints about grants.
ghost use Rattle.serde_json.specs.View.{view};
ghost use Rattle.st_http.specs.declared.routes.Endpoint.TheVariants as endpoints;
ghost use Rattle.st_json.specs.Needs.{Obeys};
ghost use Rattle.st_json.specs.Bodies.{Made};

use crate::fault::DecodeFault;
use crate::{field, rule};
use serde_json::Value;
use st_policy::{FieldName, Request};
use std::alloc::Allocator;

// The request that `GET /tables/{table}/grants` makes.
pub(crate) fn grants<A: Allocator>(name: &str, object: &Value) -> Result<Request<A>, DecodeFault>
    ensures { Obeys (Made endpoints.Grants name.now (view object.now)) result }
{
    let table = rule::table(name)?;
    Ok(Request::Grants { table })
}

// The request that `GET /namespaces/{namespace}/grants` makes.
pub(crate) fn namespace_grants<A: Allocator>(
    name: &str,
    object: &Value,
) -> Result<Request<A>, DecodeFault>
    ensures { Obeys (Made endpoints.NamespaceGrants name.now (view object.now)) result }
{
    let namespace = rule::namespace(name)?;
    Ok(Request::NamespaceGrants { namespace })
}

// The request that `POST /users/{user}/grant` makes.
pub(crate) fn grant_system<A: Allocator>(
    name: &str,
    object: &Value,
) -> Result<Request<A>, DecodeFault>
    ensures { Obeys (Made endpoints.GrantSystem name.now (view object.now)) result }
{
    let permission = field::system_permission(object)?;
    let user = rule::user(name)?;
    Ok(Request::GrantSystem { user, permission })
}

// The request that `POST /users/{user}/revoke` makes.
pub(crate) fn revoke_system<A: Allocator>(
    name: &str,
    object: &Value,
) -> Result<Request<A>, DecodeFault>
    ensures { Obeys (Made endpoints.RevokeSystem name.now (view object.now)) result }
{
    let permission = field::system_permission(object)?;
    let user = rule::user(name)?;
    Ok(Request::RevokeSystem { user, permission })
}

// The request that `POST /tables/{table}/grant` makes.
pub(crate) fn grant_table<A: Allocator>(
    name: &str,
    object: &Value,
) -> Result<Request<A>, DecodeFault>
    ensures { Obeys (Made endpoints.GrantTable name.now (view object.now)) result }
{
    let text = field::text(object, FieldName::User)?;
    let permission = field::table_permission(object)?;
    let table = rule::table(name)?;
    let user = rule::user(text)?;
    Ok(Request::GrantTable {
        table,
        user,
        permission,
    })
}

// The request that `POST /tables/{table}/revoke` makes.
pub(crate) fn revoke_table<A: Allocator>(
    name: &str,
    object: &Value,
) -> Result<Request<A>, DecodeFault>
    ensures { Obeys (Made endpoints.RevokeTable name.now (view object.now)) result }
{
    let text = field::text(object, FieldName::User)?;
    let permission = field::table_permission(object)?;
    let table = rule::table(name)?;
    let user = rule::user(text)?;
    Ok(Request::RevokeTable {
        table,
        user,
        permission,
    })
}

// The request that `POST /namespaces/{namespace}/grant` makes.
pub(crate) fn grant_namespace<A: Allocator>(
    name: &str,
    object: &Value,
) -> Result<Request<A>, DecodeFault>
    ensures { Obeys (Made endpoints.GrantNamespace name.now (view object.now)) result }
{
    let text = field::text(object, FieldName::User)?;
    let permission = field::table_permission(object)?;
    let namespace = rule::namespace(name)?;
    let user = rule::user(text)?;
    Ok(Request::GrantNamespace {
        namespace,
        user,
        permission,
    })
}

// The request that `POST /namespaces/{namespace}/revoke` makes.
pub(crate) fn revoke_namespace<A: Allocator>(
    name: &str,
    object: &Value,
) -> Result<Request<A>, DecodeFault>
    ensures { Obeys (Made endpoints.RevokeNamespace name.now (view object.now)) result }
{
    let text = field::text(object, FieldName::User)?;
    let permission = field::table_permission(object)?;
    let namespace = rule::namespace(name)?;
    let user = rule::user(text)?;
    Ok(Request::RevokeNamespace {
        namespace,
        user,
        permission,
    })
}
