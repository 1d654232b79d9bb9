//! The request that an endpoint, the name in its path and a body make.
ghost use Rattle.std.specs.Prelude.{◌≡◌};
ghost use Rattle.serde_json.specs.View.{view};
ghost use Rattle.st_json.specs.Needs.{Obeys};
ghost use Rattle.st_json.specs.Bodies.{Made, Decoded, ReadBody, has_body};
ghost use Rattle.st_json.specs.inner.Parts.{viewed};

use crate::fault::DecodeFault;
use crate::{grants, grids, plans, rows, rule, scans, tables, users};
use serde_json::Value;
use st_http::routes::Endpoint;
use st_policy::Request;
use std::alloc::{Allocator, Global};

/// Whether the endpoint's body is read. The bodies of GET and DELETE are not.
pub fn has_body(endpoint: Endpoint) -> bool
    ensures { result ≡ has_body endpoint }
{
    match endpoint {
        Endpoint::Whoami
        | Endpoint::Tables
        | Endpoint::Users
        | Endpoint::User
        | Endpoint::Grants
        | Endpoint::NamespaceGrants
        | Endpoint::Audit
        | Endpoint::DropTable
        | Endpoint::DropUser => false,
        Endpoint::Label
        | Endpoint::Get
        | Endpoint::Scan
        | Endpoint::Count
        | Endpoint::Grid
        | Endpoint::Plan
        | Endpoint::Put
        | Endpoint::Delete
        | Endpoint::CreateTable
        | Endpoint::Constraint
        | Endpoint::Period
        | Endpoint::CreateUser
        | Endpoint::Token
        | Endpoint::Auths
        | Endpoint::GrantSystem
        | Endpoint::RevokeSystem
        | Endpoint::GrantTable
        | Endpoint::RevokeTable
        | Endpoint::GrantNamespace
        | Endpoint::RevokeNamespace => true,
    }
}

// The object in the body, or null if the endpoint reads no body.
fn read(global: Global, endpoint: Endpoint, body: &[u8]) -> Result<Value, DecodeFault>
    ensures { Obeys (ReadBody (has_body endpoint) body.now) (viewed view result) }
{
    if has_body(endpoint) {
        rule::object(global, body)
    } else {
        Ok(Value::Null)
    }
}

// The request that the object in the body makes.
fn request<A: Allocator + Copy>(
    alloc: A,
    endpoint: Endpoint,
    name: &str,
    object: &Value,
) -> Result<Request<A>, DecodeFault>
    ensures { Obeys (Made endpoint name.now (view object.now)) result }
{
    match endpoint {
        Endpoint::Whoami => Ok(Request::Whoami),
        Endpoint::Tables => Ok(Request::Tables),
        Endpoint::Users => Ok(Request::Users),
        Endpoint::User => users::user(name, object),
        Endpoint::Grants => grants::grants(name, object),
        Endpoint::NamespaceGrants => grants::namespace_grants(name, object),
        Endpoint::Label => rows::label(alloc, name, object),
        Endpoint::Audit => Ok(Request::Audit),
        Endpoint::Get => rows::get(alloc, name, object),
        Endpoint::Scan => scans::scan(alloc, name, object),
        Endpoint::Count => rows::count(alloc, name, object),
        Endpoint::Grid => grids::grid(alloc, name, object),
        Endpoint::Plan => plans::plan(name, object),
        Endpoint::Put => rows::put(alloc, name, object),
        Endpoint::Delete => rows::delete(alloc, name, object),
        Endpoint::CreateTable => tables::create_table(name, object),
        Endpoint::DropTable => tables::drop_table(name, object),
        Endpoint::Constraint => tables::constraint(name, object),
        Endpoint::Period => tables::period(name, object),
        Endpoint::CreateUser => users::create_user(alloc, name, object),
        Endpoint::DropUser => users::drop_user(name, object),
        Endpoint::Token => users::token(name, object),
        Endpoint::Auths => users::auths(alloc, name, object),
        Endpoint::GrantSystem => grants::grant_system(name, object),
        Endpoint::RevokeSystem => grants::revoke_system(name, object),
        Endpoint::GrantTable => grants::grant_table(name, object),
        Endpoint::RevokeTable => grants::revoke_table(name, object),
        Endpoint::GrantNamespace => grants::grant_namespace(name, object),
        Endpoint::RevokeNamespace => grants::revoke_namespace(name, object),
    }
}

/// The request that an endpoint, the name in its path and a body of JSON (RFC 8259) make. These rules are
/// tested in this order: the body is an object; its fields are there, of the right types and in their ranges
/// (in the order of the endpoint's fields); six numbers make a query; a text is a label; names are valid (the
/// path's first, then the body's in the order of its fields). The first rule that fails is the refusal. The
/// bodies of GET and DELETE are not read. `NoMemory` comes when memory runs out, and then no later rule is tested.
pub fn decode<A: Allocator + Copy>(
    alloc: A,
    global: Global,
    endpoint: Endpoint,
    name: &str,
    body: &[u8],
) -> Result<Request<A>, DecodeFault>
    ensures { Obeys (Decoded endpoint name.now body.now) result }
{
    let object = read(global, endpoint, body)?;
    request(alloc, endpoint, name, &object)
}
