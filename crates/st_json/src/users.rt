//! The endpoints about users.
ghost use Rattle.serde_json.specs.View.{view};
ghost use Rattle.st_http.specs.declared.routes.Endpoint.TheVariants as endpoints;
ghost use Rattle.st_json.specs.Needs.{Obeys};
ghost use Rattle.st_json.specs.Bodies.{Made};

use crate::fault::DecodeFault;
use crate::{field, rule};
use serde_json::Value;
use st_policy::{FieldName, Request};
use std::alloc::Allocator;

// The request that `GET /users/{user}` makes.
pub(crate) fn user<A: Allocator>(name: &str, object: &Value) -> Result<Request<A>, DecodeFault>
    ensures { Obeys (Made endpoints.User name.now (view object.now)) result }
{
    let user = rule::user(name)?;
    Ok(Request::User { user })
}

// The request that `POST /users` makes.
pub(crate) fn create_user<A: Allocator + Copy>(
    alloc: A,
    name: &str,
    object: &Value,
) -> Result<Request<A>, DecodeFault>
    ensures { Obeys (Made endpoints.CreateUser name.now (view object.now)) result }
{
    let text = field::text(object, FieldName::User)?;
    let digest = field::digest(object)?;
    let texts = field::auths(object)?;
    let user = rule::user(text)?;
    let auths = rule::auths(alloc, texts)?;
    Ok(Request::CreateUser {
        user,
        digest,
        auths,
    })
}

// The request that `DELETE /users/{user}` makes.
pub(crate) fn drop_user<A: Allocator>(name: &str, object: &Value) -> Result<Request<A>, DecodeFault>
    ensures { Obeys (Made endpoints.DropUser name.now (view object.now)) result }
{
    let user = rule::user(name)?;
    Ok(Request::DropUser { user })
}

// The request that `POST /users/{user}/token` makes.
pub(crate) fn token<A: Allocator>(name: &str, object: &Value) -> Result<Request<A>, DecodeFault>
    ensures { Obeys (Made endpoints.Token name.now (view object.now)) result }
{
    let digest = field::digest(object)?;
    let user = rule::user(name)?;
    Ok(Request::Token { user, digest })
}

// The request that `POST /users/{user}/auths` makes.
pub(crate) fn auths<A: Allocator + Copy>(
    alloc: A,
    name: &str,
    object: &Value,
) -> Result<Request<A>, DecodeFault>
    ensures { Obeys (Made endpoints.Auths name.now (view object.now)) result }
{
    let texts = field::auths(object)?;
    let user = rule::user(name)?;
    let auths = rule::auths(alloc, texts)?;
    Ok(Request::Auths { user, auths })
}
