//! The endpoints about tables.
ghost use Rattle.serde_json.specs.View.{view};
ghost use Rattle.st_http.specs.declared.routes.Endpoint.TheVariants as endpoints;
ghost use Rattle.st_json.specs.Needs.{Obeys};
ghost use Rattle.st_json.specs.Bodies.{Made};

use crate::fault::DecodeFault;
use crate::{field, rule};
use serde_json::Value;
use st_policy::{FieldName, Request};
use std::alloc::Allocator;

// The request that `POST /tables` makes.
pub(crate) fn create_table<A: Allocator>(
    name: &str,
    object: &Value,
) -> Result<Request<A>, DecodeFault>
    ensures { Obeys (Made endpoints.CreateTable name.now (view object.now)) result }
{
    let text = field::text(object, FieldName::Table)?;
    let period = field::new_period(object)?;
    let table = rule::table(text)?;
    Ok(Request::CreateTable { table, period })
}

// The request that `DELETE /tables/{table}` makes.
pub(crate) fn drop_table<A: Allocator>(
    name: &str,
    object: &Value,
) -> Result<Request<A>, DecodeFault>
    ensures { Obeys (Made endpoints.DropTable name.now (view object.now)) result }
{
    let table = rule::table(name)?;
    Ok(Request::DropTable { table })
}

// The request that `POST /tables/{table}/constraint` makes.
pub(crate) fn constraint<A: Allocator>(
    name: &str,
    object: &Value,
) -> Result<Request<A>, DecodeFault>
    ensures { Obeys (Made endpoints.Constraint name.now (view object.now)) result }
{
    let on = field::on(object)?;
    let table = rule::table(name)?;
    Ok(Request::Constraint { table, on })
}

// The request that `POST /tables/{table}/period` makes.
pub(crate) fn period<A: Allocator>(name: &str, object: &Value) -> Result<Request<A>, DecodeFault>
    ensures { Obeys (Made endpoints.Period name.now (view object.now)) result }
{
    let period = field::period(object)?;
    let table = rule::table(name)?;
    Ok(Request::Period { table, period })
}
