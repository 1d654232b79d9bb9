//! The endpoint that counts rows by the cells of a grid.
ghost use Rattle.serde_json.specs.View.{view};
ghost use Rattle.st_http.specs.declared.routes.Endpoint.TheVariants as endpoints;
ghost use Rattle.st_json.specs.Needs.{Obeys};
ghost use Rattle.st_json.specs.Bodies.{Made};

use crate::fault::DecodeFault;
use crate::{field, rule, sizes};
use serde_json::Value;
use st_policy::{FieldName, Request};
use std::alloc::Allocator;

// The request that `POST /tables/{table}/grid` makes.
pub(crate) fn grid<A: Allocator + Copy>(
    alloc: A,
    name: &str,
    object: &Value,
) -> Result<Request<A>, DecodeFault>
    ensures { Obeys (Made endpoints.Grid name.now (view object.now)) result }
{
    let bounds = field::bounds(object)?;
    let texts = field::auths(object)?;
    let columns = sizes::side(object, FieldName::Nx)?;
    let lines = sizes::side(object, FieldName::Ny)?;
    let query = rule::query(bounds)?;
    let table = rule::table(name)?;
    let auths = rule::auths(alloc, texts)?;
    Ok(Request::Grid {
        table,
        query,
        auths,
        columns,
        lines,
    })
}
