//! The endpoint that shows rows by pages.
ghost use Rattle.serde_json.specs.View.{view};
ghost use Rattle.st_http.specs.declared.routes.Endpoint.TheVariants as endpoints;
ghost use Rattle.st_json.specs.Needs.{Obeys};
ghost use Rattle.st_json.specs.Bodies.{Made};

use crate::fault::DecodeFault;
use crate::{field, place, rule, sizes};
use serde_json::Value;
use st_policy::Request;
use std::alloc::Allocator;

// The request that `POST /tables/{table}/scan` makes.
pub(crate) fn scan<A: Allocator + Copy>(
    alloc: A,
    name: &str,
    object: &Value,
) -> Result<Request<A>, DecodeFault>
    ensures { Obeys (Made endpoints.Scan name.now (view object.now)) result }
{
    let bounds = field::bounds(object)?;
    let texts = field::auths(object)?;
    let limit = sizes::limit(object)?;
    let after = place::after(alloc, object)?;
    let query = rule::query(bounds)?;
    let table = rule::table(name)?;
    let auths = rule::auths(alloc, texts)?;
    Ok(Request::Scan {
        table,
        query,
        auths,
        limit,
        after,
    })
}
