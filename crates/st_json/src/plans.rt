//! The endpoint that shows the plan of a query.
ghost use Rattle.serde_json.specs.View.{view};
ghost use Rattle.st_http.specs.declared.routes.Endpoint.TheVariants as endpoints;
ghost use Rattle.st_json.specs.Needs.{Obeys};
ghost use Rattle.st_json.specs.Bodies.{Made};

use crate::fault::DecodeFault;
use crate::{field, rule, sizes};
use serde_json::Value;
use st_policy::Request;
use std::alloc::Allocator;

// The request that `POST /tables/{table}/plan` makes.
pub(crate) fn plan<A: Allocator>(name: &str, object: &Value) -> Result<Request<A>, DecodeFault>
    ensures { Obeys (Made endpoints.Plan name.now (view object.now)) result }
{
    let bounds = field::bounds(object)?;
    let budget = sizes::budget(object)?;
    let query = rule::query(bounds)?;
    let table = rule::table(name)?;
    Ok(Request::Plan {
        table,
        query,
        budget,
    })
}
