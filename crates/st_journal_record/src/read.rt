//! The request of a record.
ghost use Rattle.std.specs.Prelude.{◌≡◌, Ok, IfOk, IfErr};
ghost use Rattle.st_policy.specs.declared.request.Request.{Request};
ghost use Rattle.st_journal_record.specs.Records.{ReadsAs};

use crate::names::endpoint_named;
use st_journal::{Record, ReplayError};
use st_json::{DecodeFault, decode};
use st_policy::Request;
use std::alloc::{Allocator, Global};

/// The request of a record. `Invalid` comes where the record makes none.
pub fn request_in<A: Allocator + Copy>(
    alloc: A,
    global: Global,
    kept: &Record,
) -> Result<Request<A>, ReplayError>
    ensures ok { IfOk result (λ request. ReadsAs kept.now (Ok request)) }
    ensures invalid { IfErr result (λ e. e ≡ ReplayError.Invalid → (request : Request A) → ReadsAs kept.now (Ok request) → ⊥) }
{
    let Some(endpoint) = endpoint_named(kept.request.as_str()) else {
        return Err(ReplayError::Invalid);
    };
    let name = kept.name.as_str();
    let body = kept.body.as_str().as_bytes();
    match decode(alloc, global, endpoint, name, body) {
        Ok(request) => Ok(request),
        Err(DecodeFault::Refused(_)) => Err(ReplayError::Invalid),
        Err(DecodeFault::NoMemory) => Err(ReplayError::NoMemory),
    }
}
