//! The record of a request.
ghost use Rattle.std.specs.Prelude.{◌≡◌, true, IfOk, IsUtf8};
ghost use Rattle.st_json.specs.Bodies.{has_body};
ghost use Rattle.st_journal_record.specs.Records.{kept_body, IsRecordOf};

use crate::names::request_of;
use st_http::routes::Endpoint;
use st_journal::Record;
use st_json::has_body;
use st_text::Words;
use std::alloc::{AllocError, Global};
use std::str::from_utf8;

/// Who asked, and what a request was made of.
#[derive(Clone, Copy)]
pub struct RequestParts<'a> {
    /// The name of the user who asked.
    pub user: &'a str,
    pub endpoint: Endpoint,
    /// The name in the path; empty where it has none.
    pub name: &'a str,
    /// The body as it came.
    pub body: &'a [u8],
}

// The body as a record keeps it.
fn kept_body<'a>(endpoint: Endpoint, body: &'a [u8]) -> &'a str
    requires { has_body endpoint ≡ true → IsUtf8 body.now }
    ensures { result.now ≡ kept_body endpoint body.now }
{
    if !has_body(endpoint) {
        return "";
    }
    let Ok(text) = from_utf8(body) else {
        unreachable!();
    };
    text
}

/// The record of a request. `time` is in milliseconds since 1970-01-01 00:00 UTC, and `reply` is the body of the reply. A body that
/// is read has to be UTF-8, as each one is that makes a request (`law::requests_are_text`).
pub fn record_of(
    alloc: Global,
    time: i64,
    parts: RequestParts<'_>,
    reply: &str,
) -> Result<Record, AllocError>
    requires { has_body parts.endpoint ≡ true → IsUtf8 parts.body.now }
    ensures made { IfOk result (λ it.
        IsRecordOf it parts.entry.user.now parts.entry.endpoint parts.entry.name.now parts.entry.body.now) }
    ensures time { IfOk result (λ it. it.time ≡ time) }
    ensures told { IfOk result (λ it. it.result ≡ reply.now) }
{
    let user = Words::new(alloc, parts.user)?;
    let request = Words::new(alloc, request_of(parts.endpoint))?;
    let name = Words::new(alloc, parts.name)?;
    let body = Words::new(alloc, kept_body(parts.endpoint, parts.body))?;
    let result = Words::new(alloc, reply)?;
    Ok(Record {
        time,
        user,
        request,
        name,
        body,
        result,
    })
}
