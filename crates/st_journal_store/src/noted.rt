//! What is kept of a change.
ghost use Rattle.std.specs.Prelude.{◌≡◌, ◌⊎◌, true, ℕ, List, [], IfOk, IsUtf8};
ghost use Rattle.st_http.specs.declared.routes.Endpoint.{Endpoint as Line};
ghost use Rattle.st_http.specs.Routes.{RepresentsRoute, found};
ghost use Rattle.st_json.specs.Bodies.{has_body};
ghost use Rattle.st_json_reply.specs.Replies.{text_of};
ghost use Rattle.st_journal_record.specs.Records.{IsRecordOf};
ghost use Rattle.st_service.specs.Answers.{IsFound};

use st_core::Reply;
use st_http::message::Message;
use st_http::routes::Route;
use st_journal::Record;
use st_journal_record::{RequestParts, record_of};
use st_json_reply::encode;
use std::alloc::{AllocError, Global};
use std::str::from_utf8;
use std::time::Clock;

// Milliseconds since 1970-01-01 00:00 UTC, and 0 where the clock gives no time.
fn milliseconds<C: Clock>(clock: &C) -> i64 {
    match clock.since_1970() {
        Ok(time) => i64::try_from(time.as_millis()).unwrap_or(i64::MAX),
        Err(_) => 0,
    }
}

// The record of a message by this user, which asks a change that gets this reply. It has nothing of the token but the user.
pub(crate) fn noted<C: Clock>(
    alloc: Global,
    clock: &C,
    message: &Message<'_>,
    user: &str,
    reply: &Reply,
) -> Result<Record, AllocError>
    requires is_found { IsFound message.now }
    requires text { (endpoint : Line) (name : List ℕ) → RepresentsRoute message.now.route (found endpoint name) → has_body endpoint ≡ true
        → IsUtf8 message.now.body.now }
    ensures made { IfOk result (λ r. (endpoint : Line) (name : List ℕ) → RepresentsRoute message.now.route (found endpoint name)
        → IsRecordOf r user.now endpoint name message.now.body.now) }
    ensures told { IfOk result (λ r. (r.result ≡ text_of reply.now) ⊎ (r.result ≡ [])) }
{
    let Route::Found(endpoint, name) = message.route else {
        unreachable!()
    };
    let text = encode(alloc, reply)?;
    let told = from_utf8(text.as_slice()).unwrap_or("");
    let parts = RequestParts {
        user,
        endpoint,
        name,
        body: message.body,
    };
    record_of(alloc, milliseconds(clock), parts, told)
}
