//! Laws of records.
ghost use Rattle.std.specs.Prelude.{◌≡◌, ℕ, List, true, Ok, IsUtf8};
ghost use Rattle.st_http.specs.declared.routes.Endpoint.{Endpoint};
ghost use Rattle.st_policy.specs.declared.request.Request.{Request};
ghost use Rattle.st_json.specs.Bodies.{Answer, Decoded, has_body};
ghost use Rattle.st_journal.specs.declared.record.Record.{Record};
ghost use Rattle.st_journal_record.specs.Records.{IsRecordOf, ReadsAs};

use std::alloc::Allocator;

/// The record of what a user asked is read as the same request, and as no other.
pub fn read_back<A: Allocator>()
    ensures same { (r : Record) (user name body : List ℕ) (endpoint : Endpoint) (answer : Answer A) → IsRecordOf r user endpoint name body
        → Decoded endpoint name body answer → ReadsAs r answer }
    ensures one { (r : Record) (a b : Answer A) → ReadsAs r a → ReadsAs r b → a ≡ b }
{}

/// A body that is read and makes a request is UTF-8.
pub fn requests_are_text<A: Allocator>()
    ensures { (endpoint : Endpoint) (name body : List ℕ) (request : Request A) → Decoded endpoint name body (Ok request)
        → has_body endpoint ≡ true → IsUtf8 body }
{}
