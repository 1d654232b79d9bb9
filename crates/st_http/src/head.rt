//! The head of a request: its request line and its fields (RFC 9112, "Request Line" and "Field Syntax").
ghost use Rattle.std.specs.Prelude.{◌≡◌, [], ◌≤◌, ◌<◌, ◌↔◌, ◌++◌, ℕ, List, length, IsTrue, IfSome, IfNone};
ghost use Rattle.std.specs.Prelude.{position};
ghost use Rattle.httparse.specs.Grammar.{AllPass, is_uri_byte, EndsInTarget, LineEnd, print_end, print_blank};
ghost use Rattle.httparse.specs.Spans.{RequestOverflows};
ghost use Rattle.st_http.specs.Head.{IsBare};
ghost use Rattle.st_http.specs.inner.Windows.{Answers, StartsInLine, BeginsWithMethod, ends_method};

use httparse::spans::{EMPTY_HEADER_SPAN, HeaderSpan, RequestSpans, parse_request};
use httparse::{Error, Status, is_method_token, is_uri_token};

/// The most bytes of a head, with the empty lines before it.
pub const HEAD_LIMIT: usize = 8192;

/// The most fields of a head.
pub const FIELD_LIMIT: usize = 64;

// A field has at least three bytes, so a window of `HEAD_LIMIT` bytes holds no more.
const FIELDS_IN_WINDOW: usize = 2730;

// What a window holds.
#[derive(Clone, Copy)]
pub(crate) enum HeadRead {
    // A whole head, at its start.
    Whole(RequestSpans),
    // A whole head with too many fields, at its start.
    Crowded,
    // The beginning of a head.
    Begun,
    // Bytes that cannot become a head.
    Hopeless,
}

// The text after a line end.
fn after_line_end(text: &[u8]) -> Option<&[u8]>
    ensures found { IfSome result (λ rest. (end : LineEnd) × (text.now ≡ print_end end ++ rest.now)) }
    ensures shorter { IfSome result (λ rest. length rest.now < length text.now) }
    ensures missing { IfNone result (StartsInLine text.now) }
{
    if let [b'\n', rest @ ..] = text {
        return Some(rest);
    }
    if let [b'\r', b'\n', rest @ ..] = text {
        return Some(rest);
    }
    None
}

// The text after its empty lines.
fn after_empty_lines(text: &[u8]) -> &[u8]
    ensures blank { (blank : List LineEnd) × (text.now ≡ print_blank blank ++ result.now) }
    ensures line { StartsInLine result.now }
{
    match after_line_end(text) {
        Some(rest) => after_empty_lines(rest),
        None => text,
    }
}

// Where the bytes of a method end.
fn method_end(text: &[u8]) -> Option<usize>
    ensures { result ≡ position ends_method text.now }
{
    text.iter().position(|b| !is_method_token(*b))
}

// The text after a method and a space.
fn after_method(text: &[u8]) -> Option<&[u8]>
    ensures found { IfSome result (λ target. (method : List ℕ) × BeginsWithMethod text.now method target.now) }
    ensures missing { IfNone result ((method target : List ℕ) → ¬ (BeginsWithMethod text.now method target)) }
{
    match method_end(text) {
        Some(space) if space > 0 && text[space] == b' ' => Some(&text[space + 1..]),
        _ => None,
    }
}

// Whether the text may be the beginning of a target.
fn is_open_target(text: &[u8]) -> bool
    ensures { IsTrue result ↔ AllPass is_uri_byte text.now }
{
    text.iter().all(|b| is_uri_token(*b))
}

// Whether the text ends inside a request target.
fn ends_in_target(text: &[u8]) -> bool
    ensures { IsTrue result ↔ EndsInTarget text.now }
{
    match after_method(after_empty_lines(text)) {
        Some(target) => is_open_target(target),
        None => false,
    }
}

// Whether the first word of the text is HEAD.
pub(crate) fn is_bare(text: &[u8]) -> bool
    ensures { IsTrue result ↔ IsBare text.now }
{
    after_empty_lines(text).starts_with(b"HEAD ")
}

// Reads a window whose head, if it has one, has more than `FIELD_LIMIT` fields.
#[cold]
fn read_crowded(window: &[u8]) -> HeadRead
    requires within { length window.now ≤ HEAD_LIMIT }
    requires crowded { RequestOverflows FIELD_LIMIT window.now }
    ensures { Answers window.now [] result }
{
    let mut headers = [EMPTY_HEADER_SPAN; FIELDS_IN_WINDOW];
    match parse_request(window, &mut headers) {
        Ok(Status::Complete(_)) => HeadRead::Crowded,
        Ok(Status::Partial) => HeadRead::Begun,
        Err(Error::TooManyHeaders) => unreachable!(),
        Err(_) if ends_in_target(window) => HeadRead::Begun,
        Err(_) => HeadRead::Hopeless,
    }
}

// Reads the head at the start of a window, and writes where its fields stand.
pub(crate) fn read_head(window: &[u8], headers: &mut [HeaderSpan; FIELD_LIMIT]) -> HeadRead
    requires { length window.now ≤ HEAD_LIMIT }
    ensures { Answers window.now headers.new result }
{
    match parse_request(window, headers) {
        Ok(Status::Complete(head)) => HeadRead::Whole(head),
        Ok(Status::Partial) => HeadRead::Begun,
        Err(Error::TooManyHeaders) => read_crowded(window),
        Err(_) if ends_in_target(window) => HeadRead::Begun,
        Err(_) => HeadRead::Hopeless,
    }
}
