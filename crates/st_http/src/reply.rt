//! The head of a reply (RFC 9112, "Status Line" and "Field Syntax").
ghost use Rattle.std.specs.Prelude.{◌≡◌, ◌++◌, ◌↔◌, IfOk, OnOk, OnErr, IsSome, option_map, codes, unwrap_or, decimal};
ghost use Rattle.http.specs.StatusCode.{reason_phrase, status_text};
ghost use Rattle.st_http.specs.Reply.{status_line, allow_line, challenge_line, length_line, close_line, head_text};
ghost use Rattle.st_http.specs.inner.Growth.{GrowsTo};

use http::StatusCode;
use itoa::Buffer;
use std::alloc::{AllocError, Allocator};

// Writes a number's digits.
fn push_number<A: Allocator + Copy>(out: &mut Vec<u8, A>, number: usize) -> Result<(), AllocError>
    ensures wrote { OnOk result (out.new.items ≡ out.old.items ++ decimal number) }
    ensures grows { GrowsTo out.old.items out.new.items }
{
    let mut digits = Buffer::new();
    out.extend_from_slice(digits.format(number).as_bytes())
}

// The phrase of a status code.
fn phrase(status: StatusCode) -> &'static str
    ensures { result.now ≡ unwrap_or (reason_phrase status) (codes "<unknown status code>") }
{
    match status.canonical_reason() {
        Some(phrase) => phrase,
        None => "<unknown status code>",
    }
}

// Writes a status code and its phrase.
fn push_status<A: Allocator + Copy>(
    out: &mut Vec<u8, A>,
    status: StatusCode,
) -> Result<(), AllocError>
    ensures wrote { OnOk result (out.new.items ≡ out.old.items ++ status_text status) }
    ensures grows { GrowsTo out.old.items out.new.items }
{
    push_number(out, usize::from(status.as_u16()))?;
    out.extend_from_slice(b" ")?;
    out.extend_from_slice(phrase(status).as_bytes())?;
    Ok(())
}

// Writes the status line.
fn push_status_line<A: Allocator + Copy>(
    out: &mut Vec<u8, A>,
    status: StatusCode,
) -> Result<(), AllocError>
    ensures wrote { OnOk result (out.new.items ≡ out.old.items ++ status_line status) }
    ensures grows { GrowsTo out.old.items out.new.items }
{
    out.extend_from_slice(b"HTTP/1.1 ")?;
    push_status(out, status)?;
    out.extend_from_slice(b"\r\n")?;
    Ok(())
}

// Writes the Allow field.
fn push_allow<A: Allocator + Copy>(
    out: &mut Vec<u8, A>,
    allow: Option<&str>,
) -> Result<(), AllocError>
    ensures wrote { OnOk result (out.new.items ≡ out.old.items ++ allow_line (option_map (λ m. m.now) allow.entry)) }
    ensures grows { GrowsTo out.old.items out.new.items }
{
    if let Some(methods) = allow {
        out.extend_from_slice(b"Allow: ")?;
        out.extend_from_slice(methods.as_bytes())?;
        out.extend_from_slice(b"\r\n")?;
    }
    Ok(())
}

// Writes the field that asks for a token.
fn push_challenge<A: Allocator + Copy>(
    out: &mut Vec<u8, A>,
    status: StatusCode,
) -> Result<(), AllocError>
    ensures wrote { OnOk result (out.new.items ≡ out.old.items ++ challenge_line status) }
    ensures grows { GrowsTo out.old.items out.new.items }
{
    if status.as_u16() == 401 {
        out.extend_from_slice(b"WWW-Authenticate: Bearer realm=\"points\"\r\n")?;
    }
    Ok(())
}

// Writes the Content-Length field.
fn push_length<A: Allocator + Copy>(
    out: &mut Vec<u8, A>,
    length: Option<usize>,
) -> Result<(), AllocError>
    ensures wrote { OnOk result (out.new.items ≡ out.old.items ++ length_line length) }
    ensures grows { GrowsTo out.old.items out.new.items }
{
    if let Some(length) = length {
        out.extend_from_slice(b"Content-Length: ")?;
        push_number(out, length)?;
        out.extend_from_slice(b"\r\n")?;
    }
    Ok(())
}

// Writes the field that says that the connection is closed.
fn push_close<A: Allocator + Copy>(out: &mut Vec<u8, A>, close: bool) -> Result<(), AllocError>
    ensures wrote { OnOk result (out.new.items ≡ out.old.items ++ close_line close) }
    ensures grows { GrowsTo out.old.items out.new.items }
{
    if close {
        out.extend_from_slice(b"Connection: close\r\n")?;
    }
    Ok(())
}

#[tactic(auto, unfolding(crate::specs::Reply::head_text))]
// Writes a head, or the beginning of one when memory runs out.
fn push_lines<A: Allocator + Copy>(
    out: &mut Vec<u8, A>,
    status: StatusCode,
    allow: Option<&str>,
    length: Option<usize>,
    close: bool,
) -> Result<(), AllocError>
    ensures wrote { OnOk result (out.new.items ≡ out.old.items ++ head_text status (option_map (λ m. m.now) allow.entry) length close) }
    ensures grows { GrowsTo out.old.items out.new.items }
{
    push_status_line(out, status)?;
    push_allow(out, allow)?;
    push_challenge(out, status)?;
    out.extend_from_slice(b"Content-Type: application/json\r\n")?;
    push_length(out, length)?;
    push_close(out, close)?;
    out.extend_from_slice(b"\r\n")?;
    Ok(())
}

/// Appends the head of a reply: its status, the methods of the path (with 405, and with no other status), the length of
/// its body in bytes (none for a HEAD request), and whether the connection is closed.
/// If memory runs out, nothing is appended.
pub fn push_head<A: Allocator + Copy>(
    out: &mut Vec<u8, A>,
    status: StatusCode,
    allow: Option<&str>,
    length: Option<usize>,
    close: bool,
) -> Result<(), AllocError>
    requires { IsSome allow ↔ (status ≡ 405) }
    ensures wrote { OnOk result (out.new.items ≡ out.old.items ++ head_text status (option_map (λ m. m.now) allow.entry) length close) }
    ensures err { OnErr result (out.new.items ≡ out.old.items) }
{
    let start = out.len();
    let written = push_lines(out, status, allow, length, close);
    if written.is_err() {
        out.truncate(start);
    }
    written
}

/// The head of a reply, as `push_head` writes it.
pub fn head<A: Allocator + Copy>(
    alloc: A,
    status: StatusCode,
    allow: Option<&str>,
    length: Option<usize>,
    close: bool,
) -> Result<Vec<u8, A>, AllocError>
    requires { IsSome allow ↔ (status ≡ 405) }
    ensures { IfOk result (λ head. head.items ≡ head_text status (option_map (λ m. m.now) allow.entry) length close) }
{
    let mut out = Vec::new(alloc);
    push_head(&mut out, status, allow, length, close)?;
    Ok(out)
}
