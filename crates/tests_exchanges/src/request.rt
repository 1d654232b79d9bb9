//! The lines of a connection, and the bytes that they ask by.

use crate::bytes::push_bytes;
use crate::fault::Fault;
use std::alloc::Global;
use std::io::Write;

// What stands behind a user's name in the token of a secret of 32 zero bytes.
const ZEROS: &str = ".0000000000000000000000000000000000000000000000000000000000000000";

// A request: a user's name or a whole token, the method, the path and the body.
#[derive(Clone, Copy)]
struct Request<'t> {
    asker: &'t str,
    method: &'t str,
    path: &'t str,
    body: &'t str,
}

// The request of a line, if it is one.
fn request_of(line: &str) -> Option<Request<'_>> {
    let (asker, rest) = line.split_once(' ')?;
    let (method, rest) = rest.split_once(' ')?;
    let (path, body) = rest.split_once(' ').unwrap_or((rest, ""));
    Some(Request {
        asker,
        method,
        path,
        body,
    })
}

// Appends the bytes of a request.
fn push_request(input: &mut Vec<u8>, request: &Request<'_>) -> Result<(), Fault> {
    let Request {
        asker,
        method,
        path,
        body,
    } = request;
    let secret = if asker.contains('.') { "" } else { ZEROS };
    write!(
        input,
        "{method} {path} HTTP/1.1\r\nHost: a\r\nAuthorization: Bearer {asker}{secret}\r\nContent-Length: {}\r\n\r\n{body}",
        body.len()
    )?;
    Ok(())
}

// How often, and what text, a line of bytes says.
fn bytes_of(line: &str) -> Option<(u32, &str)> {
    let (times, text) = line.strip_prefix('|')?.split_once(' ')?;
    if times.is_empty() {
        return Some((1, text));
    }
    Some((times.parse().ok()?, text))
}

// Appends the bytes of a text so many times.
fn push_times(input: &mut Vec<u8>, times: u32, text: &str) -> Result<(), Fault> {
    for _ in 0..times {
        push_bytes(input, text)?;
    }
    Ok(())
}

// Whether a line is there for its readers alone.
fn is_comment(line: &str) -> bool {
    line.starts_with("//")
}

// Appends what a line stands for.
fn push_line(input: &mut Vec<u8>, line: &str) -> Result<(), Fault> {
    if is_comment(line) {
        return Ok(());
    }
    if let Some((times, text)) = bytes_of(line) {
        return push_times(input, times, text);
    }
    let Some(request) = request_of(line) else {
        return Err(Fault::BadLine);
    };
    push_request(input, &request)
}

/// Whether the lines are a connection, with one line or more that is no comment.
pub fn is_connection(lines: &str) -> bool {
    lines.lines().any(|line| !is_comment(line))
}

/// The bytes that the lines of a connection stand for.
pub fn input_of(alloc: Global, lines: &str) -> Result<Vec<u8>, Fault> {
    let mut input = Vec::new(alloc);
    for line in lines.lines() {
        push_line(&mut input, line)?;
    }
    Ok(input)
}
