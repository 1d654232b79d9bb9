//! Exchanges, each with a fresh service, and their answers.

use crate::fault::Fault;
use crate::request::{input_of, is_connection};
use crate::service::{answers_of, opened};
use st_service::Service;
use std::alloc::Global;

// An exchange that was asked, and what the user u was answered.
#[derive(Drop)]
struct Asked<'t> {
    name: &'t str,
    output: Vec<u8>,
}

// Whether u got these bytes in the exchange of this name too.
fn likeness(asked: &[Asked<'_>], name: &str, output: &[u8]) -> Result<&'static str, Fault> {
    match asked.iter().find(|one| one.name == name) {
        Some(one) if one.output.as_slice() == output => Ok("alike"),
        Some(_) => Ok("different"),
        None => Err(Fault::NoExchange),
    }
}

// Serves the lines of a connection, and writes the answers. Comments alone are passed over.
fn answer_connection(
    alloc: Global,
    service: &mut Service,
    lines: &str,
    answers_to_u: &mut Vec<u8>,
    output: &mut Vec<u8>,
) -> Result<(), Fault> {
    if !is_connection(lines) {
        return Ok(());
    }
    let input = input_of(alloc, lines)?;
    let answers = answers_of(alloc, service, input.as_slice())?;
    if lines.starts_with("u ") {
        answers_to_u.extend_from_slice(answers.as_slice())?;
    }
    output.extend_from_slice(answers.as_slice())?;
    Ok(())
}

// Writes whether u got these bytes in the exchange of this name too.
fn write_likeness(
    asked: &[Asked<'_>],
    name: &str,
    answers_to_u: &[u8],
    output: &mut Vec<u8>,
) -> Result<(), Fault> {
    let likeness = likeness(asked, name, answers_to_u)?;
    output.extend_from_slice(likeness.as_bytes())?;
    output.push(b'\n')?;
    Ok(())
}

// Asks a part of an exchange: a connection, or whether another exchange is like this one.
fn answer_part(
    alloc: Global,
    service: &mut Service,
    lines: &str,
    asked: &[Asked<'_>],
    answers_to_u: &mut Vec<u8>,
    output: &mut Vec<u8>,
) -> Result<(), Fault> {
    match lines.strip_prefix("= ") {
        Some(name) => write_likeness(asked, name, answers_to_u.as_slice(), output),
        None => answer_connection(alloc, service, lines, answers_to_u, output),
    }
}

// Asks the parts of an exchange.
fn answer_parts(
    alloc: Global,
    service: &mut Service,
    parts: &str,
    asked: &[Asked<'_>],
    answers_to_u: &mut Vec<u8>,
    output: &mut Vec<u8>,
) -> Result<(), Fault> {
    for part in parts.split("\n\n") {
        answer_part(
            alloc,
            service,
            part.trim_matches('\n'),
            asked,
            answers_to_u,
            output,
        )?;
    }
    Ok(())
}

// Asks the parts of an exchange, and gives what u was answered.
fn answers_to_u(
    alloc: Global,
    (names, parts): (&str, &str),
    asked: &[Asked<'_>],
    output: &mut Vec<u8>,
) -> Result<Vec<u8>, Fault> {
    let mut answers_to_u = Vec::new(alloc);
    let mut service = opened(alloc, names)?;
    answer_parts(alloc, &mut service, parts, asked, &mut answers_to_u, output)?;
    Ok(answers_to_u)
}

// Writes the head of an exchange.
fn write_head(head: &str, output: &mut Vec<u8>) -> Result<(), Fault> {
    output.extend_from_slice(b"# ")?;
    output.extend_from_slice(head.as_bytes())?;
    output.push(b'\n')?;
    Ok(())
}

// Asks an exchange: writes its head, and then what its connections are answered.
fn answer<'t>(
    alloc: Global,
    exchange: &'t str,
    asked: &[Asked<'t>],
    output: &mut Vec<u8>,
) -> Result<Asked<'t>, Fault> {
    let (head, parts) = exchange.split_once('\n').unwrap_or((exchange, ""));
    let (name, names) = head.split_once(" / ").unwrap_or((head, ""));
    write_head(head, output)?;
    Ok(Asked {
        name,
        output: answers_to_u(alloc, (names, parts), asked, output)?,
    })
}

/// Asks the exchanges of a text one after another, and adds their answers. What stands before the first is passed over.
pub fn answer_all(alloc: Global, text: &str, output: &mut Vec<u8>) -> Result<(), Fault> {
    let mut asked = Vec::new(alloc);
    for exchange in text.split("\n# ").skip(1) {
        let one = answer(alloc, exchange, asked.as_slice(), output)?;
        asked.push(one)?;
    }
    Ok(())
}
