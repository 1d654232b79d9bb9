//! The options of `st_served`, and the parsing of its words.
ghost use Rattle.std.specs.Prelude.{◌≡◌, IfOk, IfErr, IsSome, codes, map, pos, string_bytes, true};
ghost use Rattle.clap.specs.Built.{FitsChain};
ghost use Rattle.clap.specs.Words.{first_value, found_of, rule_of};
ghost use Rattle.st_command_line.specs.Common.{RefusesWords, number_rule, option_rule};
ghost use Rattle.st_command_line.specs.ServedArguments.{served_command};
ghost use Rattle.st_command_line.specs.inner.Commands.{Builds, IsParsed, is_own};

use crate::common::{compact, named, names, option, parse_by, root, store};
use crate::fault::Fault;
use clap::builder::ValueParser;
use clap::{Arg, ArgAction, ArgMatches, Command};
use std::alloc::{AllocError, Global};

const ABOUT: &str = "Serves labelled points in place and time at a TCP port or a Unix socket";

// An option with this name, which takes a number from the least to the most.
fn number<'a>(
    alloc: Global,
    name: &'a str,
    value: &'a str,
    help: &'a str,
    least: i64,
    most: i64,
) -> Arg<'a>
    requires own { is_own name.now ≡ true }
    ensures id { result.id.now ≡ name.entry.now }
    ensures rule { rule_of result ≡ number_rule name.entry.now least most }
    ensures fits { FitsChain result }
{
    Arg::new(alloc, name)
        .long(name)
        .value_name(value)
        .help(help)
        .action(ArgAction::Set)
        .value_parser(ValueParser::signed(least, most))
}

// The option `--port P`.
fn port<'a>(alloc: Global) -> Arg<'a>
    ensures id { result.id.now ≡ codes "port" }
    ensures rule { rule_of result ≡ number_rule (codes "port") (pos 1) (pos 65535) }
    ensures fits { FitsChain result }
{
    number(
        alloc,
        "port",
        "P",
        "The TCP port, 1 to 65535; this or --socket is wanted",
        1,
        65535,
    )
}

// The option `--socket PATH`.
fn socket<'a>(alloc: Global) -> Arg<'a>
    ensures id { result.id.now ≡ codes "socket" }
    ensures rule { rule_of result ≡ option_rule (codes "socket") }
    ensures fits { FitsChain result }
{
    option(
        alloc,
        "socket",
        "PATH",
        "The Unix socket to listen at in place of a port, for this account and its group",
    )
}

// The option `--copy FILE`.
fn copy<'a>(alloc: Global) -> Arg<'a>
    ensures id { result.id.now ≡ codes "copy" }
    ensures rule { rule_of result ≡ option_rule (codes "copy") }
    ensures fits { FitsChain result }
{
    option(
        alloc,
        "copy",
        "FILE",
        "A copy of the store, a SQLite file of its own that follows; wants --store",
    )
}

// The option `--copy-every SECONDS`.
fn copy_every<'a>(alloc: Global) -> Arg<'a>
    ensures id { result.id.now ≡ codes "copy-every" }
    ensures rule { rule_of result ≡ number_rule (codes "copy-every") (pos 1) (pos 3600) }
    ensures fits { FitsChain result }
{
    number(
        alloc,
        "copy-every",
        "SECONDS",
        "How long the copy stays behind, 1 to 3600 seconds; without it 60",
        1,
        3600,
    )
}

// The option `--connections N`.
fn connections<'a>(alloc: Global) -> Arg<'a>
    ensures id { result.id.now ≡ codes "connections" }
    ensures rule { rule_of result ≡ number_rule (codes "connections") (pos 0) (pos 1000) }
    ensures fits { FitsChain result }
{
    number(
        alloc,
        "connections",
        "N",
        "End after so many connections, 0 to 1000",
        0,
        1000,
    )
}

// The option `--workers N`.
fn workers<'a>(alloc: Global) -> Arg<'a>
    ensures id { result.id.now ≡ codes "workers" }
    ensures rule { rule_of result ≡ number_rule (codes "workers") (pos 1) (pos 256) }
    ensures fits { FitsChain result }
{
    number(
        alloc,
        "workers",
        "N",
        "The threads that serve connections, 1 to 256; without it 64, or 2 with --connections",
        1,
        256,
    )
}

// The option `--timeout SECONDS`.
fn timeout<'a>(alloc: Global) -> Arg<'a>
    ensures id { result.id.now ≡ codes "timeout" }
    ensures rule { rule_of result ≡ number_rule (codes "timeout") (pos 1) (pos 3600) }
    ensures fits { FitsChain result }
{
    number(
        alloc,
        "timeout",
        "SECONDS",
        "How long a message or a reply may take, 1 to 3600 seconds; without it 30",
        1,
        3600,
    )
}

// The option `--idle SECONDS`.
fn idle<'a>(alloc: Global) -> Arg<'a>
    ensures id { result.id.now ≡ codes "idle" }
    ensures rule { rule_of result ≡ number_rule (codes "idle") (pos 1) (pos 3600) }
    ensures fits { FitsChain result }
{
    number(
        alloc,
        "idle",
        "SECONDS",
        "How long a client may wait with its next message, 1 to 3600 seconds; without it as --timeout",
        1,
        3600,
    )
}

// The option `--listen ADDRESS`.
fn listen<'a>(alloc: Global) -> Arg<'a>
    ensures id { result.id.now ≡ codes "listen" }
    ensures rule { rule_of result ≡ option_rule (codes "listen") }
    ensures fits { FitsChain result }
{
    option(
        alloc,
        "listen",
        "ADDRESS",
        "The IPv4 address to listen at with --port; without it 127.0.0.1",
    )
}

// The command.
fn command<'a>(alloc: Global) -> Result<Command<'a>, AllocError>
    ensures { IfOk result (Builds served_command) }
{
    let command = named(alloc, "st_served", ABOUT)
        .arg(root(alloc))?
        .arg(port(alloc))?
        .arg(socket(alloc))?
        .arg(store(alloc))?
        .arg(compact(alloc))?
        .arg(copy(alloc))?
        .arg(copy_every(alloc))?
        .arg(connections(alloc))?
        .arg(workers(alloc))?
        .arg(timeout(alloc))?
        .arg(idle(alloc))?
        .arg(listen(alloc))?
        .arg(names(alloc))?;
    Ok(command)
}

/// Parses the words.
pub fn parse<'a>(alloc: Global, words: &'a [String]) -> Result<ArgMatches<'a>, Fault>
    ensures ok { IfOk result (IsParsed served_command (map string_bytes words.now)) }
    ensures root { IfOk result (λ matches. IsSome (first_value (found_of matches) (codes "root"))) }
    ensures err { IfErr result (λ fault. RefusesWords served_command (map string_bytes words.now) fault) }
{
    parse_by(command(alloc)?, words)
}
