//! The command line `st_run --root DIGEST [--store FILE] [--compact] [NAME]...`.
ghost use Rattle.std.specs.Prelude.{◌≡◌, IfOk, IfErr, IsSome, codes, map, string_bytes};
ghost use Rattle.clap.specs.Words.{first_value, found_of};
ghost use Rattle.st_command_line.specs.Common.{RefusesWords};
ghost use Rattle.st_command_line.specs.RunArguments.{run_command, SaysRun};
ghost use Rattle.st_command_line.specs.inner.Commands.{Builds, IsParsed};

use crate::common::{check_store, compact, flag, named, names, parse_by, root, store};
use crate::fault::Fault;
use clap::{ArgMatches, Command};
use std::alloc::{AllocError, Global};

const ABOUT: &str = "Serves labelled points in place and time over standard input and output";

/// The arguments of `st_run`.
#[derive(Drop)]
pub struct RunArguments<'a> {
    /// The SHA-256 of root's secret in 64 hexadecimal digits; not checked here.
    pub digest: &'a str,
    /// The path of the file that keeps the store; without it the store is in memory alone.
    pub store: Option<&'a str>,
    /// Whether the store's list of changes is made short before anything is served; only with a store.
    pub compacts: bool,
    /// Root's authorizations; not checked here.
    pub names: Vec<&'a str>,
}

// The command.
fn command<'a>(alloc: Global) -> Result<Command<'a>, AllocError>
    ensures { IfOk result (Builds run_command) }
{
    let command = named(alloc, "st_run", ABOUT)
        .arg(root(alloc))?
        .arg(store(alloc))?
        .arg(compact(alloc))?
        .arg(names(alloc))?;
    Ok(command)
}

/// Parses the words.
pub fn parse<'a>(alloc: Global, words: &'a [String]) -> Result<ArgMatches<'a>, Fault>
    ensures ok { IfOk result (IsParsed run_command (map string_bytes words.now)) }
    ensures root { IfOk result (λ matches. IsSome (first_value (found_of matches) (codes "root"))) }
    ensures err { IfErr result (λ fault. RefusesWords run_command (map string_bytes words.now) fault) }
{
    parse_by(command(alloc)?, words)
}

impl<'a> RunArguments<'a> {
    /// Parses a command line, whose first word is the program's own name.
    pub fn read(alloc: Global, words: &'a [String]) -> Result<RunArguments<'a>, Fault>
        ensures ok { IfOk result (SaysRun (map string_bytes words.now)) }
        ensures err { IfErr result (λ fault. RefusesWords run_command (map string_bytes words.now) fault) }
    {
        let matches = parse(alloc, words)?;
        let Some(digest) = matches.get_str("root") else {
            unreachable!()
        };
        check_store(&matches)?;
        let store = matches.get_str("store");
        let compacts = flag(&matches, "compact");
        let names = matches.get_strs("NAME").unwrap_or(&[]);
        Ok(RunArguments {
            digest,
            store,
            compacts,
            names: Vec::from_slice(alloc, names)?,
        })
    }
}
