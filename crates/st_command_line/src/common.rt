//! What both command lines have: `--root DIGEST`, `--store FILE`, `--compact` and `[NAME]...`, the version, and how words are parsed.
ghost use Rattle.std.specs.Prelude.{◌≡◌, ◌⊎◌, [], None, IfOk, IfErr, IsSome, OnOk, List, codes, true, false, map, string_bytes};
ghost use Rattle.clap.specs.Built.{FitsChain, TakesValue};
ghost use Rattle.clap.specs.Words.{App, app_of, args_of, first_value, found_of, groups_of, new_app, rule_of};
ghost use Rattle.clap.specs.declared.builder.command.Command.TheViews.{out-Command as fields_of};
ghost use Rattle.st_text.specs.Texts.{Text};
ghost use Rattle.st_command_line.specs.Common.{NamesItsStore, RefusesWords};
ghost use Rattle.st_command_line.specs.Common.{option_rule, root_option, compact_flag, name_operand, with_version};
ghost use Rattle.st_command_line.specs.inner.Commands.{Builds, IsParsed, is_own, says_true};
ghost use Rattle.st_command_line.specs.declared.fault.Fault.TheVariants.{NotText, NoMemory};

use crate::VERSION;
use crate::fault::Fault;
use clap::{Arg, ArgAction, ArgMatches, Command};
use std::alloc::Global;
use std::env::Env;
use std::{env, io};

/// A command of this name, with the version of the programs, and what its help says that it does.
pub fn named<'a>(alloc: Global, name: &'a str, about: &'a str) -> Command<'a>
    ensures app { app_of result ≡ with_version (new_app name.entry.now) }
    ensures empty { (args_of result ≡ []) × (groups_of result ≡ []) }
    ensures local { (fields_of result).has_globals ≡ false }
    ensures negates { (fields_of result).subcommand_negates_reqs ≡ false }
{
    Command::new(alloc, name).version(VERSION).about(about)
}

/// The option `--root DIGEST`.
pub fn root<'a>(alloc: Global) -> Arg<'a>
    ensures id { result.id.now ≡ codes "root" }
    ensures rule { rule_of result ≡ root_option }
    ensures fits { FitsChain result }
    ensures takes { TakesValue result }
{
    Arg::new(alloc, "root")
        .long("root")
        .value_name("DIGEST")
        .help("The SHA-256 of root's secret, in 64 hexadecimal digits")
        .required(true)
        .action(ArgAction::Set)
}

/// An option with this name, which takes a value.
pub fn option<'a>(alloc: Global, name: &'a str, value: &'a str, help: &'a str) -> Arg<'a>
    requires own { is_own name.now ≡ true }
    ensures id { result.id.now ≡ name.entry.now }
    ensures rule { rule_of result ≡ option_rule name.entry.now }
    ensures fits { FitsChain result }
{
    Arg::new(alloc, name)
        .long(name)
        .value_name(value)
        .help(help)
        .action(ArgAction::Set)
}

/// The option `--store FILE`.
pub fn store<'a>(alloc: Global) -> Arg<'a>
    ensures id { result.id.now ≡ codes "store" }
    ensures rule { rule_of result ≡ option_rule (codes "store") }
    ensures fits { FitsChain result }
{
    option(
        alloc,
        "store",
        "FILE",
        "Keep the changes in this SQLite file, which is made where there is none",
    )
}

/// The flag `--compact`.
pub fn compact<'a>(alloc: Global) -> Arg<'a>
    ensures id { result.id.now ≡ codes "compact" }
    ensures rule { rule_of result ≡ compact_flag }
    ensures fits { FitsChain result }
{
    Arg::new(alloc, "compact")
        .long("compact")
        .help("Before anything is served, make the store's list of changes short; wants --store")
        .action(ArgAction::SetTrue)
}

/// The operands `[NAME]...`.
pub fn names<'a>(alloc: Global) -> Arg<'a>
    ensures id { result.id.now ≡ codes "NAME" }
    ensures rule { rule_of result ≡ name_operand }
    ensures fits { FitsChain result }
{
    Arg::new(alloc, "NAME")
        .help("An authorization of root")
        .action(ArgAction::Append)
}

/// Parses the words by a command.
pub fn parse_by<'a>(command: Command<'a>, words: &'a [String]) -> Result<ArgMatches<'a>, Fault>
    ensures ok { IfOk result (λ matches. (app : App) → Builds app command.entry → IsParsed app (map string_bytes words.now) matches) }
    ensures root { IfOk result (λ matches. (app : App) → Builds app command.entry
        → IsSome (first_value (found_of matches) (codes "root"))) }
    ensures err { IfErr result (λ fault. (app : App) → Builds app command.entry
        → RefusesWords app (map string_bytes words.now) fault) }
{
    Ok(command.try_get_matches_from(words)?)
}

/// Whether a flag is given.
pub fn flag(matches: &ArgMatches<'_>, id: &str) -> bool
    ensures { result ≡ says_true (first_value (found_of matches.now) id.now) }
{
    match matches.get_str(id) {
        Some(text) => text == "true",
        None => false,
    }
}

// Whether an option is given that wants a store.
fn wants_store(matches: &ArgMatches<'_>) -> bool
    ensures yes { result ≡ true → (says_true (first_value (found_of matches.now) (codes "compact")) ≡ true)
        ⊎ IsSome (first_value (found_of matches.now) (codes "copy")) }
    ensures no { result ≡ false → (says_true (first_value (found_of matches.now) (codes "compact")) ≡ false)
        × (first_value (found_of matches.now) (codes "copy") ≡ None) }
{
    if flag(matches, "compact") {
        return true;
    }
    match matches.get_str("copy") {
        Some(_) => true,
        None => false,
    }
}

/// Refuses words that want a store and name none.
pub fn check_store(matches: &ArgMatches<'_>) -> Result<(), Fault>
    ensures ok { OnOk result ((app : App) (words : List Text) → IsParsed app words matches.now → NamesItsStore app words) }
    ensures err { IfErr result (λ fault. (app : App) (words : List Text) → IsParsed app words matches.now
        → RefusesWords app words fault) }
{
    if !wants_store(matches) {
        return Ok(());
    }
    match matches.get_str("store") {
        Some(_) => Ok(()),
        None => Err(Fault::WantsStore),
    }
}

/// The words of the process's command line; the first is the program's own name. `NotText` if one is not UTF-8.
pub fn words_of<R: Env + AllocGlobal>(rt: &R) -> Result<Vec<String>, Fault>
    ensures { IfErr result (λ fault. (fault ≡ NotText) ⊎ (fault ≡ NoMemory)) }
{
    match env::args(rt) {
        Ok(words) => Ok(words.collect(rt.alloc())?),
        Err(error) => match error.kind() {
            io::ErrorKind::OutOfMemory => Err(Fault::NoMemory),
            _ => Err(Fault::NotText),
        },
    }
}
