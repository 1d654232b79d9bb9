//! Serves one connection from a reader to a writer, by the arguments of a command line.
ghost use Rattle.std.specs.Prelude.{◌≡◌, ◌⊎◌, false, Some, None, List};
ghost use Rattle.st_text.specs.Texts.{Text};
ghost use Rattle.st_command.specs.Running.{Serves, IsServed, IsKept, Ran};
ghost use Rattle.st_command.specs.Opening.{Fails};
ghost use Rattle.st_connection.specs.Streams.{AreUntouched, streams};
ghost use Rattle.st_command_line.specs.Common.{RefusesWords, path_in};
ghost use Rattle.st_command_line.specs.RunArguments.{SaysRun, run_command};
ghost use Rattle.st_command_line.specs.Status.{exit_status_after};

use crate::keeper::Keeper;
use crate::kept::{StoreLocation, end_after, serve_kept};
use crate::opening::{replayed_for, service_for};
use st_command_line::{Fault, RunArguments, give_up};
use st_core::Seed;
use st_journal::Journal;
use st_service::{Service, Sink, Source};
use std::alloc::Global;
use std::io::Write;
use std::marker::Brand;
use std::time::Clock;

// Serves the connection.
fn converse<R: Source, W: Sink>(
    service: &mut Service,
    reader: &mut R,
    writer: &mut W,
) -> Result<(), Fault>
    requires reader_sound { R.has_failed reader.old ≡ false }
    requires writer_sound { W.has_failed writer.old ≡ false }
    ensures { Serves service.old service.new (streams R.Source W.Sink reader.old reader.new writer.old writer.new)
        (exit_status_after result) }
{
    let ended = service.serve(reader, writer);
    end_after(ended, None)
}

// Serves the connection from a store in memory.
fn run_in_memory<R: Source, W: Sink>(
    alloc: Global,
    seed: Seed,
    said: &RunArguments<'_>,
    reader: &mut R,
    writer: &mut W,
) -> Result<(), Fault>
    requires in_memory { path_in said.now.store ≡ None }
    requires reader_sound { R.has_failed reader.old ≡ false }
    requires writer_sound { W.has_failed writer.old ≡ false }
    ensures { (words : List Text) → SaysRun words said.now
        → IsServed words (streams R.Source W.Sink reader.old reader.new writer.old writer.new) (exit_status_after result)
        ⊎ Fails (RefusesWords run_command words)
        (AreUntouched (streams R.Source W.Sink reader.old reader.new writer.old writer.new)) (exit_status_after result) }
{
    let mut service = service_for(alloc, seed, said.digest, &said.names)?;
    converse(&mut service, reader, writer)
}

// Serves the connection from the store at a path.
fn run_kept<J: Journal + Drop, K: Keeper<J> + Drop, C: Clock, R: Source, W: Sink>(
    clock: &C,
    alloc: Global,
    seed: Seed,
    keeper: K,
    said: &RunArguments<'_>,
    path: &str,
    reader: &mut R,
    writer: &mut W,
) -> Result<(), Fault>
    requires named { path_in said.now.store ≡ Some path.now }
    requires reader_sound { R.has_failed reader.old ≡ false }
    requires writer_sound { W.has_failed writer.old ≡ false }
    ensures { (words : List Text) → SaysRun words said.now
        → Fails (RefusesWords run_command words)
        (AreUntouched (streams R.Source W.Sink reader.old reader.new writer.old writer.new)) (exit_status_after result)
        ⊎ IsKept (K.holds keeper) J.Journal words (streams R.Source W.Sink reader.old reader.new writer.old writer.new)
        (exit_status_after result) }
{
    let (state, opening) = replayed_for(alloc, seed, said.digest, &said.names)?;
    let location = StoreLocation { path, opening };
    serve_kept::<Brand, J, K, C, R, W>(clock, alloc, keeper, &location, state, reader, writer)
}

// Serves the connection from the state that the arguments open.
fn run<J: Journal + Drop, K: Keeper<J> + Drop, C: Clock, R: Source, W: Sink>(
    clock: &C,
    alloc: Global,
    seed: Seed,
    keeper: K,
    said: &RunArguments<'_>,
    reader: &mut R,
    writer: &mut W,
) -> Result<(), Fault>
    requires reader_sound { R.has_failed reader.old ≡ false }
    requires writer_sound { W.has_failed writer.old ≡ false }
    ensures { (words : List Text) → SaysRun words said.now
        → Ran (K.holds keeper) J.Journal words (streams R.Source W.Sink reader.old reader.new writer.old writer.new)
        (exit_status_after result) }
{
    match said.store {
        Some(path) => run_kept(clock, alloc, seed, keeper, said, path, reader, writer),
        None => {
            drop(keeper);
            run_in_memory(alloc, seed, said, reader, writer)
        }
    }
}

/// Opens the store that the arguments name, serves one connection from the reader to the writer, and
/// returns the exit status: 0 if the input ended between messages or a reply closed the connection;
/// 2 for a digest that is not 64 hexadecimal digits, or an invalid authorization; 3 if the input ended inside a message; 4
/// after a million reads; 5 if a read or a write failed; 6 if memory ran out. For each but 0 it
/// writes a message to `faults`. Where the arguments name no store, it is in memory. Where they name
/// one, the keeper opens its journal before anything is read: 5 and 8 to 13 say why it does not
/// (`Fault`), and then nothing is read or written. Each change is kept before it is answered. 7 says
/// that one was not, or may not have been, since the disk failed or refused; 6 comes also where one
/// found no memory to be kept or made.
pub fn run_with<J: Journal + Drop, K: Keeper<J> + Drop, C: Clock, R: Source, W: Sink, F: Write>(
    clock: &C,
    alloc: Global,
    seed: Seed,
    keeper: K,
    said: &RunArguments<'_>,
    reader: &mut R,
    writer: &mut W,
    faults: &mut F,
) -> u8
    requires reader_sound { R.has_failed reader.old ≡ false }
    requires writer_sound { W.has_failed writer.old ≡ false }
    ensures { (words : List Text) → SaysRun words said.now
        → Ran (K.holds keeper) J.Journal words (streams R.Source W.Sink reader.old reader.new writer.old writer.new)
        result }
{
    match run(clock, alloc, seed, keeper, said, reader, writer) {
        Ok(()) => 0,
        Err(fault) => give_up("st_run", fault, faults),
    }
}
