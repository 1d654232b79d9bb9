//! A server at a port or a socket, by the arguments of a command line.
ghost use Rattle.std.specs.Prelude.{List};
ghost use Rattle.st_text.specs.Texts.{Text};
ghost use Rattle.st_server.specs.Running.{RunsServer};
ghost use Rattle.st_command_line.specs.ServedArguments.{SaysServed};
ghost use Rattle.st_command_line.specs.Status.{exit_status_after};

use crate::kept::run_kept;
use crate::memory::run_in_memory;
use st_command::Keeper;
use st_command_line::{Fault, ServedArguments, give_up};
use st_core::Seed;
use st_journal::ReadBack;
use st_journal_copy::Copier;
use st_server_peer::{Client, Listens};
use st_server_workers::Binds;
use std::alloc::Global;
use std::fs::Files;
use std::io::{Eprint, Write};
use std::net::{Net, TcpListener, TcpStream};
use std::sync::Wait;
use std::thread::Threads;
use std::time::Clock;

// Serves from memory or from a store.
fn run<
    J: ReadBack + Drop + Send,
    K: Keeper<J> + Drop,
    L: Copier + Drop + Send,
    C: Client + Send + Drop,
    N: Binds + Listens<Accepted = C> + Sync + Drop,
    R: Net<Listener = TcpListener, Stream = TcpStream>
        + Files
        + Threads
        + Wait
        + Clock
        + Eprint
        + Sync,
    O: Write,
>(
    rt: &R,
    alloc: Global,
    seed: Seed,
    keeper: K,
    copier: L,
    said: &ServedArguments<'_>,
    output: &mut O,
) -> Result<(), Fault>
    ensures { (words : List Text) → SaysServed words said.now
        → RunsServer C.call (K.holds keeper) J.Journal
        words (O.contents output.old) (O.contents output.new) (exit_status_after result) }
{
    match said.store {
        Some(path) => run_kept::<J, K, L, C, N, R, O>(
            rt, alloc, seed, keeper, copier, said, path, output,
        ),
        None => {
            drop(keeper);
            drop(copier);
            run_in_memory::<L, C, N, R, O>(rt, alloc, seed, said, output)
        }
    }
}

/// Opens the store that the arguments name, binds the port or the socket, tells `listening` and
/// which, serves connections by as many workers as they say, each on a thread of its own, over two
/// copies of the store, tells `served` and their number, and gives the status: 0 after so many connections as
/// the arguments say; 2 where the digest is not 64 hexadecimal digits, or a name is no authorization; 5 where the port or the socket was not bound, a connection was not accepted, or the output took no
/// more; 6 where there was no memory, no place or no thread. Each but 0 has its text in `faults`. Where they name no store, it
/// is in memory. Where they name one, the keeper opens its journal before that: 5 and 8 to 13 say why it does not
/// (`Fault`). Each change is kept before it is answered, and 7 says that one was not, or may not have been. Where they name a
/// copy, the copier takes a turn when connections are served first, and after each time that they say, and a last one at the end;
/// standard error is told when it begins to fail, and when it copies again.
pub fn serve_with<
    J: ReadBack + Drop + Send,
    K: Keeper<J> + Drop,
    L: Copier + Drop + Send,
    C: Client + Send + Drop,
    N: Binds + Listens<Accepted = C> + Sync + Drop,
    R: Net<Listener = TcpListener, Stream = TcpStream>
        + Files
        + Threads
        + Wait
        + Clock
        + Eprint
        + Sync,
    O: Write,
    F: Write,
>(
    rt: &R,
    alloc: Global,
    seed: Seed,
    keeper: K,
    copier: L,
    said: &ServedArguments<'_>,
    output: &mut O,
    faults: &mut F,
) -> u8
    ensures { (words : List Text) → SaysServed words said.now
        → RunsServer C.call (K.holds keeper) J.Journal words (O.contents output.old) (O.contents output.new) result }
{
    match run::<J, K, L, C, N, R, O>(rt, alloc, seed, keeper, copier, said, output) {
        Ok(()) => 0,
        Err(fault) => give_up("st_served", fault, faults),
    }
}
