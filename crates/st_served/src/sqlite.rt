//! The store in a SQLite file.
ghost use Rattle.std.specs.Prelude.{List};
ghost use Rattle.st_text.specs.Texts.{Text};
ghost use Rattle.st_command_line.specs.ServedArguments.{SaysServed};
ghost use Rattle.st_server.specs.Running.{RunsServer};
ghost use Rattle.st_journal_file.specs.Opening.{files_hold};

use sqlite_std_file::Start;
use st_command_line::ServedArguments;
use st_core::Seed;
use st_journal::Journal;
use st_server::serve_with;
use st_server_peer::{Client, Listener};
use st_store_file::{SqliteCopier, SqliteKeeper, StoreFile};
use std::fs::Files;
use std::io::{Eprint, Write};
use std::net::{Net, TcpListener, TcpStream};
use std::sync::Wait;
use std::thread::Threads;
use std::time::Clock;

/// Serves connections by the arguments of `st_served`, as `serve_with` does: from a store in memory, or from the store in the SQLite
/// file that they name, which `files` opens. `start` says what is supposed of a crash, and stands for what the files held.
pub fn serve_files<
    R: Net<Listener = TcpListener, Stream = TcpStream>
        + Files
        + Threads
        + Wait
        + Clock
        + Eprint
        + Sync,
    S: Start + Send,
    O: Write,
    F: Write,
>(
    rt: &R,
    files: &HostRuntime,
    start: S,
    said: &ServedArguments<'_>,
    output: &mut O,
    faults: &mut F,
) -> u8
    ensures { (words : List Text) → SaysServed words said.now
        → RunsServer ⟦<TcpStream as Client>⟧.call (files_hold S.Start) ⟦<StoreFile<S> as Journal>⟧ words
        (O.contents output.old)
        (O.contents output.new) result }
{
    let keeper = SqliteKeeper::new(files, "st_served", start);
    let copier = SqliteCopier::new(files);
    let seed = Seed::random(files);
    serve_with::<_, _, _, TcpStream, Listener, _, _, _>(
        rt,
        files.alloc(),
        seed,
        keeper,
        copier,
        said,
        output,
        faults,
    )
}
