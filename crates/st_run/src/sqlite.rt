//! The store in a SQLite file.
ghost use Rattle.std.specs.Prelude.{◌≡◌, false, List};
ghost use Rattle.st_text.specs.Texts.{Text};
ghost use Rattle.st_command.specs.Running.{Ran};
ghost use Rattle.st_command_line.specs.RunArguments.{SaysRun};
ghost use Rattle.st_connection.specs.Streams.{streams};
ghost use Rattle.st_journal_file.specs.Opening.{files_hold};

use sqlite_std_file::Start;
use st_command::run_with;
use st_command_line::RunArguments;
use st_connection::{Sink, Source};
use st_core::Seed;
use st_journal::Journal;
use st_store_file::{SqliteKeeper, StoreFile};
use std::io::Write;

/// Serves one connection by the arguments of `st_run`, as `run_with` does: from a store in memory, or from the store in the SQLite
/// file that they name. `start` says what is supposed of a crash, and stands for what the files held.
pub fn run_files<S: Start, R: Source, W: Sink, F: Write>(
    rt: &HostRuntime,
    start: S,
    said: &RunArguments<'_>,
    reader: &mut R,
    writer: &mut W,
    faults: &mut F,
) -> u8
    requires reader_sound { R.has_failed reader.old ≡ false }
    requires writer_sound { W.has_failed writer.old ≡ false }
    ensures { (words : List Text) → SaysRun words said.now
        → Ran (files_hold S.Start) ⟦<StoreFile<S> as Journal>⟧ words
        (streams R.Source W.Sink reader.old reader.new writer.old writer.new)
        result }
{
    let keeper = SqliteKeeper::new(rt, "st_run", start);
    let seed = Seed::random(rt);
    run_with(rt, rt.alloc(), seed, keeper, said, reader, writer, faults)
}
