//! Making the list of a store short, where the arguments of a command line ask for it.
ghost use Rattle.std.specs.Prelude.{◌≡◌, ◌⊎◌, None, Ok, IfOk, IfErr, List};
ghost use Rattle.sqlite_wal.specs.Files.{image_at};
ghost use Rattle.st_text.specs.Texts.{Text};
ghost use Rattle.st_command_line.specs.Common.{RefusesWords};
ghost use Rattle.st_command_line.specs.RunArguments.{SaysRun, run_command};
ghost use Rattle.st_command_line.specs.ServedArguments.{RefusesServedWords, SaysServed, served_command};
ghost use Rattle.st_journal_file.specs.Opening.{HoldStore};
ghost use Rattle.st_store_file.specs.Asking.{IsNotDone, Shortens};

use crate::asked::{Asked, shorten_asked};
use crate::keeper::StoreFile;
use sqlite_std_file::Start;
use st_command_line::{Fault, RunArguments, ServedArguments};
use st_journal::Journal;
use std::io::Write;

/// Makes the list of the store short where the arguments of `st_run` ask for it, and says on `faults` how many changes it had and has.
/// The journal is open then, and holds the files until it is let go. `start` says what is supposed of a crash, and stands for what the
/// files held.
pub fn shorten_for_run<S: Start, F: Write>(
    rt: &HostRuntime,
    start: S,
    said: &RunArguments<'_>,
    faults: &mut F,
) -> Result<Option<StoreFile<S>>, Fault>
    ensures ok { IfOk result (λ journal. (words : List Text) → SaysRun words said.now
        → Shortens (HoldStore (image_at S.Start)) ⟦<StoreFile<S> as Journal>⟧
        run_command words journal) }
    ensures unasked { (result ≡ Ok None) → F.contents faults.new ≡ F.contents faults.old }
    ensures err { IfErr result (λ fault. (words : List Text) → SaysRun words said.now
        → RefusesWords run_command words fault ⊎ IsNotDone run_command words fault) }
{
    let asked = Asked {
        program: "st_run",
        compacts: said.compacts,
        store: said.store,
        digits: said.digest,
        names: said.names.as_slice(),
    };
    shorten_asked(rt, start, &asked, faults)
}

/// The same by the arguments of `st_served`.
pub fn shorten_for_served<S: Start, F: Write>(
    rt: &HostRuntime,
    start: S,
    said: &ServedArguments<'_>,
    faults: &mut F,
) -> Result<Option<StoreFile<S>>, Fault>
    ensures ok { IfOk result (λ journal. (words : List Text) → SaysServed words said.now
        → Shortens (HoldStore (image_at S.Start)) ⟦<StoreFile<S> as Journal>⟧
        served_command words journal) }
    ensures unasked { (result ≡ Ok None) → F.contents faults.new ≡ F.contents faults.old }
    ensures err { IfErr result (λ fault. (words : List Text) → SaysServed words said.now
        → RefusesServedWords words fault ⊎ IsNotDone served_command words fault) }
{
    let asked = Asked {
        program: "st_served",
        compacts: said.compacts,
        store: said.store,
        digits: said.digest,
        names: said.names.as_slice(),
    };
    shorten_asked(rt, start, &asked, faults)
}
