//! What a command line says of a short list, whichever program reads it.
ghost use Rattle.std.specs.Prelude.{◌≡◌, ◌⊎◌, None, Ok, IfOk, IfErr, List};
ghost use Rattle.clap.specs.Words.{App};
ghost use Rattle.sqlite_wal.specs.Files.{image_at};
ghost use Rattle.st_text.specs.Texts.{Text};
ghost use Rattle.st_command_line.specs.Common.{RefusesWords};
ghost use Rattle.st_journal_file.specs.Opening.{HoldStore};
ghost use Rattle.st_store_file.specs.Asking.{IsNotDone, Shortens};
ghost use Rattle.st_store_file.specs.inner.Stages.{Says};

use crate::counts::ListLengths;
use crate::file::shorten_file;
use crate::keeper::StoreFile;
use sqlite_std_file::Start;
use st_command::store_and_opening_for;
use st_command_line::Fault;
use st_core::Seed;
use st_journal::Journal;
use std::io::Write;

// What a command line says of a short list.
#[derive(Drop)]
pub(crate) struct Asked<'a> {
    // The name of the program.
    pub program: &'a str,
    pub compacts: bool,
    pub store: Option<&'a str>,
    pub digits: &'a str,
    pub names: &'a [&'a str],
}

// Says how many changes a list had and has. A message that cannot be written is dropped.
fn tell<F: Write>(program: &str, counts: &ListLengths, faults: &mut F) {
    let before = counts.before;
    let after = counts.after;
    let _ = writeln!(faults, "{program}: of {before} changes {after} are kept");
}

// Makes the list of the store short, if that is asked for, and says on `faults` how many changes it had and has.
pub(crate) fn shorten_asked<S: Start, F: Write>(
    rt: &HostRuntime,
    start: S,
    asked: &Asked<'_>,
    faults: &mut F,
) -> Result<Option<StoreFile<S>>, Fault>
    ensures ok { IfOk result (λ journal. (app : App) (words : List Text) → Says app words asked.now
        → Shortens (HoldStore (image_at S.Start)) ⟦<StoreFile<S> as Journal>⟧ app words journal) }
    ensures unasked { (result ≡ Ok None) → F.contents faults.new ≡ F.contents faults.old }
    ensures err { IfErr result (λ fault. (app : App) (words : List Text) → Says app words asked.now
        → RefusesWords app words fault ⊎ IsNotDone app words fault) }
{
    let Some(path) = asked.store else {
        return Ok(None);
    };
    if !asked.compacts {
        return Ok(None);
    }
    let (store, opening) = store_and_opening_for(
        rt.alloc(),
        Seed::random(rt),
        asked.digits,
        asked.names,
    )?;
    let (journal, counts) = shorten_file(rt, asked.program, start, path, opening.as_str(), store)?;
    tell(asked.program, &counts, faults);
    Ok(Some(journal))
}
