//! What opens a journal in a SQLite file.
ghost use Rattle.std.specs.Prelude.{◌≡◌};
ghost use Rattle.st_command.specs.Opening.{IsOfStore};

use crate::private::make_private;
use crate::progress::PrintedProgress;
use crate::time::milliseconds;
use sqlite_std_file::{FileFrom, Start};
use st_command::Keeper;
use st_command_line::Fault;
use st_journal::Replay;
use st_journal_file::{FileJournal, OpenError};

/// The journal in the file of a store.
pub type StoreFile<S> = FileJournal<FileFrom<S>>;

// The fault that an error of an opening is.
fn fault_of(error: OpenError) -> Fault
    ensures kind { IsOfStore result }
    ensures owner { error ≡ OpenError.OtherOwner → result ≡ Fault.OtherStore }
    ensures opening { error ≡ OpenError.OtherOpening → result ≡ Fault.OtherNames }
{
    match error {
        OpenError::OtherOwner => Fault::OtherStore,
        OpenError::OtherOpening => Fault::OtherNames,
        OpenError::InUse => Fault::StoreInUse,
        OpenError::LaterFormat(format) => Fault::LaterStore(format),
        OpenError::NotAJournal => Fault::NoStore,
        OpenError::Damaged => Fault::StoreDamaged,
        OpenError::Interrupted => Fault::StoreInterrupted,
        OpenError::Io => Fault::StoreIo,
        OpenError::NoMemory => Fault::NoMemory,
    }
}

/// Opens journals in SQLite files.
#[derive(Drop)]
pub struct SqliteKeeper<'a, S: Start> {
    runtime: &'a HostRuntime,
    // The name of the program.
    program: &'a str,
    // What is supposed of a crash.
    start: S,
}

impl<'a, S: Start> SqliteKeeper<'a, S> {
    /// While an opening takes long, standard error says how far it is, behind the name of the program. `start` says what is supposed
    /// of a crash, and stands for what the files held.
    pub fn new(runtime: &'a HostRuntime, program: &'a str, start: S) -> SqliteKeeper<'a, S> {
        SqliteKeeper {
            runtime,
            program,
            start,
        }
    }
}

impl<S: Start> Keeper<StoreFile<S>> for SqliteKeeper<'_, S> {
    ghost use Rattle.st_journal_file.specs.Opening.{files_hold};

    // What the files held is supposed of all paths at once, since the kit's `Start` names none.
    ghost holds = { λ _. files_hold S.Start };

    fn open<R: Replay>(
        self,
        path: &str,
        opening: &str,
        state: &mut R,
    ) -> Result<StoreFile<S>, Fault> {
        if make_private(self.runtime, path).is_err() {
            return Err(Fault::StoreIo);
        }
        let time = milliseconds(self.runtime);
        let progress = PrintedProgress {
            runtime: self.runtime,
            program: self.program,
        };
        match FileJournal::open(
            self.runtime,
            path,
            opening,
            time,
            state,
            &progress,
            self.start,
        ) {
            Ok(journal) => Ok(journal),
            Err(error) => Err(fault_of(error)),
        }
    }
}
