//! A short list in the file of a store.
ghost use Rattle.std.specs.Prelude.{◌≡◌, [], IfOk, IfErr, List};
ghost use Rattle.sqlite_wal.specs.Files.{image_at};
ghost use Rattle.st_journal.specs.declared.record.Record.{Record as Change};
ghost use Rattle.st_journal.specs.Leaving.{LeavesOnly};
ghost use Rattle.st_command.specs.Opening.{IsOfStore};
ghost use Rattle.st_journal_file.specs.Opening.{HoldStore};
ghost use Rattle.st_store_file.specs.Shortened.{IsShortened};

use crate::counts::ListLengths;
use crate::journal::{leave, shorten_journal};
use crate::keeper::{SqliteKeeper, StoreFile};
use sqlite_std_file::Start;
use st_command::Keeper;
use st_command_line::Fault;
use st_core::Store;
use st_journal::Journal;
use st_journal_compact::WatchedStore;

/// Opens the journal at a path, of a store that was this one before its first change, and makes its list short. A store that is
/// refused is left as it is. While the opening takes long, standard error says how far it is, behind the name of the program. `start`
/// says what is supposed of a crash, and stands for what the files held.
pub fn shorten_file<S: Start>(
    rt: &HostRuntime,
    program: &str,
    start: S,
    path: &str,
    opening: &str,
    store: Store,
) -> Result<(StoreFile<S>, ListLengths), Fault>
    requires rows { store.rows ≡ [] }
    requires audit { store.audit ≡ [] }
    ensures leaves { let j = ⟦<StoreFile<S> as Journal>⟧ in
        IfOk result (λ both. LeavesOnly j both.0 (λ left. left ≡ j.list both.0)) }
    ensures short { let j = ⟦<StoreFile<S> as Journal>⟧ in IfOk result (λ both. j.misreads both.0 ≡ 0
        → IsShortened (HoldStore (image_at S.Start)) opening.now store (j.list both.0) both.1) }
    ensures err { IfErr result IsOfStore }
{
    let mut state = WatchedStore::new(rt.alloc(), store);
    let keeper = SqliteKeeper::new(rt, program, start);
    let mut journal = keeper.open(path, opening, &mut state)?;
    let counts = shorten_journal(rt.alloc(), &mut journal, state)?;
    leave(&journal);
    Ok((journal, counts))
}
