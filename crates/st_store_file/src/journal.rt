//! A short list in place of the list of a journal.
ghost use Rattle.std.specs.Prelude.{◌≡◌, ◌⊎◌, ◌≤◌, [], List, IfOk, IfErr, OnOk, length};
ghost use Rattle.st_journal.specs.declared.record.Record.{Record};
ghost use Rattle.st_journal.specs.Leaving.{LeavesOnly};
ghost use Rattle.st_command.specs.Opening.{IsOfStore};
ghost use Rattle.st_command_line.specs.declared.fault.Fault.TheVariants.{StoreIo};
ghost use Rattle.st_journal_compact.specs.Judging.{AreShortOf};
ghost use Rattle.st_store_file.specs.Shortened.{AreCountedBy, IsShortBy};

use crate::counts::ListLengths;
use sqlite_disk::Disk;
use st_command_line::Fault;
use st_journal::{Journal, Record, ReplayError};
use st_journal_compact::{JudgedRecord, WatchedStore, shorten};
use st_journal_file::FileJournal;
use std::alloc::Global;

// A journal that takes records leaves its list if the process ends.
pub(crate) fn leave<J: Journal>(journal: &J)
    requires ready { J.is_ready journal.now }
    ensures { LeavesOnly J.Journal journal.now (λ left. left ≡ J.list journal.now) }
{}

// The records of the short list.
fn short_list(alloc: Global, changes: Vec<JudgedRecord>) -> Result<Vec<Record>, Fault>
    ensures ok { IfOk result (λ kept. AreShortOf changes.items kept.items) }
    ensures err { IfErr result IsOfStore }
{
    match shorten(alloc, changes) {
        Ok(kept) => Ok(kept),
        Err(ReplayError::NoMemory) => Err(Fault::NoMemory),
        Err(ReplayError::Invalid) => Err(Fault::StoreDamaged),
    }
}

// Puts the records in place of the list of a journal, unless they are as many as it had.
fn put_in_place<D: Disk + Drop>(
    journal: &mut FileJournal<D>,
    before: u64,
    kept: &[Record],
) -> Result<(), Fault>
    requires ready { ⟦<FileJournal<D> as Journal>⟧.is_ready journal.old }
    ensures ready { OnOk result (⟦<FileJournal<D> as Journal>⟧.is_ready journal.new) }
    ensures misreads { let j = ⟦<FileJournal<D> as Journal>⟧ in j.misreads journal.old ≤ j.misreads journal.new }
    ensures put { let j = ⟦<FileJournal<D> as Journal>⟧ in OnOk result (j.misreads journal.new ≡ 0
        → (j.list journal.new ≡ kept.now)
        ⊎ ((j.list journal.new ≡ j.list journal.old) × (length kept.now ≡ before))) }
    ensures err { IfErr result (λ fault. fault ≡ StoreIo) }
    ensures crash { let j = ⟦<FileJournal<D> as Journal>⟧ in
        LeavesOnly j journal.new (λ left. (left ≡ j.list journal.old) ⊎ (left ≡ kept.now)) }
{
    leave(journal);
    if kept.len() as u64 == before {
        return Ok(());
    }
    match journal.rewrite(kept) {
        Ok(()) => Ok(()),
        Err(_) => Err(Fault::StoreIo),
    }
}

/// Makes the list of a journal short, from whose records the state was made again. `StoreIo` comes where the short list was not kept, or
/// may not have been: then the next opening finds the old list or the short one, and so it does after a crash.
pub fn shorten_journal<D: Disk + Drop>(
    alloc: Global,
    journal: &mut FileJournal<D>,
    state: WatchedStore,
) -> Result<ListLengths, Fault>
    requires ready { ⟦<FileJournal<D> as Journal>⟧.is_ready journal.old }
    ensures ready { OnOk result (⟦<FileJournal<D> as Journal>⟧.is_ready journal.new) }
    ensures misreads { let j = ⟦<FileJournal<D> as Journal>⟧ in j.misreads journal.old ≤ j.misreads journal.new }
    ensures short { let j = ⟦<FileJournal<D> as Journal>⟧ in IfOk result (λ counts. j.misreads journal.new ≡ 0
        → AreCountedBy state (j.list journal.old) (j.list journal.new) counts) }
    ensures err { IfErr result IsOfStore }
    // A crash inside the call is a disk that fails from some moment on, so that the call ends as `StoreIo`.
    ensures crash { let j = ⟦<FileJournal<D> as Journal>⟧ in
        LeavesOnly j journal.new (λ left. (left ≡ j.list journal.old) ⊎ IsShortBy state (j.list journal.old) left) }
{
    leave(journal);
    let changes = state.into_changes();
    let before = changes.len() as u64;
    let kept = short_list(alloc, changes)?;
    put_in_place(journal, before, kept.as_slice())?;
    let after = kept.len() as u64;
    Ok(ListLengths { before, after })
}
