//! Another list in place of the one that a journal has. Rows are taken out and put anew: changing them in place would save no write,
//! since the numbers shift.
ghost use Rattle.std.specs.Prelude.{◌≡◌, ◌≢◌, ◌⊎◌, ◌≤◌, Err, List, OnOk, OnErr};
ghost use Rattle.st_journal.specs.declared.record.Record.{Record};
ghost use Rattle.st_journal.specs.Faults.{FaultsRise};
ghost use Rattle.st_journal.specs.Leaving.{LeavesOnly};

use crate::journal::FileJournal;
use crate::rows::put_behind;
use sqlite_disk::Disk;
use st_journal::{AppendError, Journal, Record};
use st_journal_rows::MOST;

impl<D: Disk + Drop> FileJournal<D> {
    /// Puts the records in place of the list, all of them or none, and returns once they would outlast a crash. They are numbered
    /// from 1 on.
    pub fn rewrite(&mut self, records: &[Record]) -> Result<(), AppendError>
        requires ready { ⟦<FileJournal<D> as Journal>⟧.is_ready self.old }
        ensures ready { result ≢ Err AppendError.Unknown → ⟦<FileJournal<D> as Journal>⟧.is_ready self.new }
        ensures misreads { let j = ⟦<FileJournal<D> as Journal>⟧ in j.misreads self.old ≤ j.misreads self.new }
        ensures counts { let j = ⟦<FileJournal<D> as Journal>⟧ in j.faults self.old ≤ j.faults self.new }
        ensures kept { let j = ⟦<FileJournal<D> as Journal>⟧ in
            j.misreads self.new ≡ 0 → OnOk result (j.list self.new ≡ records.now) }
        ensures not_kept { let j = ⟦<FileJournal<D> as Journal>⟧ in j.misreads self.new ≡ 0
            → result ≢ Err AppendError.Unknown → OnErr result (j.list self.new ≡ j.list self.old) }
        ensures refused { let j = ⟦<FileJournal<D> as Journal>⟧ in j.misreads self.new ≡ 0
            → result ≡ Err AppendError.NotKept → FaultsRise (j.faults self.old) (j.faults self.new) }
        ensures unknown { let j = ⟦<FileJournal<D> as Journal>⟧ in j.misreads self.new ≡ 0
            → result ≡ Err AppendError.Unknown → FaultsRise (j.faults self.old) (j.faults self.new) }
        // A crash inside the call is a disk that fails from some moment on, so that the call ends as `Unknown`.
        ensures crash { let j = ⟦<FileJournal<D> as Journal>⟧ in
            LeavesOnly j self.new (λ left. (left ≡ j.list self.old) ⊎ (left ≡ records.now)) }
    {
        let added = records.len() as u64;
        if self.count == 0 || self.count > MOST || added > MOST {
            return Err(AppendError::NoMemory);
        }
        put_behind(&mut self.store, self.alloc, self.count, 1, records)?;
        self.count = 1 + added;
        Ok(())
    }
}
