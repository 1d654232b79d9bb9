//! Laws of a journal in files.
ghost use Rattle.std.specs.Prelude.{◌≡◌};
ghost use Rattle.sqlite_store.specs.FileStore.{state};
ghost use Rattle.st_journal_file.specs.Opening.{Opens};

use crate::journal::FileJournal;
use sqlite_disk::Disk;
use st_journal::{Journal, Replay};

/// Whatever the two files are left as, if the process ends at this moment: the list that the next opening finds in them is one that
/// the journal may leave.
pub fn finds_what_was_left<D: Disk + Drop, R: Replay>(journal: &FileJournal<D>)
    requires clean { ⟦<FileJournal<D> as Journal>⟧.misreads journal.now ≡ 0 }
    ensures { (image opening changes before after : _) → (state journal.now.store).may_leave image
        → Opens R.applies image opening changes before after → ⟦<FileJournal<D> as Journal>⟧.may_leave journal.now changes }
{}
