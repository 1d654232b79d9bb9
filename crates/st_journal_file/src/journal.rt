//! The journal of an open file. That each outcome of a crash has the table is a ghost field, since the store's trait cannot say so of
//! one table. That an outcome has pages of 4,096 bytes follows from the image. `close` has no clause: it copies the log into the
//! database, and no clause says what a checkpoint leaves.
ghost use Rattle.std.specs.Prelude.{◌≡◌, IsTrue};
ghost use Rattle.sqlite_trees.specs.Tree.{Trees};
ghost use Rattle.sqlite_trees.specs.View.{doubt, IsClean};
ghost use Rattle.sqlite_store.specs.FileStore.{view, recovers};
ghost use Rattle.st_journal_rows.specs.Table.{changes_in};
ghost use Rattle.st_journal_rows.specs.Ready.{IsReady};
ghost use Rattle.st_journal_rows.specs.inner.Putting.{HasTable};

use crate::rows::put_behind;
use sqlite_disk::Disk;
use sqlite_store::FileStore;
use st_journal::{AppendError, Journal, ReadBack, ReadError, Record};
use st_journal_rows::{MOST, OpenError, read_back};
use std::alloc::Global;

/// A journal in the table of a store. An append is one transaction, whose commit is synced once
/// (`Unknown`) or twice (`Wary`), as the store was opened.
#[derive(Drop)]
pub struct FileJournal<D: Disk> {
    pub(crate) store: FileStore<D>,
    // How many rows the table has: the records of the changes, and the first.
    pub(crate) count: u64,
    pub(crate) alloc: Global,
    ghost numbered: { IsClean (view store) → IsTrue (view store).is_numbered },
    // What a crash leaves is a database that has the table.
    ghost lasting: { IsClean (view store) → (db : Trees) → recovers store db → HasTable db },
}

impl<D: Disk + Drop> Journal for FileJournal<D> {
    ghost use Rattle.sqlite_store.specs.FileStore.{view, recovers};
    ghost use Rattle.sqlite_store.specs.FileStore as shown;

    ghost list = { λ j. changes_in (view j.store).committed };

    ghost misreads = { λ j. doubt (view j.store).is_clean };

    ghost faults = { λ j. shown.faults j.store };

    ghost is_ready = { λ j. IsClean (view j.store) → IsReady (view j.store) j.count };

    ghost may_leave = { λ j left. (db : Trees) × recovers j.store db × (left ≡ changes_in db) };

    ghost use Rattle.sqlite_store.specs.Laws as laws;
    ghost use Rattle.st_journal_file.specs.inner.Laws.{left_at};

    ghost leaves_list = { λ j left clean ready leaves. left_at (view j.store).committed leaves.0 left
        (laws.settled_at j.store D.Disk.seen_may_stay leaves.0 (ready clean).is_open leaves.1) leaves.2 };

    fn append(&mut self, records: &[Record]) -> Result<(), AppendError> {
        let added = records.len() as u64;
        if self.count > MOST || added > MOST {
            return Err(AppendError::NoMemory);
        }
        put_behind(&mut self.store, self.alloc, self.count, self.count, records)?;
        self.count += added;
        Ok(())
    }
}

impl<D: Disk + Drop> ReadBack for FileJournal<D> {
    fn read(&mut self, from: u64, most: usize) -> Result<Vec<Record>, ReadError> {
        if from >= MOST || most as u64 > MOST {
            return Err(ReadError::NotRead);
        }
        read_back(&mut self.store, self.alloc, from + 1, most)
    }
}

impl<D: Disk + Drop> FileJournal<D> {
    /// Copies the log into the database file, which then has all records without it, and closes both. At an error the records are in
    /// the two files together, as before.
    pub fn close(self) -> Result<(), OpenError> {
        let FileJournal { mut store, .. } = self;
        match store.checkpoint() {
            Ok(()) => Ok(()),
            Err(_) => Err(OpenError::Io),
        }
    }
}
