//! Opening a journal at a path.
ghost use Rattle.std.specs.Prelude.{◌≡◌, ◌≤◌, true, false, IsTrue, IfOk};
ghost use Rattle.sqlite_std_file.specs.File.{file_is_usable, IsFresh};
ghost use Rattle.sqlite_wal.specs.Files.{image_at};
ghost use Rattle.sqlite_trees.specs.View.{doubt, IsClean};
ghost use Rattle.sqlite_store.specs.FileStore.{view};
ghost use Rattle.st_journal_file.specs.Opening.{Opens};
ghost use Rattle.st_journal_rows.specs.OpenedTable.{IsAtRest, OpensTable};

use crate::files::open_store;
use crate::journal::FileJournal;
use sqlite_disk::{Disk, Files, Start};
use sqlite_std_file::{FileFrom, OpenError as FileError};
use sqlite_store::FileStore;
use st_journal::{Journal, Replay};
use st_journal_rows::{OpenError, Progress, begin};
use std::alloc::Global;
use std::hash::{BuildHasher, RandomState};
use std::io::ErrorKind;

// The two files at a path, which no other process has open.
fn open_files<S: Start>(
    rt: &HostRuntime,
    path: &str,
    start: S,
) -> Result<Files<FileFrom<S>>, OpenError>
    ensures log { IfOk result (λ files. IsTrue (file_is_usable S.Start files.log)) }
    ensures db { IfOk result (λ files. IsTrue (file_is_usable S.Start files.db)) }
    ensures fresh { IfOk result (λ files. IsFresh true files.log × IsFresh false files.db) }
{
    match sqlite_std_file::open(rt, path, start) {
        Ok(files) => Ok(files),
        Err(FileError::OutOfMemory) => Err(OpenError::NoMemory),
        Err(FileError::Busy) => Err(OpenError::InUse),
        Err(FileError::HotJournal) => Err(OpenError::Interrupted),
        Err(FileError::Io(error)) if error.kind() == ErrorKind::OutOfMemory => {
            Err(OpenError::NoMemory)
        }
        Err(FileError::Io(_)) => Err(OpenError::Io),
    }
}

// The journal of a store.
fn journal_of<D: Disk + Drop, R: Replay, P: Progress>(
    mut store: FileStore<D>,
    alloc: Global,
    opening: &str,
    time: i64,
    state: &mut R,
    progress: &P,
) -> Result<FileJournal<D>, OpenError>
    requires rest { IsClean (view store) → IsTrue (view store).is_open → IsAtRest (view store) }
    ensures clean { IfOk result (λ journal. doubt (view store).is_clean ≤ doubt (view journal.store).is_clean) }
    ensures ok { IfOk result (λ journal. IsClean (view journal.store)
        → OpensTable R.applies opening.now (view store) (view journal.store) journal.count state.old state.new) }
{
    let count = begin(&mut store, alloc, opening, time, state, progress)?;
    Ok(FileJournal {
        store,
        count,
        alloc,
    })
}

impl<S: Start> FileJournal<FileFrom<S>> {
    /// Opens the journal at a path, and applies its records to a state. A file that is missing or empty gets a journal without
    /// a change, whose first record says `opening`, what the store was opened with. A journal that was begun with another
    /// opening is refused, and so is any other file; what is refused is left as it is. `time` is for that first record. `progress`
    /// is told after every 100,000 changes. `start` says what is supposed of a crash: with `Unknown` a torn write leaves each byte
    /// old or new, with `Wary` any bytes.
    pub fn open<R: Replay, P: Progress>(
        rt: &HostRuntime,
        path: &str,
        opening: &str,
        time: i64,
        state: &mut R,
        progress: &P,
        start: S,
    ) -> Result<FileJournal<FileFrom<S>>, OpenError>
        ensures ready { IfOk result (λ journal. ⟦<FileJournal<FileFrom<S>> as Journal>⟧.is_ready journal) }
        ensures opened { let j = ⟦<FileJournal<FileFrom<S>> as Journal>⟧ in IfOk result (λ journal. j.misreads journal ≡ 0
            → Opens R.applies (image_at S.Start) opening.now (j.list journal) state.old state.new) }
    {
        let files = open_files(rt, path, start)?;
        let Ok(random) = RandomState::new(rt) else {
            return Err(OpenError::Io);
        };
        let store = open_store(rt.alloc(), files, random.hash_one(&0u8))?;
        journal_of(store, rt.alloc(), opening, time, state, progress)
    }
}
