//! The store in a database file and its log.
ghost use Rattle.std.specs.Prelude.{◌≡◌, [], IsTrue, IfOk};
ghost use Rattle.sqlite_wal.specs.Files.{seen_image};
ghost use Rattle.sqlite_wal.specs.PageSize.{bytes_of};
ghost use Rattle.sqlite_trees.specs.View.{IsClean};
ghost use Rattle.sqlite_store.specs.FileStore.{view};
ghost use Rattle.sqlite_store.specs.Unopened.{state_of, wanted_by, files_of, image, AreUsable};
ghost use Rattle.st_journal_rows.specs.Table.{table_tree};
ghost use Rattle.st_journal_rows.specs.Table.{schema};
ghost use Rattle.st_journal_file.specs.Files.{HoldTrees};
ghost use Rattle.st_journal_file.specs.inner.Finding.{Finds};
ghost use Rattle.st_journal_rows.specs.OpenedTable.{IsAtRest};

use sqlite_disk::{Disk, Files};
use sqlite_pager::{Options, Pager};
use sqlite_pool::probe_blank;
use sqlite_store::{FileStore, OpenError as StoreOpenError, Unopened};
use sqlite_wal::{Error, PageSize};
use st_journal_rows::{OpenError, is_table, table};
use std::alloc::Global;

// What an error of the store is, where it refuses what is no store at all.
fn error_of(error: StoreOpenError) -> OpenError {
    match error {
        StoreOpenError::OutOfMemory => OpenError::NoMemory,
        StoreOpenError::Io | StoreOpenError::Full => OpenError::Io,
        StoreOpenError::Refused => OpenError::NotAJournal,
    }
}

// The files, of which nothing is known yet. The seed is for the salts of the log.
fn unopened<D: Disk + Drop>(
    alloc: Global,
    files: Files<D>,
    size: PageSize,
    seed: u64,
) -> Result<Unopened<D>, OpenError>
    requires { bytes_of size ≡ 4096 }
    ensures files { IfOk result (λ it. files_of it ≡ (files.log, files.db)) }
    ensures size { IfOk result (λ it. (state_of it).page_size ≡ 4096) }
    ensures schema { IfOk result (λ it. wanted_by it ≡ schema) }
{
    let Ok(pager) = Pager::new(alloc, files, size, Options::new(seed)) else {
        return Err(OpenError::NoMemory);
    };
    match Unopened::new(alloc, pager, &[table()]) {
        Ok(unopened) => Ok(unopened),
        Err(_) => Err(OpenError::NoMemory),
    }
}

// Opens the store of files that hold the table.
fn open_table<D: Disk + Drop>(files: Unopened<D>) -> Result<FileStore<D>, OpenError>
    requires usable { AreUsable files }
    requires size { IsTrue (state_of files).is_clean → (state_of files).page_size ≡ 4096 }
    requires schema { wanted_by files ≡ schema }
    ensures rest { IfOk result (λ store. IsClean (view store) → IsAtRest (view store)) }
    ensures honest { IfOk result (λ store. IsClean (view store) → IsTrue (state_of files).is_clean) }
    ensures found { IfOk result (λ store. IsClean (view store) → HoldTrees (image files) (view store).committed) }
{
    match files.open_numbered() {
        Ok(store) => Ok(store),
        Err((StoreOpenError::Refused, _)) => Err(OpenError::Damaged),
        Err((error, _)) => Err(error_of(error)),
    }
}

// Makes the store in files that hold nothing.
fn create<D: Disk + Drop>(files: Unopened<D>) -> Result<FileStore<D>, OpenError>
    requires usable { AreUsable files }
    requires schema { wanted_by files ≡ schema }
    ensures rest { IfOk result (λ store. IsClean (view store) → IsAtRest (view store)) }
    ensures honest { IfOk result (λ store. IsClean (view store) → IsTrue (state_of files).is_clean) }
    ensures empty { IfOk result (λ store. IsClean (view store) → (view store).committed table_tree ≡ []) }
{
    match files.create() {
        Ok(store) => Ok(store),
        Err((error, _)) => Err(error_of(error)),
    }
}

// Opens the store of files that are not blank, if they hold the table or no object at all.
fn open_existing<D: Disk + Drop>(mut files: Unopened<D>) -> Result<FileStore<D>, OpenError>
    requires usable { AreUsable files }
    requires size { (state_of files).page_size ≡ 4096 }
    requires schema { wanted_by files ≡ schema }
    ensures rest { IfOk result (λ store. IsClean (view store) → IsAtRest (view store)) }
    ensures honest { IfOk result (λ store. IsClean (view store) → IsTrue (state_of files).is_clean) }
    ensures found { IfOk result (λ store. IsClean (view store) → Finds (image files) (view store).committed) }
{
    let listed = match files.read_catalog() {
        Ok(listed) => listed,
        Err(error) => return Err(error_of(error)),
    };
    match listed.as_slice() {
        [] => create(files),
        [only] if is_table(only) => open_table(files),
        _ => Err(OpenError::NotAJournal),
    }
}

// Opens the store of a database file and its log, or makes it where there is none.
pub(crate) fn open_store<D: Disk + Drop>(
    alloc: Global,
    mut files: Files<D>,
    seed: u64,
) -> Result<FileStore<D>, OpenError>
    requires log { IsTrue (D.Disk.is_usable files.log) }
    requires db { IsTrue (D.Disk.is_usable files.db) }
    ensures rest { IfOk result (λ store. IsClean (view store) → IsAtRest (view store)) }
    ensures found { IfOk result (λ store. IsClean (view store)
        → Finds (seen_image D.Disk files.log files.db) (view store).committed) }
{
    let Some(size) = PageSize::new(4096) else {
        return Err(OpenError::Io);
    };
    let blank = match probe_blank(alloc, &mut files, size, false) {
        Ok(blank) => blank,
        Err(Error::OutOfMemory) => return Err(OpenError::NoMemory),
        Err(_) => return Err(OpenError::Io),
    };
    let unopened = unopened(alloc, files, size, seed)?;
    if blank {
        create(unopened)
    } else {
        open_existing(unopened)
    }
}
