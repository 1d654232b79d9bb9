//! A copy in a SQLite file.
ghost use Rattle.std.specs.Prelude.{◌≡◌, Some, true, IfOk};
ghost use Rattle.sqlite_wal.specs.Files.{image_at};
ghost use Rattle.st_store_file.specs.Copying.{Copied};
ghost use Rattle.st_journal_file.specs.Opening.{HoldStore};

use crate::keeper::StoreFile;
use crate::private::make_private;
use crate::time::milliseconds;
use sqlite_std_file::{Start, Unknown};
use st_journal::Journal;
use st_journal_copy::{Copier, CopyFault, Counting, RecordSource, bring_up, has_more};
use st_journal_file::{FileJournal, OpenError, Silent};

// Why a list was not copied into a file that was not opened.
fn copy_fault_of(error: OpenError) -> CopyFault
    ensures owner { error ≡ OpenError.OtherOwner → result ≡ CopyFault.OtherStore }
    ensures opening { error ≡ OpenError.OtherOpening → result ≡ CopyFault.OtherNames }
{
    match error {
        OpenError::OtherOwner => CopyFault::OtherStore,
        OpenError::OtherOpening => CopyFault::OtherNames,
        OpenError::InUse => CopyFault::InUse,
        OpenError::LaterFormat(_) => CopyFault::LaterFormat,
        OpenError::NotAJournal => CopyFault::NoStore,
        OpenError::Damaged => CopyFault::Damaged,
        OpenError::Interrupted => CopyFault::Interrupted,
        OpenError::Io => CopyFault::Io,
        OpenError::NoMemory => CopyFault::NoMemory,
    }
}

// Whether a copy with so many records is known to be a beginning of the list: it has as many as the last turn left there.
fn is_known(left: Option<u64>, found: u64) -> bool
    ensures { result ≡ true → left ≡ Some found }
{
    match left {
        Some(count) => count == found,
        None => false,
    }
}

/// Opens the copy at a path, brings it up to a list, and closes it: how many records it has then. A copy that has as many as the last
/// turn left there is not compared with the list. `start` stands for what its files held.
pub fn copy_into<S: Start, L: RecordSource>(
    rt: &HostRuntime,
    path: &str,
    opening: &str,
    start: S,
    source: &mut L,
    left: Option<u64>,
) -> Result<u64, CopyFault>
    ensures { IfOk result (Copied (HoldStore (image_at S.Start) opening.now) ⟦<StoreFile<S> as Journal>⟧
        (L.gives source.new) left) }
{
    if make_private(rt, path).is_err() {
        return Err(CopyFault::Io);
    }
    let mut counting = Counting::new();
    let time = milliseconds(rt);
    let mut copy = match FileJournal::open(rt, path, opening, time, &mut counting, &Silent, start) {
        Ok(copy) => copy,
        Err(error) => return Err(copy_fault_of(error)),
    };
    let found = counting.count();
    let count = bring_up(source, &mut copy, found, is_known(left, found))?;
    match copy.close() {
        Ok(()) => Ok(count),
        Err(error) => Err(copy_fault_of(error)),
    }
}

/// Copies a list into a SQLite file.
#[derive(Drop)]
pub struct SqliteCopier<'a> {
    runtime: &'a HostRuntime,
    // How many records the last turn left in the copy.
    left: Option<u64>,
}

impl<'a> SqliteCopier<'a> {
    /// One that has taken no turn yet.
    pub fn new(runtime: &'a HostRuntime) -> SqliteCopier<'a> {
        SqliteCopier {
            runtime,
            left: None,
        }
    }
}

impl Copier for SqliteCopier<'_> {
    fn take_turn<S: RecordSource>(
        &mut self,
        path: &str,
        opening: &str,
        source: &mut S,
    ) -> Result<(), CopyFault> {
        let left = self.left;
        if let Some(count) = left {
            if !has_more(source, count)? {
                return Ok(());
            }
        }
        self.left = None;
        let count = copy_into(self.runtime, path, opening, Unknown, source, left)?;
        self.left = Some(count);
        Ok(())
    }
}
