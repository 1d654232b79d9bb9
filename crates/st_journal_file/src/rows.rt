//! The rows of the store in a file.
ghost use Rattle.std.specs.Prelude.{◌≤◌, ◌<◌, ◌+◌, ◌^◌, length};
ghost use Rattle.sqlite_trees.specs.View.{IsClean};
ghost use Rattle.sqlite_store.specs.FileStore.{view, faults, recovers};
ghost use Rattle.st_journal_rows.specs.Ready.{IsReady};
ghost use Rattle.st_journal_rows.specs.inner.Putting.{PutsBehind};

use sqlite_disk::Disk;
use sqlite_store::FileStore;
use st_journal::{AppendError, Record};
use std::alloc::Global;

// `st_journal_rows::put_behind`. Each call that says what its store is costs seconds of proof, so both writers share this one.
pub(crate) fn put_behind<D: Disk>(
    store: &mut FileStore<D>,
    alloc: Global,
    count: u64,
    kept: u64,
    records: &[Record],
) -> Result<(), AppendError>
    requires ready { IsClean (view store.old) → IsReady (view store.old) count }
    requires room { count < 2 ^ 63 }
    requires fewer { kept ≤ count }
    requires some { IsClean (view store.old) → 0 < kept }
    requires fits { kept + length records.now < 2 ^ 63 }
    ensures { PutsBehind view faults recovers store.old store.new count kept records.now result }
{
    st_journal_rows::put_behind(store, alloc, count, kept, records)
}
