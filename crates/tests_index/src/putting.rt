//! Rows put into any index, and taken out.
ghost use Rattle.st_index.specs.inner.Entries.{name_of, rank_of};
ghost use Rattle.st_index.specs.inner.Index.{IsAbsent};

use st_index::{AsRow, Row, RowIndex};
use std::alloc::AllocError;

// Puts in a row that is not held.
fn put_new<I: RowIndex>(index: &mut I, row: I::Row) -> Result<(), AllocError>
    requires { IsAbsent (I.period_of index.old) (rank_of (I.period_of index.old) (I.Row.value row)) (name_of (I.Row.value row))
        (I.content index.old) }
{
    let spare = index.prepare(row.as_row())?;
    index.insert(row, spare);
    Ok(())
}

/// Puts in a row, if none of its key and name is held.
pub fn put<I: RowIndex>(index: &mut I, row: I::Row) -> Option<()> {
    let key = row.as_row().key(index.period());
    let named = row.as_row();
    match index.remove(key, named.id.as_str(), named.label.text()) {
        None => put_new(index, row).ok(),
        Some(_held) => None,
    }
}

/// Takes out the row of this row's key and name, if it is held.
pub fn take<I: RowIndex>(index: &mut I, row: &Row<I::Alloc>) -> bool {
    let key = row.key(index.period());
    index
        .remove(key, row.id.as_str(), row.label.text())
        .is_some()
}
