//! Copying where the rows of a key lie.
ghost use Rattle.std.specs.Prelude.{◌≡◌, IfOk};
ghost use Rattle.st_index.specs.inner.Storages.{IsStored, stored_at, stored_rows};

use crate::row::Row;
use crate::storage::Storage;
use std::alloc::{AllocError, Allocator};

// Equal rows, in order.
fn copy_rows<A: Allocator + Copy>(alloc: A, rows: &[Row<A>]) -> Result<Vec<Row<A>, A>, AllocError>
    ensures { IfOk result (λ copies. copies.items ≡ rows.now) }
{
    let mut copies = Vec::with_capacity(alloc, rows.len())?;
    for row in rows {
        copies.push(row.copy()?)?;
    }
    Ok(copies)
}

// Equal rows at the same key, or an error if memory runs out.
pub(crate) fn copy_storage<A: Allocator + Copy>(
    place: &Storage<A>,
) -> Result<Storage<A>, AllocError>
    requires { IsStored place.now }
    ensures stored { IfOk result (λ other. IsStored other) }
    ensures at { IfOk result (λ other. stored_at other ≡ stored_at place.now) }
    ensures rows { IfOk result (λ other. stored_rows other ≡ stored_rows place.now) }
{
    Ok(match place {
        Storage::Nowhere {
            period,
            bin,
            address,
        } => Storage::Nowhere {
            period: *period,
            bin: *bin,
            address: *address,
        },
        Storage::Inline {
            period,
            bin,
            address,
            id,
            label,
        } => Storage::Inline {
            period: *period,
            bin: *bin,
            address: *address,
            id: id.copy()?,
            label: label.copy()?,
        },
        Storage::Noted {
            period,
            bin,
            address,
            id,
            text,
        } => Storage::Noted {
            period: *period,
            bin: *bin,
            address: *address,
            id: id.copy()?,
            text: Box::new(id.alloc(), text.copy()?)?,
        },
        Storage::Heap {
            period,
            bin,
            address,
            rows,
        } => Storage::Heap {
            period: *period,
            bin: *bin,
            address: *address,
            rows: copy_rows(*rows.allocator(), rows)?,
        },
    })
}
