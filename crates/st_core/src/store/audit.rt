//! The audit listing.
ghost use Rattle.std.specs.Prelude.{◌≡◌, IfOk};

use circular_buffer::HeapCircularBuffer;
use st_policy::Entry;
use st_text::Items;
use std::alloc::{AllocError, Allocator};

/// How many entries the listing keeps.
pub const AUDIT_LEN: usize = 1024;

// The entries, oldest first.
pub(crate) fn listing<A: Allocator + Copy>(
    alloc: A,
    entries: &HeapCircularBuffer<Entry, A>,
) -> Result<Items<Entry, A>, AllocError>
    ensures { IfOk result (λ listed. listed ≡ entries.now.items) }
{
    let mut listed = Items::new(alloc);
    for entry in entries.iter() {
        listed.push(entry.copy())?;
    }
    Ok(listed)
}

// An equal listing. An error when out of memory.
pub(crate) fn copy_listing<A: Allocator + Copy>(
    alloc: A,
    entries: &HeapCircularBuffer<Entry, A>,
) -> Result<HeapCircularBuffer<Entry, A>, AllocError>
    ensures { IfOk result (λ copies. copies ≡ entries.now) }
{
    let mut copies = HeapCircularBuffer::with_capacity(alloc, entries.capacity())?;
    for entry in entries.iter() {
        let Ok(()) = copies.try_push_back(entry.copy()) else {
            unreachable!()
        };
    }
    Ok(copies)
}
