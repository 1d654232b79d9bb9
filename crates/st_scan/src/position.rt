//! Where a walk stands.

use st_index::{Entry, RowsView};
use st_key::Key;
use std::alloc::Allocator;

// Where a walk stands: in an entry, in a region, and among the regions.
#[derive_where(Clone, Copy)]
pub(crate) struct Position<'a, A: Allocator> {
    /// The key from which the walk began.
    pub start: Key,
    /// The rows of the entry that are still to be given. They are inside the query.
    pub rows: RowsView<'a, A>,
    /// The entries of the region after that one.
    pub entries: &'a [Entry<A>],
    /// The first key after the region.
    pub next: Option<Key>,
    /// How many regions were opened.
    pub opened: u64,
}
