//! Pages.

use st_index::RowView;
use std::alloc::{Allocator, Global};

/// Some of the rows that a scan shows, in scan order, and whether more follow.
#[derive(Drop)]
pub struct Page<'a, A: Allocator = Global> {
    pub rows: Vec<RowView<'a, A>, A>,
    pub more: bool,
}
