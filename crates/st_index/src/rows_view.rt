//! Views of rows.
ghost use Rattle.std.specs.Prelude.{◌≡◌, ◌==◌, [], ◌∷◌, length, IfSome, IfNone};
ghost use Rattle.st_index.specs.RowViews.{row_of_view};
ghost use Rattle.st_index.specs.inner.Views.{viewed};

use crate::row::Row;
use crate::row_view::RowView;
use std::alloc::{Allocator, Global};

/// Rows in an order, by reference: one row, wherever it lies, or rows that lie side by side.
#[derive_where(Clone, Copy)]
pub enum RowsView<'a, A: Allocator = Global> {
    One(RowView<'a, A>),
    Many(&'a [Row<A>]),
}

impl<'a, A: Allocator + Copy> RowsView<'a, A> {
    /// Whether there is no row.
    pub fn is_empty(self) -> bool
        ensures { result ≡ (length (viewed self.entry) == 0) }
    {
        match self {
            RowsView::One(_) => false,
            RowsView::Many(rows) => rows.is_empty(),
        }
    }

    /// The first row, and the rows after it.
    pub fn split_first(self) -> Option<(RowView<'a, A>, RowsView<'a, A>)>
        ensures some { IfSome result (λ found. viewed self.entry ≡ row_of_view found.0 ∷ viewed found.1) }
        ensures none { IfNone result (viewed self.entry ≡ []) }
    {
        match self {
            RowsView::One(row) => Some((row, RowsView::Many(&[]))),
            RowsView::Many(rows) => {
                let (row, rest) = rows.split_first()?;
                Some((RowView::of(row), RowsView::Many(rest)))
            }
        }
    }
}
