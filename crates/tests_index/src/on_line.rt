//! Any index, as tests ask it about rows of no label at places on one line. Functions over it are quicker to prove than those over
//! a `RowIndex`, whose laws are many.

use crate::putting::{put, take};
use crate::tabling::{query_of, row_of};
use st_auth::Auths;
use st_index::{AsRow, Row, RowIndex, RowView};
use st_scan::{count, page};
use st_ubtree::UbTree;
use std::alloc::{Allocator, Global};

/// The first of some places that follow each other, and the place past the last.
pub type Places = (u64, u64);

/// An index of rows at places on one line.
pub trait OnLine {
    /// The allocator of the rows.
    type Alloc: Allocator + Copy;

    /// Puts in a copy of a row, if none of its key and name is held.
    fn put(&mut self, row: &Row<Self::Alloc>) -> Option<()>;

    /// Takes out the row of this row's key and name. Whether it was held.
    fn take(&mut self, row: &Row<Self::Alloc>) -> bool;

    /// Whether memory for putting in this row is there.
    fn has_memory(&self, row: &Row<Self::Alloc>) -> bool;

    /// How many rows are inside a box.
    fn counted(&self, alloc: Self::Alloc, asked: [u64; 6]) -> Option<u64>;

    /// Whether a page of a box has one row at each of these places, in rising order, and no more rows follow.
    fn finds(&self, alloc: Self::Alloc, asked: [u64; 6], places: Places) -> Option<bool>;
}

/// Puts in a row at a place, if none of its id is held there.
pub fn put_at<T: OnLine>(index: &mut T, alloc: T::Alloc, x: u64, id: &str) -> Option<()> {
    index.put(&row_of(alloc, (id, "", [x, 0, 0]))?)
}

/// Takes out the row of an id at a place. Whether it was held.
pub fn take_at<T: OnLine>(index: &mut T, alloc: T::Alloc, x: u64, id: &str) -> Option<bool> {
    Some(index.take(&row_of(alloc, (id, "", [x, 0, 0]))?))
}

// Whether the rows are at these places, one at each, in rising order.
fn are_at<A: Allocator>(rows: &[RowView<'_, A>], (from, to): Places) -> bool {
    let mut place = from;
    for row in rows {
        if u64::from(row.point().x()) != place {
            return false;
        }
        place = place.saturating_add(1);
    }
    place == to.max(from)
}

impl<I: RowIndex> OnLine for I {
    type Alloc = I::Alloc;

    fn put(&mut self, row: &Row<I::Alloc>) -> Option<()> {
        let Ok(row) = I::Row::copy_of(&RowView::of(row)) else {
            return None;
        };
        put(self, row)
    }

    fn take(&mut self, row: &Row<I::Alloc>) -> bool {
        take(self, row)
    }

    fn has_memory(&self, row: &Row<I::Alloc>) -> bool {
        self.prepare(row).is_ok()
    }

    fn counted(&self, alloc: I::Alloc, asked: [u64; 6]) -> Option<u64> {
        let query = query_of(asked)?;
        let auths = Auths::none(alloc);
        Some(count(alloc, self, &query, &auths))
    }

    fn finds(&self, alloc: I::Alloc, asked: [u64; 6], places: Places) -> Option<bool> {
        let query = query_of(asked)?;
        let auths = Auths::none(alloc);
        let Ok(page) = page::<I, I::Alloc, Global>(alloc, self, &query, &auths, None, 1_000) else {
            return None;
        };
        Some(!page.more && are_at(page.rows.as_slice(), places))
    }
}

/// An index whose regions can be told.
pub trait Regions {
    /// How many rows there are.
    fn len(&self) -> u64;

    /// The first addresses of the first four regions, and how many regions there are.
    fn regions(&self) -> Option<([u64; 4], usize)>;
}

impl<A: Allocator + Copy> Regions for UbTree<A> {
    fn len(&self) -> u64 {
        UbTree::len(self)
    }

    fn regions(&self) -> Option<([u64; 4], usize)> {
        let ranges = UbTree::regions(self).ok()?;
        let mut firsts = [0; 4];
        for at in 0..ranges.len().min(4) {
            firsts[at] = ranges.as_slice()[at].first.address();
        }
        Some((firsts, ranges.len()))
    }
}
