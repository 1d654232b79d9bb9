//! How many rows are visible.
ghost use Rattle.std.specs.Prelude.{◌≡◌, length};
ghost use Rattle.st_scan.specs.Visible.{visible_rows};

use crate::few::count_few;
use crate::sight::Sight;
use st_auth::Auths;
use st_box::Query;
use st_index::{Fields, RowIndex};
use st_key::Point;
use std::alloc::Allocator;

// The box of a query as one field.
#[derive(Clone, Copy)]
struct Whole<'q> {
    query: &'q Query,
}

impl Fields for Whole<'_> {
    ghost query = { λ w. w.query.now };

    ghost field_of = { λ _ _. 0 };

    ghost count = { λ _. 1 };

    fn query(&self) -> &Query {
        self.query
    }

    fn field(&self, _point: &Point) -> usize {
        0
    }

    fn one_field(&self, _x0: u32, _x1: u32, _y0: u32, _y1: u32) -> Option<usize> {
        Some(0)
    }
}

/// How many rows of the index are inside the query and have a label that the authorizations satisfy.
pub fn count<I: RowIndex, B: Allocator>(
    alloc: I::Alloc,
    index: &I,
    query: &Query,
    auths: &Auths<B>,
) -> u64
    ensures { result ≡ length (visible_rows query.now auths.now (I.content index.now)) }
{
    let mut sight = Sight::new(alloc, auths);
    let mut counts = [0];
    if count_few(index, &mut sight, &Whole { query }, &mut counts) {
        return counts[0];
    }
    index.count(query, &mut sight)
}
