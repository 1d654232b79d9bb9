//! Walks over the rows of a query.
//!
//! `Walk::new` requires that the plan's exact ranges hold keys of the query alone, which is less than that the plan be the query's
//! own.
ghost use Rattle.std.specs.Prelude.{◌≡◌, ◌<◌, ◌≤◌, ◌^◌, ◌∷◌, [], filter, length, IfSome, IfNone};
ghost use Rattle.st_key.specs.Key.{rank};
ghost use Rattle.st_box.specs.Query.{is_inside};
ghost use Rattle.st_index.specs.RowViews.{row_of_view};
ghost use Rattle.st_index.specs.inner.Entries.{key_end, rank_of};
ghost use Rattle.st_scan.specs.inner.Regions.{Count, Meets};
ghost use Rattle.st_scan.specs.inner.Rows.{has_row_from};
ghost use Rattle.st_scan.specs.inner.Walks.{IsExactFor, MeetsUpTo};
ghost use Rattle.st_scan.specs.inner.Steps.{AreExact, IsOwnExact};

use crate::exact::ranges_of;
use crate::own_plan::OwnPlan;
use crate::part_ranges::PartRanges;
use crate::position::Position;
use crate::step::forward;
use arrayvec::ArrayVec;
use st_box::{KeyTest, Query};
use st_index::{RowIndex, RowView, RowsView};
use st_key::Key;
use st_plan::Plan;
use std::alloc::Allocator;
use std::marker::Model;

/// A walk over the rows of an index that are inside a query, in scan order.
#[derive(Drop)]
pub struct Walk<'a, 'p, I: RowIndex> {
    index: &'a I,
    parts: ArrayVec<PartRanges<'p>, 3>,
    own: OwnPlan<I::Alloc>,
    test: KeyTest,
    at: Position<'a, I::Alloc>,
}

impl<'a, 'p, I: RowIndex> Model for Walk<'a, 'p, I> {
    ghost use Rattle.st_scan.specs.inner.Walks.{WalkValue};

    ghost Value = { WalkValue I.Alloc };

    ghost use Rattle.st_key.specs.Key.{rank};
    ghost use Rattle.st_scan.specs.inner.Steps.{IsWalk, left_of};

    ghost view = { λ w. record {
      period = w.test.period;
      query = w.test.query;
      regions = I.regions w.index.now;
      start = rank w.at.start;
      left = left_of w.test.period w.test.query (I.content w.index.now) w.at;
      opened = w.at.opened;
    } };

    ghost invariant = { λ w. IsWalk (I.period_of w.index.now) (I.regions w.index.now) w.test.period w.test.query w.parts.items w.own w.at };
}

impl<'a, 'p, I: RowIndex> Walk<'a, 'p, I> {
    /// A walk from the first row. The plan is the query's own, in the period of the index: its exact
    /// ranges hold keys of the query alone.
    pub fn new<P: Allocator + Copy>(index: &'a I, query: &Query, plan: &'p Plan<P>) -> Self
        requires exact { IsExactFor (I.period_of index.now) query.now plan.now }
        ensures left { result.left ≡ filter (λ row. is_inside query.now row.point) (I.content index.now) }
        ensures few { length result.left < 2 ^ 64 }
        ensures opened { result.opened ≡ 0 }
        ensures start { result.start ≡ 0 }
        ensures query { result.query ≡ query.now }
        ensures period { result.period ≡ I.period_of index.now }
        ensures regions { result.regions ≡ I.regions index.now }
    {
        Walk::begin(index, query, ranges_of(plan), OwnPlan::Never, Key::FIRST)
    }

    // A walk from the first row whose key does not come before this one. It makes a plan of its own once
    // it has opened many regions, if one is of use and there is memory for it.
    pub(crate) fn with_own_plan(alloc: I::Alloc, index: &'a I, query: &Query, from: Key) -> Self
        requires in_period { rank from ≤ key_end (I.period_of index.now) }
        ensures left { result.left ≡ filter (has_row_from (I.period_of index.now) query.now (rank from)) (I.content index.now) }
        ensures few { length result.left < 2 ^ 64 }
    {
        Walk::begin(index, query, ArrayVec::new(), OwnPlan::Due(alloc), from)
    }

    // A walk by exact ranges of a plan that was given, or of one of its own.
    fn begin(
        index: &'a I,
        query: &Query,
        parts: ArrayVec<PartRanges<'p>, 3>,
        own: OwnPlan<I::Alloc>,
        from: Key,
    ) -> Self
        requires exact { AreExact (I.period_of index.now) query.now parts.items }
        requires own { IsOwnExact (I.period_of index.now) query.now own }
        requires in_period { rank from ≤ key_end (I.period_of index.now) }
        ensures left { result.left ≡ filter (has_row_from (I.period_of index.now) query.now (rank from)) (I.content index.now) }
        ensures few { length result.left < 2 ^ 64 }
        ensures opened { result.opened ≡ 0 }
        ensures start { result.start ≡ rank from }
        ensures query { result.query ≡ query.now }
        ensures period { result.period ≡ I.period_of index.now }
        ensures regions { result.regions ≡ I.regions index.now }
    {
        Walk {
            index,
            parts,
            own,
            test: KeyTest::new(query, index.period()),
            at: Position {
                start: from,
                rows: RowsView::Many(&[]),
                entries: &[],
                next: Some(from),
                opened: 0,
            },
        }
    }

    /// The next row that is inside the query, whatever its label.
    pub fn next(&mut self) -> Option<RowView<'a, I::Alloc>>
        ensures some { IfSome result (λ row. self.old.left ≡ row_of_view row ∷ self.new.left) }
        ensures none { IfNone result (self.old.left ≡ []) }
        ensures end { IfNone result (self.new.left ≡ []) }
        ensures opened { IfSome result
            (λ row. Count (MeetsUpTo self.old.period self.old.query self.old.start (rank_of self.old.period (row_of_view row)))
            self.old.regions self.new.opened) }
        ensures opened_all { IfNone result (Count (Meets self.old.period self.old.query self.old.start) self.old.regions self.new.opened) }
        ensures start { self.new.start ≡ self.old.start }
        ensures query { self.new.query ≡ self.old.query }
        ensures period { self.new.period ≡ self.old.period }
        ensures regions { self.new.regions ≡ self.old.regions }
    {
        self.own
            .make_after(self.at.opened, &self.test.query, self.test.period);
        forward(
            self.index,
            &self.test,
            self.parts.as_slice(),
            &self.own,
            &mut self.at,
        );
        let Some((row, rest)) = self.at.rows.split_first() else {
            return None;
        };
        self.at.rows = rest;
        Some(row)
    }

    /// How many regions were opened: 0 before the first row is asked for, then those that meet the query
    /// up to that of the row given last, and in the end all that meet it.
    pub fn opened(&self) -> u64
        ensures { result ≡ self.now.opened }
    {
        self.at.opened
    }
}
