//! Walks over the regions of a UB-tree.

use crate::on_line::put_at;
use st_box::Query;
use st_index::{Fields, Judge, KeyRange, Leaf, Row, RowIndex};
use st_key::{Key, Period};
use st_plan::plan;
use st_scan::Walk;
use st_ubtree::UbTree;
use std::alloc::{AllocError, Allocator};
use std::cell::Cell;

// An index that counts the calls of `leaf_at`.
#[derive(Drop)]
struct Counted<I: RowIndex> {
    index: I,
    calls: Cell<u64>,
}

impl<I: RowIndex> RowIndex for Counted<I> {
    type Alloc = I::Alloc;

    type Row = I::Row;

    type Spare = I::Spare;

    ghost period_of = { λ s. I.period_of s.index };

    ghost content = { λ s. I.content s.index };

    ghost regions = { λ s. I.regions s.index };

    ghost has_room = { λ s. I.has_room s.index };

    fn period(&self) -> Period {
        self.index.period()
    }

    fn copy(&self) -> Result<Counted<I>, AllocError> {
        Ok(Counted {
            index: self.index.copy()?,
            calls: Cell::new(self.calls.get()),
        })
    }

    fn leaf_at(&self, key: Key) -> Leaf<'_, I::Alloc> {
        self.calls.set(self.calls.get().saturating_add(1));
        self.index.leaf_at(key)
    }

    fn count<J: Judge<I::Alloc>>(&self, query: &Query, judge: &mut J) -> u64 {
        self.index.count(query, judge)
    }

    fn count_fields<J: Judge<I::Alloc>, F: Fields>(
        &self,
        judge: &mut J,
        fields: &F,
        counts: &mut [u64],
    ) {
        self.index.count_fields(judge, fields, counts)
    }

    fn count_fields_at<J: Judge<I::Alloc>, F: Fields>(
        &self,
        from: Key,
        key: Key,
        judge: &mut J,
        fields: &F,
        counts: &mut [u64],
    ) -> Option<KeyRange> {
        self.index.count_fields_at(from, key, judge, fields, counts)
    }

    fn prepare(&self, row: &Row<I::Alloc>) -> Result<I::Spare, AllocError> {
        self.index.prepare(row)
    }

    fn insert(&mut self, row: I::Row, spare: I::Spare) {
        self.index.insert(row, spare)
    }

    fn remove(&mut self, key: Key, id: &str, label: &str) -> Option<Row<I::Alloc>> {
        self.index.remove(key, id, label)
    }

    fn replace(&mut self, row: I::Row) -> Row<I::Alloc> {
        self.index.replace(row)
    }
}

// What a walk did: the rows that it gave, and the regions that it opened.
#[derive(Clone, Copy, PartialEq, Eq, Debug)]
struct Steps {
    rows: u64,
    opened: u64,
}

// Takes so many steps of a walk over a box.
fn take_steps<I: RowIndex>(
    alloc: I::Alloc,
    index: &I,
    asked: [u64; 6],
    count: u64,
) -> Option<Steps> {
    let [x0, x1, y0, y1, t0, t1] = asked;
    let query = Query::new(x0, x1, y0, y1, t0, t1).ok()?;
    let Ok(ranges) = plan(alloc, &query, 16, index.period()) else {
        return None;
    };
    let mut walk = Walk::new(index, &query, &ranges);
    let mut rows = 0u64;
    for _ in 0..count {
        if walk.next().is_some() {
            rows = rows.wrapping_add(1);
        }
    }
    let opened = walk.opened();
    Some(Steps { rows, opened })
}

// What a walk over an index of 33 rows on one line did, and how often it called `leaf_at`.
fn walked_in<I: RowIndex + Drop>(
    alloc: I::Alloc,
    mut index: I,
    asked: [u64; 6],
    count: u64,
) -> Option<(Steps, u64)> {
    for x in 0..33 {
        put_at(&mut index, alloc, x, "a")?;
    }
    let counted = Counted {
        index,
        calls: Cell::new(0),
    };
    let steps = take_steps(alloc, &counted, asked, count)?;
    Some((steps, counted.calls.get()))
}

// That of a walk over a tree: it has two regions, the first of which has the keys of x 0 to 15.
fn walked<A: Allocator + Copy>(alloc: A, asked: [u64; 6], count: u64) -> Option<(Steps, u64)> {
    match UbTree::new(alloc, Period::Week) {
        Ok(tree) => walked_in(alloc, tree, asked, count),
        Err(_) => None,
    }
}

#[test]
fn counted_leaves(rt: HostRuntime) {
    for (asked, count, rows, opened) in [
        ([0, 3, 0, 0, 0, 0], 5, 4, 1),
        ([0, 0, 1, 1, 0, 0], 1, 0, 1),
        ([15, 16, 1, 1, 0, 0], 1, 0, 2),
        ([0, 32, 0, 0, 0, 0], 0, 0, 0),
        ([0, 32, 0, 0, 0, 0], 1, 1, 1),
        ([0, 32, 0, 0, 0, 0], 16, 16, 1),
        ([0, 32, 0, 0, 0, 0], 17, 17, 2),
        ([0, 32, 0, 0, 0, 0], 40, 33, 2),
    ] {
        let wanted = (Steps { rows, opened }, opened);
        assert!(rt; walked(rt.alloc(), asked, count) == Some(wanted));
    }
}
