//! Labels, each with the number of rows under it.
ghost use Rattle.std.specs.Prelude.{◌≡◌, ◌↔◌, ◌+◌, ◌<◌, ◌^◌, [], Bool, IfSome, IsTrue, cond};
ghost use Rattle.st_text.specs.Texts.{Text};
ghost use Rattle.st_index.specs.inner.Entries.{rows_of};
ghost use Rattle.st_tally.specs.inner.Sums.{CountsLess, CountsMore, found, labelled, total};

use crate::label_places::{find, find_near, find_spare, likely_place, place_of};
use st_index::{Entry, Judge, Row, RowsView};
use st_label::Label;
use st_text::{MAX_SHORT, ShortText};
use std::alloc::{Allocator, Global};

/// A label, and the number of rows under it.
#[derive(Drop)]
pub struct LabelCount<A: Allocator = Global> {
    pub(crate) label: Label<A>,
    pub(crate) rows: u64,
}

/// Whether two labels are equal.
pub fn is_same<A: Allocator + Copy>(one: &Label<A>, other: &Label<A>) -> bool
    ensures { IsTrue result ↔ (one.now ≡ other.now) }
{
    one.is_same(other)
}

// The label with a number of rows, if it is as short as takes no memory.
fn count_of<A: Allocator + Copy>(label: &Label<A>, rows: u64) -> Option<LabelCount<A>>
    ensures { IfSome result (λ c. (c.label ≡ label.now) × (c.rows ≡ rows)) }
{
    if label.text().len() > MAX_SHORT {
        return None;
    }
    let Ok(label) = label.copy() else {
        return None;
    };
    Some(LabelCount { label, rows })
}

// Fills a list with places for labels: each has this label, and no rows.
fn fill<A: Allocator + Copy>(counts: &mut Vec<LabelCount<A>, A>, label: &Label<A>)
    ensures { (judges : Text → Bool) → total judges counts.new.items ≡ total judges counts.old.items }
{
    for _ in counts.len()..counts.capacity() {
        let Some(count) = count_of(label, 0) else {
            return;
        };
        let Ok(()) = counts.push(count) else {
            return;
        };
    }
}

// Lets a value lie where another did, which is let go.
fn overwrite<T: Drop>(at: &mut T, value: T)
    ensures { at.new ≡ value }
{
    *at = value;
}

// Puts a label that is not among the others at a place where there are no rows. Says whether it did.
fn put_new<A: Allocator + Copy>(
    counts: &mut Vec<LabelCount<A>, A>,
    label: &Label<A>,
    rows: u64,
) -> bool
    ensures { IsTrue result → (judges : Text → Bool)
        → total judges counts.new.items ≡ total judges counts.old.items + cond (judges label.now) rows 0 }
{
    let Some(count) = count_of(label, rows) else {
        return false;
    };
    let Some(short) = label.as_short() else {
        return false;
    };
    fill(counts, label);
    let place = place_of(short, counts.len());
    let Some(at) = find_spare(counts.as_slice(), place) else {
        return false;
    };
    overwrite(&mut counts[at], count);
    true
}

// Counts some more rows under a label, without more memory. Says whether it did.
fn put<A: Allocator + Copy>(counts: &mut Vec<LabelCount<A>, A>, label: &Label<A>, rows: u64) -> bool
    ensures { IsTrue result → (judges : Text → Bool)
        → total judges counts.new.items ≡ total judges counts.old.items + cond (judges label.now) rows 0 }
{
    let Some(at) = find(counts.as_slice(), label) else {
        return put_new(counts, label, rows);
    };
    let count = &mut counts[at];
    let Some(more) = count.rows.checked_add(rows) else {
        return false;
    };
    count.rows = more;
    true
}

// Counts some rows less under a label, which is likely to stand at a place. Says whether it did.
fn take<A: Allocator + Copy>(
    counts: &mut Vec<LabelCount<A>, A>,
    label: &Label<A>,
    rows: u64,
    likely: usize,
) -> bool
    ensures { IsTrue result → (judges : Text → Bool)
        → total judges counts.new.items + cond (judges label.now) rows 0 ≡ total judges counts.old.items }
{
    let Some(at) = find_near(counts.as_slice(), label, likely) else {
        return false;
    };
    let count = &mut counts[at];
    let Some(less) = count.rows.checked_sub(rows) else {
        return false;
    };
    count.rows = less;
    true
}

// The rows under a label, if it is found true.
fn found<A: Allocator + Copy, J: Judge<A>>(count: &LabelCount<A>, judge: &mut J) -> u64
    ensures value { result ≡ found (J.judges judge.old) count.now }
    ensures same { J.judges judge.new ≡ J.judges judge.old }
{
    if count.rows > 0 && judge.finds_true(&count.label) {
        count.rows
    } else {
        0
    }
}

/// Labels with the numbers of rows under them, as long as they are all that there are.
#[derive(Drop)]
pub struct LabelCounts<A: Allocator = Global> {
    pub(crate) counts: Vec<LabelCount<A>, A>,
    pub(crate) are_all: bool,
}

impl<A: Allocator + Copy> LabelCounts<A> {
    /// No labels. There may come to be as many as the list has room for.
    pub fn new(mut counts: Vec<LabelCount<A>, A>) -> LabelCounts<A>
        ensures { result.counts.items ≡ [] }
    {
        counts.clear();
        LabelCounts {
            counts,
            are_all: true,
        }
    }

    /// Lets go of all labels.
    pub fn clear(&mut self)
        ensures { self.new.counts.items ≡ [] }
    {
        self.counts.clear();
        self.are_all = true;
    }

    /// Whether these are all labels that there are.
    pub fn are_all(&self) -> bool
        ensures { result ≡ self.now.are_all }
    {
        self.are_all
    }

    /// Counts some more rows under a label.
    pub fn put(&mut self, label: &Label<A>, rows: u64)
        ensures { CountsMore self.old self.new (λ judges. cond (judges label.now) rows 0) }
    {
        if !self.are_all {
            return;
        }
        self.are_all = put(&mut self.counts, label, rows);
    }

    /// Counts the rows under other labels too.
    pub fn put_all(&mut self, others: &LabelCounts<A>)
        ensures counts { CountsMore self.old self.new (λ judges. total judges others.now.counts.items) }
        ensures all { IsTrue self.new.are_all → IsTrue others.now.are_all }
    {
        if !others.are_all {
            self.are_all = false;
            return;
        }
        for other in &others.counts {
            if other.rows > 0 {
                self.put(&other.label, other.rows);
            }
        }
    }

    // Counts rows under their labels.
    fn put_rows(&mut self, rows: &[Row<A>])
        ensures { CountsMore self.old self.new (λ judges. labelled judges rows.now) }
    {
        for row in rows {
            self.put(&row.label, 1);
        }
    }

    // Counts the rows of an entry under their labels.
    fn put_entry(&mut self, entry: &Entry<A>)
        ensures { CountsMore self.old self.new (λ judges. labelled judges entry.now.rows) }
    {
        match entry.rows() {
            RowsView::One(row) => self.put(row.label(), 1),
            RowsView::Many(rows) => self.put_rows(rows),
        }
    }

    /// Counts the rows of some entries under their labels.
    pub fn put_entries(&mut self, entries: &[Entry<A>])
        ensures { CountsMore self.old self.new (λ judges. labelled judges (rows_of entries.now)) }
    {
        for entry in entries {
            self.put_entry(entry);
        }
    }

    /// Where a label of these bytes is likely to stand.
    pub fn likely_place(&self, label: &Option<ShortText>) -> usize {
        if !self.are_all {
            return 0;
        }
        likely_place(self.counts.as_slice(), label)
    }

    /// Counts some rows less under a label, which is likely to stand at a place.
    pub fn take(&mut self, label: &Label<A>, rows: u64, likely: usize)
        ensures { CountsLess self.old self.new (λ judges. cond (judges label.now) rows 0) }
    {
        if !self.are_all {
            return;
        }
        self.are_all = take(&mut self.counts, label, rows, likely);
    }

    /// Counts the rows under other labels less.
    pub fn take_all(&mut self, others: &LabelCounts<A>)
        ensures counts { CountsLess self.old self.new (λ judges. total judges others.now.counts.items) }
        ensures all { IsTrue self.new.are_all → IsTrue others.now.are_all }
    {
        if !others.are_all {
            self.are_all = false;
            return;
        }
        for other in &others.counts {
            if other.rows > 0 {
                self.take(&other.label, other.rows, 0);
            }
        }
    }

    /// The rows under the labels that are found true.
    pub fn total<J: Judge<A>>(&self, judge: &mut J) -> u64
        requires { total (J.judges judge.old) self.now.counts.items < 2 ^ 64 }
        ensures total { result ≡ total (J.judges judge.old) self.now.counts.items }
        ensures same { J.judges judge.new ≡ J.judges judge.old }
    {
        let mut sum = 0;
        for count in self.counts.as_slice() {
            sum += found(count, judge);
        }
        sum
    }
}
