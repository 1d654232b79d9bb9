//! Counts of marked entries, whose rows are tallied by the numbers of their labels.
ghost use Rattle.std.specs.Prelude.{◌≡◌, ◌+◌, ◌<◌, ◌≤◌, ◌^◌, List, length, sum};
ghost use Rattle.st_text.specs.Texts.{Text};
ghost use Rattle.st_index.specs.inner.Counting.{count_of};
ghost use Rattle.st_index.specs.inner.Entries.{EntryValue, rows_of};
ghost use Rattle.st_tally.specs.inner.Marks.{AreMarks, HasAt, MakeUp, IsTested};
ghost use Rattle.st_tally.specs.inner.Sums.{AreInside};

use crate::page_marks::PageMarks;
use crate::spots::SpotBox;
use crate::testing::{has_some, test_marks};
use st_box::Query;
use st_index::{Entry, Judge, counting};
use std::alloc::Allocator;

// How many rows of the entry at a place are counted.
fn count_at<A: Allocator + Copy, J: Judge<A>>(
    entries: &[Entry<A>],
    at: usize,
    query: &Query,
    judge: &mut J,
) -> u64
    requires within { at < length entries.now }
    requires fits { (e : EntryValue A) → HasAt entries.now at e → length e.rows < 2 ^ 64 }
    ensures count { (e : EntryValue A) → HasAt entries.now at e → result ≡ count_of query.now (J.judges judge.old) e.rows }
    ensures same { J.judges judge.new ≡ J.judges judge.old }
{
    let one = &entries[at..at + 1];
    counting::count(one, query, judge)
}

// Tallies the row of the entry at a place by its mark, if it is inside and its label has a number. How many rows of another
// entry are counted, which is read only where its mark does not tell.
fn tally_at<A: Allocator + Copy, J: Judge<A>>(
    entries: &[Entry<A>],
    at: usize,
    marks: &PageMarks,
    inside: bool,
    query: &Query,
    judge: &mut J,
    tally: &mut [u64],
) -> u64
    requires within { at < length entries.now }
    requires not_more { length entries.now ≤ 32 }
    requires marked { (labels : List Text) × AreMarks labels entries.now marks.now }
    requires tested { IsTested query.now marks.now at inside }
    requires few { length tally.old ≤ 512 }
    requires fits { (e : EntryValue A) → HasAt entries.now at e → sum tally.old + length e.rows < 2 ^ 64 }
    ensures count { (labels : List Text) (e : EntryValue A) → AreMarks labels entries.now marks.now → HasAt entries.now at e
        → MakeUp (J.judges judge.old) labels result (count_of query.now (J.judges judge.old) e.rows) tally.old tally.new }
    ensures most { (e : EntryValue A) → HasAt entries.now at e → sum tally.new ≤ sum tally.old + length e.rows }
    ensures same { J.judges judge.new ≡ J.judges judge.old }
{
    let number = marks.numbers[at];
    let index = usize::from(number);
    if index < tally.len() {
        tally[index] += u64::from(inside);
        return 0;
    }
    if !inside {
        return 0;
    }
    count_at(entries, at, query, judge)
}

// The same where all rows are inside the query.
fn tally_inside_at<A: Allocator + Copy, J: Judge<A>>(
    entries: &[Entry<A>],
    at: usize,
    marks: &PageMarks,
    query: &Query,
    judge: &mut J,
    tally: &mut [u64],
) -> u64
    requires within { at < length entries.now }
    requires not_more { length entries.now ≤ 32 }
    requires inside { AreInside query.now (rows_of entries.now) }
    requires marked { (labels : List Text) × AreMarks labels entries.now marks.now }
    requires few { length tally.old ≤ 512 }
    requires fits { (e : EntryValue A) → HasAt entries.now at e → sum tally.old + length e.rows < 2 ^ 64 }
    ensures count { (labels : List Text) (e : EntryValue A) → AreMarks labels entries.now marks.now → HasAt entries.now at e
        → MakeUp (J.judges judge.old) labels result (count_of query.now (J.judges judge.old) e.rows) tally.old tally.new }
    ensures most { (e : EntryValue A) → HasAt entries.now at e → sum tally.new ≤ sum tally.old + length e.rows }
    ensures same { J.judges judge.new ≡ J.judges judge.old }
{
    let index = usize::from(marks.numbers[at]);
    if index < tally.len() {
        tally[index] += 1;
        return 0;
    }
    count_at(entries, at, query, judge)
}

/// Tallies the rows of a page's entries that are inside the query, by the numbers of their labels. How many of the rows whose
/// labels have no number are inside, and have a label that is found true.
pub fn count_marked<A: Allocator + Copy, J: Judge<A>>(
    entries: &[Entry<A>],
    marks: &PageMarks,
    query: &Query,
    judge: &mut J,
    tally: &mut [u64],
) -> u64
    requires not_more { length entries.now ≤ 32 }
    requires marked { (labels : List Text) × AreMarks labels entries.now marks.now }
    requires few { length tally.old ≤ 512 }
    requires fits { sum tally.old + length (rows_of entries.now) < 2 ^ 64 }
    ensures count { (labels : List Text) → AreMarks labels entries.now marks.now
        → MakeUp (J.judges judge.old) labels result (count_of query.now (J.judges judge.old) (rows_of entries.now)) tally.old tally.new }
    ensures most { sum tally.new ≤ sum tally.old + length (rows_of entries.now) }
    ensures same { J.judges judge.new ≡ J.judges judge.old }
{
    let tested = test_marks(marks, &SpotBox::new(query, marks.week));
    if !has_some(&tested) {
        return 0;
    }
    let mut count = 0;
    for at in 0..entries.len() {
        count += tally_at(entries, at, marks, tested[at], query, judge, tally);
    }
    count
}

/// The same where all rows are inside the query.
pub fn count_inside<A: Allocator + Copy, J: Judge<A>>(
    entries: &[Entry<A>],
    marks: &PageMarks,
    query: &Query,
    judge: &mut J,
    tally: &mut [u64],
) -> u64
    requires not_more { length entries.now ≤ 32 }
    requires inside { AreInside query.now (rows_of entries.now) }
    requires marked { (labels : List Text) × AreMarks labels entries.now marks.now }
    requires few { length tally.old ≤ 512 }
    requires fits { sum tally.old + length (rows_of entries.now) < 2 ^ 64 }
    ensures count { (labels : List Text) → AreMarks labels entries.now marks.now
        → MakeUp (J.judges judge.old) labels result (count_of query.now (J.judges judge.old) (rows_of entries.now)) tally.old tally.new }
    ensures most { sum tally.new ≤ sum tally.old + length (rows_of entries.now) }
    ensures same { J.judges judge.new ≡ J.judges judge.old }
{
    let mut count = 0;
    for at in 0..entries.len() {
        count += tally_inside_at(entries, at, marks, query, judge, tally);
    }
    count
}
