//! The marks of a page's entries: where their rows are, and the numbers of their labels.
ghost use Rattle.std.specs.Prelude.{◌≡◌, ◌<◌, ◌≤◌, IsTrue, List, length};
ghost use Rattle.st_index.specs.inner.Entries.{EntryValue};
ghost use Rattle.st_index.specs.inner.Changes.{IsChange};
ghost use Rattle.st_tally.specs.inner.Marks.{AreMarks, ClosesAt, DifferAt, DifferInMarks, HasNone, IsMarkedAt, Keeps, OpensAt};

use crate::numbering::{NO_NUMBER, number_of};
use crate::spots::{Spot, spot_of, week_of};
use st_index::entries::Change;
use st_index::{Entry, RowsView};
use st_label::Label;
use std::alloc::Allocator;

/// The number of an entry that is to be read: one of several rows, or of one row that has no spot in its page's week.
pub const MANY: u16 = u16::MAX;

/// For each entry of a page that has one row, the number of its label and its spot, side by side with those of the others.
/// Where the page has changed since, they are not known.
#[derive(Clone, Copy)]
pub struct PageMarks {
    pub known: bool,
    pub week: u32,
    pub numbers: [u16; 32],
    pub spots: [Spot; 32],
}

// What the numbers of the upper half of a page may be, once it is a page of its own.
fn upper_half(numbers: &[u16; 32]) -> [u16; 32] {
    let mut upper = [NO_NUMBER; 32];
    upper[..16].copy_from_slice(&numbers[16..]);
    upper
}

// The numbers of two pages side by side, where the first has so many entries.
fn side_by_side(left: &[u16; 32], right: &[u16; 32], count: usize) -> [u16; 64] {
    let count = count.min(32);
    let mut both = [NO_NUMBER; 64];
    both[..32].copy_from_slice(left);
    both[count..count + 32].copy_from_slice(right);
    both
}

// What the numbers of a page may be, whose entries are those from a place on of two pages side by side.
fn numbers_from(both: &[u16; 64], at: usize) -> [u16; 32] {
    let at = at.min(32);
    let mut numbers = [NO_NUMBER; 32];
    numbers.copy_from_slice(&both[at..at + 32]);
    numbers
}

impl PageMarks {
    /// None that are known.
    pub fn none() -> PageMarks
        ensures { HasNone result }
    {
        PageMarks {
            known: false,
            week: 0,
            numbers: [NO_NUMBER; 32],
            spots: [Spot::FIRST; 32],
        }
    }

    /// None that are known yet of a page that was the upper half of this one. Its numbers are likely to be those of that half.
    pub fn of_upper_half(&self) -> PageMarks
        ensures { HasNone result }
    {
        PageMarks {
            known: false,
            week: self.week,
            numbers: upper_half(&self.numbers),
            spots: self.spots,
        }
    }

    /// None that are known yet of this page and the next, between which entries went over: this one had so many before, and has so
    /// many now. The numbers are likely to go with their entries.
    pub fn shifted(&self, next: &PageMarks, had: usize, has: usize) -> (PageMarks, PageMarks)
        ensures first { HasNone result.0 }
        ensures second { HasNone result.1 }
    {
        let both = side_by_side(&self.numbers, &next.numbers, had);
        let first = PageMarks {
            known: false,
            numbers: numbers_from(&both, 0),
            ..*self
        };
        let second = PageMarks {
            known: false,
            numbers: numbers_from(&both, has),
            ..*next
        };
        (first, second)
    }

    // The number after that of an entry.
    fn after(&self, at: usize) -> u16 {
        match self.numbers.get(at.saturating_add(1)) {
            Some(number) => *number,
            None => NO_NUMBER,
        }
    }
}

// Marks an entry at its place. The number of its label is likely to be one of these.
fn mark_entry<A: Allocator + Copy>(
    labels: &mut Vec<Label<A>, A>,
    slots: &mut [u16],
    page: &mut PageMarks,
    at: usize,
    entry: &Entry<A>,
    likely: &[u16; 3],
)
    requires { at < 32 }
    ensures keeps { Keeps labels.old.items labels.new.items }
    ensures mark { IsMarkedAt labels.new.items page.new at entry.now }
    ensures others { DifferInMarks at page.old page.new }
{
    if let RowsView::One(row) = entry.rows()
        && let Some(spot) = spot_of(&row.point(), page.week)
    {
        page.numbers[at] = number_of(labels, slots, row.label(), likely);
        page.spots[at] = spot;
        return;
    }
    page.numbers[at] = MANY;
}

// The week of the first row of a page, or another where there is none.
fn first_week<A: Allocator + Copy>(entries: &[Entry<A>], other: u32) -> u32 {
    let Some(entry) = entries.first() else {
        return other;
    };
    match entry.rows() {
        RowsView::One(row) => week_of(&row.point()),
        RowsView::Many(rows) => match rows.first() {
            Some(row) => week_of(&row.point),
            None => other,
        },
    }
}

/// Marks a page's entries anew. They are likely to be marked as before, each at its place or at one beside it.
pub fn mark_page<A: Allocator + Copy>(
    labels: &mut Vec<Label<A>, A>,
    slots: &mut [u16],
    page: &mut PageMarks,
    entries: &[Entry<A>],
)
    requires { length entries.now ≤ 32 }
    ensures keeps { Keeps labels.old.items labels.new.items }
    ensures marks { AreMarks labels.new.items entries.now page.new }
{
    page.week = first_week(entries, page.week);
    let mut before = NO_NUMBER;
    for (at, entry) in entries.iter().enumerate() {
        let had = page.numbers[at];
        let likely = [had, before, page.after(at)];
        mark_entry(labels, slots, page, at, entry, &likely);
        before = had;
    }
    page.known = true;
}

// Makes room for an entry that came in, and marks it. Whether there is such an entry.
fn open_entry<A: Allocator + Copy>(
    labels: &mut Vec<Label<A>, A>,
    slots: &mut [u16],
    page: &mut PageMarks,
    at: usize,
    entries: &[Entry<A>],
) -> bool
    requires { length entries.now ≤ 32 }
    ensures keeps { Keeps labels.old.items labels.new.items }
    ensures marks { (old : List (EntryValue A)) → OpensAt at old entries.now → AreMarks labels.old.items old page.old → IsTrue result
        → AreMarks labels.new.items entries.now page.new }
{
    let count = entries.len();
    if at >= count {
        return false;
    }
    page.numbers.copy_within(at..count - 1, at + 1);
    page.spots.copy_within(at..count - 1, at + 1);
    mark_entry(labels, slots, page, at, &entries[at], &[NO_NUMBER; 3]);
    true
}

// Marks an entry that changed. Whether there is such an entry.
fn alter_entry<A: Allocator + Copy>(
    labels: &mut Vec<Label<A>, A>,
    slots: &mut [u16],
    page: &mut PageMarks,
    at: usize,
    entries: &[Entry<A>],
) -> bool
    requires { length entries.now ≤ 32 }
    ensures keeps { Keeps labels.old.items labels.new.items }
    ensures marks { (old : List (EntryValue A)) → DifferAt at old entries.now → AreMarks labels.old.items old page.old → IsTrue result
        → AreMarks labels.new.items entries.now page.new }
{
    if at >= entries.len() {
        return false;
    }
    mark_entry(labels, slots, page, at, &entries[at], &[NO_NUMBER; 3]);
    true
}

// Lets go of the mark of an entry that went. Whether there was such a place.
fn close_entry<A: Allocator + Copy>(
    labels: &[Label<A>],
    page: &mut PageMarks,
    at: usize,
    entries: &[Entry<A>],
) -> bool
    ensures { (old : List (EntryValue A)) → ClosesAt at old entries.now → AreMarks labels.now old page.old → IsTrue result
        → AreMarks labels.now entries.now page.new }
{
    let count = entries.len();
    if at > count || count >= 32 {
        return false;
    }
    page.numbers.copy_within(at + 1..count + 1, at);
    page.spots.copy_within(at + 1..count + 1, at);
    true
}

/// Follows a change of a page's entries. Whether it could.
pub fn follow<A: Allocator + Copy>(
    labels: &mut Vec<Label<A>, A>,
    slots: &mut [u16],
    page: &mut PageMarks,
    change: Change,
    entries: &[Entry<A>],
) -> bool
    requires { length entries.now ≤ 32 }
    ensures keeps { Keeps labels.old.items labels.new.items }
    ensures marks { (old : List (EntryValue A)) → IsChange change old entries.now → AreMarks labels.old.items old page.old → IsTrue result
        → AreMarks labels.new.items entries.now page.new }
{
    match change {
        Change::Opened(at) => open_entry(labels, slots, page, at, entries),
        Change::Altered(at) => alter_entry(labels, slots, page, at, entries),
        Change::Closed(at) => close_entry(labels.as_slice(), page, at, entries),
    }
}
