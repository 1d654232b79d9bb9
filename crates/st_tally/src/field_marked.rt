//! Counts in fields of marked entries, whose labels are judged by their numbers.
ghost use Rattle.std.specs.Prelude.{◌≡◌, ℕ, ◌+◌, ◌<◌, ◌≤◌, ◌&&◌, IsTrue, cond, get_or, length, nat_eq};
ghost use Rattle.st_box.specs.Query.{is_inside};
ghost use Rattle.st_index.specs.inner.Fields.{CanAdd, Counts};
ghost use Rattle.st_index.specs.inner.Entries.{EntryValue, rows_of};
ghost use Rattle.st_key.specs.declared.point.Point.{Point as PointValue};
ghost use Rattle.st_tally.specs.inner.Marks.{AreKnown, AreMarks, AreTested, HasAt, IsTested, verdict_on};
ghost use Rattle.st_tally.specs.inner.Spots.{IsSpotOf};
ghost use Rattle.st_tally.specs.inner.Sums.{AreInside};

use crate::numbering::MAX_NUMBERS;
use crate::page_marks::PageMarks;
use crate::spots::{Spot, SpotBox, point_at};
use crate::testing::{has_some, test_marks};
use crate::verdicts::Verdicts;
use st_index::{Entry, Fields, Judge, field_counting};
use std::alloc::Allocator;

// Counts a row that is inside the query, at a spot, and whose label has a number, in its field.
fn count_numbered<A: Allocator + Copy, J: Judge<A>, F: Fields>(
    week: u32,
    spot: &Spot,
    number: usize,
    verdicts: &mut Verdicts<'_, A>,
    judge: &mut J,
    fields: &F,
    counts: &mut [u64],
)
    requires spot { (point : PointValue) × IsSpotOf week spot.now point }
    requires inside { (point : PointValue) → IsSpotOf week spot.now point → IsTrue (is_inside (F.query fields.now) point) }
    requires low { number < 512 }
    requires long { length counts.old ≡ F.count fields.now }
    requires fits { CanAdd 1 counts.old }
    requires known { AreKnown (J.judges judge.old) verdicts.old.marks.now.labels.items verdicts.old.found }
    ensures marks { verdicts.new.marks ≡ verdicts.old.marks }
    ensures known { AreKnown (J.judges judge.old) verdicts.old.marks.now.labels.items verdicts.new.found }
    ensures counts { (point : PointValue) (at : ℕ) → IsSpotOf week spot.now point → get_or counts.new at 0 ≡ get_or counts.old at 0
        + cond (is_inside (F.query fields.now) point && verdict_on (J.judges judge.old) verdicts.old.marks.now.labels.items number
        && nat_eq (F.field_of fields.now point) at) 1 0 }
    ensures same { J.judges judge.new ≡ J.judges judge.old }
{
    if verdicts.of(number, judge) {
        let field = fields.field(&point_at(week, spot));
        field_counting::add(counts, field, 1);
    }
}

// Counts the rows of the entry at a place in their fields, where it was tested that they are inside. The entry is read only where
// its mark does not tell.
fn count_at<A: Allocator + Copy, J: Judge<A>, F: Fields>(
    entries: &[Entry<A>],
    at: usize,
    marks: &PageMarks,
    inside: bool,
    verdicts: &mut Verdicts<'_, A>,
    judge: &mut J,
    fields: &F,
    counts: &mut [u64],
)
    requires within { at < length entries.now }
    requires not_more { length entries.now ≤ 32 }
    requires tested { IsTested (F.query fields.now) marks.now at inside }
    requires long { length counts.old ≡ F.count fields.now }
    requires fits { (e : EntryValue A) → HasAt entries.now at e → CanAdd (length e.rows) counts.old }
    requires marked { AreMarks verdicts.old.marks.now.labels.items entries.now marks.now }
    requires known { AreKnown (J.judges judge.old) verdicts.old.marks.now.labels.items verdicts.old.found }
    ensures marks { verdicts.new.marks ≡ verdicts.old.marks }
    ensures known { AreKnown (J.judges judge.old) verdicts.old.marks.now.labels.items verdicts.new.found }
    ensures counts { (e : EntryValue A) → HasAt entries.now at e
        → Counts (F.query fields.now) (J.judges judge.old) (F.field_of fields.now) e.rows counts.old counts.new }
    ensures same { J.judges judge.new ≡ J.judges judge.old }
{
    if !inside {
        return;
    }
    let index = usize::from(marks.numbers[at]);
    if index < MAX_NUMBERS {
        let spot = &marks.spots[at];
        count_numbered(marks.week, spot, index, verdicts, judge, fields, counts);
        return;
    }
    field_counting::count(&entries[at..at + 1], judge, fields, counts);
}

// Counts the rows of a page's entries in their fields, of which it was tested whether they are inside.
fn count_tested<A: Allocator + Copy, J: Judge<A>, F: Fields>(
    entries: &[Entry<A>],
    marks: &PageMarks,
    tested: &[bool; 32],
    verdicts: &mut Verdicts<'_, A>,
    judge: &mut J,
    fields: &F,
    counts: &mut [u64],
)
    requires not_more { length entries.now ≤ 32 }
    requires tested { AreTested (F.query fields.now) entries.now marks.now tested.now }
    requires long { length counts.old ≡ F.count fields.now }
    requires fits { CanAdd (length (rows_of entries.now)) counts.old }
    requires marked { AreMarks verdicts.old.marks.now.labels.items entries.now marks.now }
    requires known { AreKnown (J.judges judge.old) verdicts.old.marks.now.labels.items verdicts.old.found }
    ensures marks { verdicts.new.marks ≡ verdicts.old.marks }
    ensures known { AreKnown (J.judges judge.old) verdicts.old.marks.now.labels.items verdicts.new.found }
    ensures counts { Counts (F.query fields.now) (J.judges judge.old) (F.field_of fields.now) (rows_of entries.now)
        counts.old counts.new }
    ensures same { J.judges judge.new ≡ J.judges judge.old }
{
    for at in 0..entries.len() {
        let inside = tested[at];
        count_at(entries, at, marks, inside, verdicts, judge, fields, counts);
    }
}

/// Adds to the number of each field how many rows of a page's entries are in it, inside the query, and have a label that is found
/// true.
pub fn count_marked<A: Allocator + Copy, J: Judge<A>, F: Fields>(
    entries: &[Entry<A>],
    marks: &PageMarks,
    verdicts: &mut Verdicts<'_, A>,
    judge: &mut J,
    fields: &F,
    counts: &mut [u64],
)
    requires not_more { length entries.now ≤ 32 }
    requires long { length counts.old ≡ F.count fields.now }
    requires fits { CanAdd (length (rows_of entries.now)) counts.old }
    requires marked { AreMarks verdicts.old.marks.now.labels.items entries.now marks.now }
    requires known { AreKnown (J.judges judge.old) verdicts.old.marks.now.labels.items verdicts.old.found }
    ensures marks { verdicts.new.marks ≡ verdicts.old.marks }
    ensures known { AreKnown (J.judges judge.old) verdicts.old.marks.now.labels.items verdicts.new.found }
    ensures counts { Counts (F.query fields.now) (J.judges judge.old) (F.field_of fields.now) (rows_of entries.now)
        counts.old counts.new }
    ensures same { J.judges judge.new ≡ J.judges judge.old }
{
    let tested = test_marks(marks, &SpotBox::new(fields.query(), marks.week));
    if has_some(&tested) {
        count_tested(entries, marks, &tested, verdicts, judge, fields, counts);
    }
}

/// The same where all rows are inside the query.
pub fn count_inside<A: Allocator + Copy, J: Judge<A>, F: Fields>(
    entries: &[Entry<A>],
    marks: &PageMarks,
    verdicts: &mut Verdicts<'_, A>,
    judge: &mut J,
    fields: &F,
    counts: &mut [u64],
)
    requires not_more { length entries.now ≤ 32 }
    requires inside { AreInside (F.query fields.now) (rows_of entries.now) }
    requires long { length counts.old ≡ F.count fields.now }
    requires fits { CanAdd (length (rows_of entries.now)) counts.old }
    requires marked { AreMarks verdicts.old.marks.now.labels.items entries.now marks.now }
    requires known { AreKnown (J.judges judge.old) verdicts.old.marks.now.labels.items verdicts.old.found }
    ensures marks { verdicts.new.marks ≡ verdicts.old.marks }
    ensures known { AreKnown (J.judges judge.old) verdicts.old.marks.now.labels.items verdicts.new.found }
    ensures counts { Counts (F.query fields.now) (J.judges judge.old) (F.field_of fields.now) (rows_of entries.now)
        counts.old counts.new }
    ensures same { J.judges judge.new ≡ J.judges judge.old }
{
    count_tested(entries, marks, &[true; 32], verdicts, judge, fields, counts);
}
