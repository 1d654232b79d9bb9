//! How many rows of entries are in each field, of those inside a query that have a label that is found true.
ghost use Rattle.std.specs.Prelude.{◌≡◌, ℕ, ◌+◌, ◌<◌, ◌^◌, [], ◌∷◌, cond, get_or, length, nat_eq};
ghost use Rattle.st_index.specs.inner.Fields.{CanAdd, Counts};
ghost use Rattle.st_index.specs.RowViews.{row_of_view};
ghost use Rattle.st_index.specs.inner.Entries.{rows_of};

use crate::entry::Entry;
use crate::fields::Fields;
use crate::judge::Judge;
use crate::row::Row;
use crate::row_view::RowView;
use crate::rows_view::RowsView;
use std::alloc::Allocator;

/// Adds so many rows to the number of a field.
pub fn add(counts: &mut [u64], field: usize, rows: u64)
    requires below { field < length counts.old }
    requires fits { get_or counts.old field 0 + rows < 2 ^ 64 }
    ensures { (at : ℕ) → get_or counts.new at 0 ≡ get_or counts.old at 0 + cond (nat_eq field at) rows 0 }
{
    counts[field] += rows;
}

// Counts the row in its field, if it is counted.
fn count_row<A: Allocator + Copy, J: Judge<A>, F: Fields>(
    row: RowView<'_, A>,
    judge: &mut J,
    fields: &F,
    counts: &mut [u64],
)
    requires long { length counts.old ≡ F.count fields.now }
    requires fits { CanAdd 1 counts.old }
    ensures counts { Counts (F.query fields.now) (J.judges judge.old) (F.field_of fields.now) (row_of_view row.entry ∷ []) counts.old
        counts.new }
    ensures same { J.judges judge.new ≡ J.judges judge.old }
{
    let point = row.point();
    if fields.query().has(&point) && judge.finds_true(row.label()) {
        let field = fields.field(&point);
        add(counts, field, 1);
    }
}

// Counts the rows in their fields.
fn count_rows<A: Allocator + Copy, J: Judge<A>, F: Fields>(
    rows: &[Row<A>],
    judge: &mut J,
    fields: &F,
    counts: &mut [u64],
)
    requires long { length counts.old ≡ F.count fields.now }
    requires fits { CanAdd (length rows.now) counts.old }
    ensures counts { Counts (F.query fields.now) (J.judges judge.old) (F.field_of fields.now) rows.now counts.old counts.new }
    ensures same { J.judges judge.new ≡ J.judges judge.old }
{
    for row in rows {
        count_row(RowView::of(row), judge, fields, counts);
    }
}

// Counts the rows of an entry.
fn count_entry<A: Allocator + Copy, J: Judge<A>, F: Fields>(
    entry: &Entry<A>,
    judge: &mut J,
    fields: &F,
    counts: &mut [u64],
)
    requires long { length counts.old ≡ F.count fields.now }
    requires fits { CanAdd (length entry.now.rows) counts.old }
    ensures counts { Counts (F.query fields.now) (J.judges judge.old) (F.field_of fields.now) entry.now.rows counts.old counts.new }
    ensures same { J.judges judge.new ≡ J.judges judge.old }
{
    match entry.rows() {
        RowsView::One(row) => count_row(row, judge, fields, counts),
        RowsView::Many(rows) => count_rows(rows, judge, fields, counts),
    }
}

/// Adds to the number of each field how many rows of the entries are in it, inside the query, and have a label that is found true.
pub fn count<A: Allocator + Copy, J: Judge<A>, F: Fields>(
    entries: &[Entry<A>],
    judge: &mut J,
    fields: &F,
    counts: &mut [u64],
)
    requires long { length counts.old ≡ F.count fields.now }
    requires fits { CanAdd (length (rows_of entries.now)) counts.old }
    ensures counts { Counts (F.query fields.now) (J.judges judge.old) (F.field_of fields.now) (rows_of entries.now)
        counts.old counts.new }
    ensures same { J.judges judge.new ≡ J.judges judge.old }
{
    for entry in entries {
        count_entry(entry, judge, fields, counts);
    }
}
