//! What a node knows of the rows below it.
//!
//! Where a label is looked for first depends on its bytes; the first label fills all places. Bounds do not narrow when a row goes.
//! Both are made anew when a node is split, and after 256 removals from a node that does not know its labels.
ghost use Rattle.std.specs.Prelude.{◌≡◌, ◌++◌, [], ◌∷◌, Bool, List, ◌<◌, ◌^◌, IsFalse, IsTrue, IfSome, length};
ghost use Rattle.std.specs.List.{All};
ghost use Rattle.st_box.specs.Query.{is_inside};
ghost use Rattle.st_index.specs.declared.row.Row.{Row as RowValue};
ghost use Rattle.st_index.specs.RowViews.{row_of_view};
ghost use Rattle.st_index.specs.inner.Entries.{rows_of};
ghost use Rattle.st_index.specs.inner.Counting.{count_of};
ghost use Rattle.st_text.specs.Texts.{Text};
ghost use Rattle.st_tally.specs.inner.Sums.{AreInside, IsWithin, Sums};

use crate::bounds::Bounds;
use crate::label_counts::{LabelCount, LabelCounts};
use st_box::Query;
use st_index::{Entry, Fields, Judge, Row, RowView, RowsView};
use st_key::Point;
use st_text::ShortText;
use std::alloc::{Allocator, Global};

/// The most labels whose rows a node counts.
pub const MAX_LABELS: usize = 16;

// After how many removals a node whose labels are too many is summed up again, and all pages below it have marks again.
const PATIENCE: u64 = 256;

/// The bounds of the rows below a node, and how many rows there are under each label, unless the labels are
/// too many or too long.
#[derive(Drop)]
pub struct Summary<A: Allocator = Global> {
    pub(crate) bounds: Bounds,
    pub(crate) labels: LabelCounts<A>,
    pub(crate) removals: u64,
}

impl<A: Allocator + Copy> Summary<A> {
    /// The summary of no row. Labels are counted as far as the list has room for them.
    pub fn new(counts: Vec<LabelCount<A>, A>) -> Summary<A>
        ensures { Sums result [] }
    {
        Summary {
            bounds: Bounds::NONE,
            labels: LabelCounts::new(counts),
            removals: 0,
        }
    }

    /// Makes it the summary of no row.
    pub fn clear(&mut self)
        ensures { Sums self.new [] }
    {
        self.bounds = Bounds::NONE;
        self.labels.clear();
        self.removals = 0;
    }

    /// Sums up one row more.
    pub fn add(&mut self, row: &Row<A>)
        ensures { (rows : List (RowValue A)) → Sums self.old rows → Sums self.new (rows ++ row.now ∷ []) }
    {
        self.add_view(RowView::of(row));
    }

    // Sums up one row in view more.
    fn add_view(&mut self, row: RowView<'_, A>)
        ensures { (rows : List (RowValue A)) → Sums self.old rows → Sums self.new (rows ++ row_of_view row.entry ∷ []) }
    {
        self.bounds = self.bounds.with(&row.point());
        self.labels.put(row.label(), 1);
    }

    /// Sums up the rows of another summary too.
    pub fn add_all(&mut self, other: &Summary<A>)
        ensures { (rows more : List (RowValue A)) → Sums self.old rows → Sums other.now more → Sums self.new (rows ++ more) }
    {
        self.bounds = self.bounds.joined(other.bounds);
        self.labels.put_all(&other.labels);
    }

    // Sums up some rows more.
    fn add_rows(&mut self, more: &[Row<A>])
        ensures { (rows : List (RowValue A)) → Sums self.old rows → Sums self.new (rows ++ more.now) }
    {
        for row in more {
            self.add(row);
        }
    }

    // Sums up the rows of an entry too.
    fn add_entry(&mut self, entry: &Entry<A>)
        ensures { (rows : List (RowValue A)) → Sums self.old rows → Sums self.new (rows ++ entry.now.rows) }
    {
        match entry.rows() {
            RowsView::One(row) => self.add_view(row),
            RowsView::Many(more) => self.add_rows(more),
        }
    }

    /// Sums up the rows of some entries too.
    pub fn add_entries(&mut self, entries: &[Entry<A>])
        ensures { (rows : List (RowValue A)) → Sums self.old rows → Sums self.new (rows ++ rows_of entries.now) }
    {
        for entry in entries {
            self.add_entry(entry);
        }
    }

    /// Sums up the rows of a page's entries too. The page's own summary has their bounds.
    pub fn add_page(&mut self, page: &Summary<A>, entries: &[Entry<A>])
        requires { Sums page.now (rows_of entries.now) }
        ensures { (rows : List (RowValue A)) → Sums self.old rows → Sums self.new (rows ++ rows_of entries.now) }
    {
        self.bounds = self.bounds.joined(page.bounds);
        self.labels.put_entries(entries);
    }

    /// Where a label of these bytes is likely to stand among those that are counted.
    pub fn likely_place(&self, label: &Option<ShortText>) -> usize {
        self.labels.likely_place(label)
    }

    /// Takes one row out of the summary; its label is likely to stand at `likely`. The bounds stay as they are.
    pub fn take(&mut self, row: &Row<A>, likely: usize)
        ensures { (rows : List (RowValue A)) → Sums self.old (rows ++ row.now ∷ []) → Sums self.new rows }
    {
        self.removals = self.removals.saturating_add(1);
        self.labels.take(&row.label, 1, likely);
    }

    /// Sums up the rows of another summary less, which are the last of these. The bounds stay as they are.
    pub fn take_all(&mut self, other: &Summary<A>)
        ensures { (rows more : List (RowValue A)) → Sums self.old (rows ++ more) → Sums other.now more → Sums self.new rows }
    {
        self.labels.take_all(&other.labels);
    }

    /// The bounds of the rows.
    pub fn bounds(&self) -> Bounds
        ensures { result ≡ self.now.bounds }
    {
        self.bounds
    }

    /// Takes other bounds, between which the same rows lie.
    pub fn set_bounds(&mut self, bounds: Bounds)
        ensures { (rows : List (RowValue A)) → Sums self.old rows → All (λ (row : RowValue A). IsWithin bounds row.point) rows
            → Sums self.new rows }
    {
        self.bounds = bounds;
    }

    /// Whether the rows are counted under all their labels.
    pub fn counts_labels(&self) -> bool {
        self.labels.are_all()
    }

    /// Widens the bounds so that a point lies between them.
    pub fn widen(&mut self, point: &Point)
        ensures point { IsWithin self.new.bounds point.now }
        ensures rows { (rows : List (RowValue A)) → Sums self.old rows → Sums self.new rows }
    {
        self.bounds = self.bounds.with(point);
    }

    /// Whether labels that were too many may be fewer by now.
    pub fn is_due(&self) -> bool {
        !self.labels.are_all() && self.removals >= PATIENCE
    }

    /// Whether so many rows were taken out that pages without marks are to have some.
    pub fn is_time(&self) -> bool {
        self.removals % PATIENCE == PATIENCE - 1
    }

    /// Whether a row may be inside the query.
    pub fn meets(&self, query: &Query) -> bool
        ensures { (rows : List (RowValue A)) (judges : Text → Bool) → Sums self.now rows → IsFalse result
            → count_of query.now judges rows ≡ 0 }
    {
        self.bounds.meets(query)
    }

    /// Whether all rows are inside the query.
    pub fn lies_in(&self, query: &Query) -> bool
        ensures { (rows : List (RowValue A)) → Sums self.now rows → IsTrue result → AreInside query.now rows }
    {
        self.bounds.lies_in(query)
    }

    /// The one field of all rows that are inside the query, if they are found to share one.
    pub fn one_field<F: Fields>(&self, fields: &F) -> Option<usize>
        ensures some { (rows : List (RowValue A)) → Sums self.now rows → IfSome result (λ field. All (λ (row : RowValue A).
            IsTrue (is_inside (F.query fields.now) row.point) → F.field_of fields.now row.point ≡ field) rows) }
        ensures below { IfSome result (λ field. field < F.count fields.now) }
    {
        self.bounds.one_field(fields)
    }

    /// The number of rows that are counted, where the labels are counted and all rows are inside the query.
    pub fn count_inside<J: Judge<A>>(&self, query: &Query, judge: &mut J) -> Option<u64>
        requires { (rows : List (RowValue A)) × Sums self.now rows × (length rows < 2 ^ 64) }
        ensures some { (rows : List (RowValue A)) → Sums self.now rows
            → IfSome result (λ count. count ≡ count_of query.now (J.judges judge.old) rows) }
        ensures same { J.judges judge.new ≡ J.judges judge.old }
    {
        if !self.labels.are_all() {
            return None;
        }
        if !self.bounds.lies_in(query) {
            return None;
        }
        Some(self.labels.total(judge))
    }
}
