//! What an index of rows promises.
ghost use Rattle.std.specs.Prelude.{◌≡◌, ◌<◌, ◌≤◌, List, IfOk, IfSome, IfNone, length};
ghost use Rattle.std.specs.List.{All, Contains};
ghost use Rattle.st_key.specs.declared.period.Period.{Period};
ghost use Rattle.st_index.specs.declared.row.Row.{Row};
ghost use Rattle.st_index.specs.inner.Entries.{name_of, key_end, rank_of};
ghost use Rattle.st_key.specs.Key.{rank};
ghost use Rattle.st_index.specs.inner.Counting.{count_of};
ghost use Rattle.st_index.specs.inner.Fields.{CanAdd, Counts};
ghost use Rattle.st_index.specs.RowViews.{row_of_view};
ghost use Rattle.st_index.specs.inner.Index.{Adds, Swaps, IsAbsent, Holds, Region, region, IsLawful, IsLeafAt, rows_from, rows_in_range};

use crate::entry::Entry;
use crate::fields::Fields;
use crate::judge::Judge;
use crate::row::Row;
use crate::row_view::RowView;
use st_box::Query;
use st_key::{Key, Period};
use std::alloc::{AllocError, Allocator, Global};

/// The entries of a region, in order, and the first and the last key of the region.
#[derive(Drop)]
pub struct Leaf<'a, A: Allocator = Global> {
    pub entries: &'a [Entry<A>],
    pub first: Key,
    pub last: Key,
}

/// Consecutive keys, from the first to the last.
#[derive(Clone, Copy)]
pub struct KeyRange {
    pub first: Key,
    pub last: Key,
}

/// What an index takes as a row: a `Row`.
pub trait AsRow<A: Allocator + Copy>: Drop {
    ghost value: { Self → Row A };

    /// The row.
    fn as_row(&self) -> &Row<A>
        ensures { result.now ≡ value self.now };

    /// An equal row, or an error if memory runs out.
    fn copy_of(row: &RowView<'_, A>) -> Result<Self, AllocError>
        ensures { IfOk result (λ other. value other ≡ row_of_view row.now) };
}

impl<A: Allocator + Copy> AsRow<A> for Row<A> {
    ghost value = { λ row. row };

    fn as_row(&self) -> &Row<A> {
        self
    }

    fn copy_of(row: &RowView<'_, A>) -> Result<Row<A>, AllocError> {
        row.copy()
    }
}

/// Rows in scan order by the keys of a period, cut into regions of consecutive keys.
///
/// The content is a list of at most 2^64 - 1 rows. The regions, at most 2^64 - 1 of them, follow each
/// other from the period's first key to its last.
pub trait RowIndex {
    /// The allocator of the rows.
    type Alloc: Allocator + Copy;

    /// The rows that are put in: `Row<Self::Alloc>`.
    type Row: AsRow<Self::Alloc>;

    /// The memory that one more row takes.
    type Spare: Drop;

    ghost period_of: { Self → Period };

    ghost content: { Self → List (Row Self.Alloc) };

    ghost regions: { Self → List Region };

    ghost has_room: { Self → Row Self.Alloc → Self.Spare → Type 0 };

    /// The period of the keys.
    fn period(&self) -> Period
        ensures value { result ≡ period_of self.now }
        ensures lawful { IsLawful (period_of self.now) (content self.now) (regions self.now) };

    /// An equal index, or an error if memory runs out.
    fn copy(&self) -> Result<Self, AllocError>
        ensures period { IfOk result (λ other. period_of other ≡ period_of self.now) }
        ensures content { IfOk result (λ other. content other ≡ content self.now) }
        ensures regions { IfOk result (λ other. regions other ≡ regions self.now) };

    /// The region that holds the key, with exactly the content's entries in it. It takes no memory.
    fn leaf_at(&self, key: Key) -> Leaf<'_, Self::Alloc>
        requires { rank key < key_end (period_of self.now) }
        ensures leaf { IsLeafAt (period_of self.now) (rank key) (content self.now)
            (region (rank result.first) (rank result.last)) result.entries.now }
        ensures of_regions { Contains (regions self.now) (region (rank result.first) (rank result.last)) };

    /// How many rows of the content are inside the query and have a label that is found true. It takes no
    /// memory of its own.
    fn count<J: Judge<Self::Alloc>>(&self, query: &Query, judge: &mut J) -> u64
        ensures { result ≡ count_of query.now (J.judges judge.old) (content self.now) };

    /// Adds to the number of each field how many rows of the content are in it, inside the query, and have a label that is found
    /// true. It takes no memory of its own.
    fn count_fields<J: Judge<Self::Alloc>, F: Fields>(
        &self,
        judge: &mut J,
        fields: &F,
        counts: &mut [u64],
    )
        requires long { length counts.old ≡ F.count fields.now }
        requires none { All (λ n. n ≡ 0) counts.old }
        ensures { Counts (F.query fields.now) (J.judges judge.old) (F.field_of fields.now) (content self.now) counts.old counts.new };

    /// Adds to the number of each field how many rows of the content are in it, inside the query, and have a label that is found
    /// true, of those whose keys are in a range around this one. The index chooses the range, and hands it back. `None`, and
    /// nothing added, where it begins before `from`. It takes no memory of its own.
    fn count_fields_at<J: Judge<Self::Alloc>, F: Fields>(
        &self,
        from: Key,
        key: Key,
        judge: &mut J,
        fields: &F,
        counts: &mut [u64],
    ) -> Option<KeyRange>
        requires key { rank key < key_end (period_of self.now) }
        requires long { length counts.old ≡ F.count fields.now }
        requires fits { CanAdd (length (rows_from (period_of self.now) (rank from) (content self.now))) counts.old }
        ensures counts { IfSome result (λ range. Counts (F.query fields.now) (J.judges judge.old) (F.field_of fields.now)
            (rows_in_range (period_of self.now) range (content self.now)) counts.old counts.new) }
        ensures has_key { IfSome result (λ range. (rank range.first ≤ rank key) × (rank key ≤ rank range.last)) }
        ensures from { IfSome result (λ range. rank from ≤ rank range.first) }
        ensures within { IfSome result (λ range. rank range.last < key_end (period_of self.now)) }
        ensures before { IfNone result (0 < rank from) }
        ensures none { IfNone result (counts.new ≡ counts.old) }
        ensures same { J.judges judge.new ≡ J.judges judge.old };

    /// All the memory that it takes to put in this row now. An error if memory runs out, or if
    /// 2^64 - 1 rows are held.
    fn prepare(&self, row: &Row<Self::Alloc>) -> Result<Self::Spare, AllocError>
        ensures { IfOk result (λ spare. has_room self.now row.now spare) };

    /// Puts in a row, with the memory that was prepared for it at this content. No row with its key, its id
    /// and its label's text may be held. It takes no further memory.
    fn insert(&mut self, row: Self::Row, spare: Self::Spare)
        requires room { has_room self.old (Self.Row.value row) spare }
        requires absent { IsAbsent (period_of self.old) (rank_of (period_of self.old) (Self.Row.value row)) (name_of (Self.Row.value row))
            (content self.old) }
        ensures adds { Adds (Self.Row.value row) (content self.old) (content self.new) }
        ensures period { period_of self.new ≡ period_of self.old }
        ensures lawful { IsLawful (period_of self.new) (content self.new) (regions self.new) };

    /// Takes out the row of a key, an id and a label's text. `None`, and nothing changed, where no such row
    /// is held, as at a key past the period's end. It takes no memory.
    fn remove(&mut self, key: Key, id: &str, label: &str) -> Option<Row<Self::Alloc>>
        ensures some { IfSome result (λ row. Adds row (content self.new) (content self.old)) }
        ensures placed { IfSome result (λ row. rank_of (period_of self.old) row ≡ rank key) }
        ensures named { IfSome result (λ row. name_of row ≡ record { id = id.now; label = label.now }) }
        ensures none { IfNone result (content self.new ≡ content self.old) }
        ensures same_regions { IfNone result (regions self.new ≡ regions self.old) }
        ensures absent { IfNone result (IsAbsent (period_of self.old) (rank key) (record { id = id.now; label = label.now })
            (content self.old)) }
        ensures period { period_of self.new ≡ period_of self.old }
        ensures lawful { IsLawful (period_of self.new) (content self.new) (regions self.new) };

    /// Puts a row in the place of the held row of its key, its id and its label's text, which is handed
    /// back. It takes no memory.
    fn replace(&mut self, row: Self::Row) -> Row<Self::Alloc>
        requires { Holds (period_of self.old) (rank_of (period_of self.old) (Self.Row.value row)) (name_of (Self.Row.value row))
            (content self.old) }
        ensures swaps { Swaps result (Self.Row.value row) (content self.old) (content self.new) }
        ensures placed { rank_of (period_of self.old) result ≡ rank_of (period_of self.old) (Self.Row.value row) }
        ensures named { name_of result ≡ name_of (Self.Row.value row) }
        ensures period { period_of self.new ≡ period_of self.old }
        ensures lawful { IsLawful (period_of self.new) (content self.new) (regions self.new) };
}
