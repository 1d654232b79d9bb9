//! Views of single rows.
ghost use Rattle.std.specs.Prelude.{◌≡◌, ◌<◌, IfOk};
ghost use Rattle.st_index.specs.Notes.{lent_bytes};
ghost use Rattle.st_index.specs.RowViews.{point_in, row_of_view};
ghost use Rattle.st_index.specs.inner.Entries.{name_of, key_end, name_cmp, rank_of};
ghost use Rattle.st_index.specs.Texts.{IsNote};
ghost use Rattle.st_key.specs.Key.{rank};

use crate::id::Id;
use crate::naming::cmp_names;
use crate::note::{Note, NoteText, lent_text};
use crate::row::Row;
use crate::row_point::RowPoint;
use st_key::{Key, Period, Point};
use st_label::Label;
use std::alloc::{AllocError, Allocator, Global};
use std::cmp::Ordering;

/// A row by reference, wherever its parts lie.
#[derive_where(Clone, Copy)]
pub struct RowView<'a, A: Allocator = Global> {
    point: RowPoint,
    id: &'a Id<A>,
    label: &'a Label<A>,
    note: Option<&'a NoteText<A>>,
}

impl<'a, A: Allocator> RowView<'a, A> {
    // The row of these parts. Where there is no note, its text is empty.
    pub(crate) fn new(
        point: RowPoint,
        id: &'a Id<A>,
        label: &'a Label<A>,
        note: Option<&'a NoteText<A>>,
    ) -> Self
        ensures { row_of_view result ≡ record { id = id.now; point = point_in point; label = label.now; note = lent_bytes note.entry } }
    {
        RowView {
            point,
            id,
            label,
            note,
        }
    }

    /// A row in view.
    pub fn of(row: &'a Row<A>) -> Self
        ensures { row_of_view result ≡ row.now }
    {
        RowView::new(
            RowPoint::Given(row.point),
            &row.id,
            &row.label,
            row.note.lend(),
        )
    }

    /// The row's id.
    pub fn id(self) -> &'a Id<A>
        ensures { result.now ≡ (row_of_view self.entry).id }
    {
        self.id
    }

    /// Where and when.
    pub fn point(self) -> Point
        ensures { result ≡ (row_of_view self.entry).point }
    {
        self.point.point()
    }

    /// Who may see it.
    pub fn label(self) -> &'a Label<A>
        ensures { result.now ≡ (row_of_view self.entry).label }
    {
        self.label
    }

    /// What else is to be kept with the point.
    pub fn note(self) -> &'a str
        ensures value { result.now ≡ (row_of_view self.entry).note }
        ensures fits { IsNote result.now }
    {
        lent_text(self.note)
    }
}

impl<A: Allocator + Copy> RowView<'_, A> {
    /// An equal row, or an error if memory runs out.
    pub fn copy(self) -> Result<Row<A>, AllocError>
        ensures { IfOk result (λ other. other ≡ row_of_view self.entry) }
    {
        Ok(Row {
            id: self.id.copy()?,
            point: self.point(),
            label: self.label.copy()?,
            note: Note::fitting(self.id.alloc(), self.note())?,
        })
    }

    /// The key of the row's point.
    pub fn key(self, period: Period) -> Key
        ensures value { rank result ≡ rank_of period (row_of_view self.entry) }
        ensures in_period { rank result < key_end period }
    {
        self.point.key(period)
    }

    /// The order of the row's name and that of an id and a label: by the id's bytes, then by the label's.
    pub fn cmp_name(self, id: &str, label: &str) -> Ordering
        ensures { result ≡ name_cmp (name_of (row_of_view self.entry)) (record { id = id.now; label = label.now }) }
    {
        cmp_names(self.id, self.label, id, label)
    }
}
