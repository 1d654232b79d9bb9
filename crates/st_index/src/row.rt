//! Rows.
ghost use Rattle.std.specs.Prelude.{◌≡◌, ◌<◌, IfOk};
ghost use Rattle.st_index.specs.inner.Entries.{name_of, key_end, name_cmp, rank_of};
ghost use Rattle.st_key.specs.Key.{rank};

use crate::id::Id;
use crate::naming::cmp_names;
use crate::note::Note;
use st_key::{Key, Period, Point};
use st_label::Label;
use std::alloc::{AllocError, Allocator, Global};
use std::cmp::Ordering;

/// A labelled point: what a table holds under one id and one label.
#[derive(Drop)]
pub struct Row<A: Allocator = Global> {
    /// With the label's written text it names the row in its table.
    pub id: Id<A>,
    /// Where and when.
    pub point: Point,
    /// Who may see it.
    pub label: Label<A>,
    /// What else is to be kept with the point.
    pub note: Note<A>,
}

impl<A: Allocator + Copy> Row<A> {
    /// An equal row.
    pub fn copy(&self) -> Result<Row<A>, AllocError>
        ensures { IfOk result (λ other. other ≡ self.now) }
    {
        Ok(Row {
            id: self.id.copy()?,
            point: self.point,
            label: self.label.copy()?,
            note: self.note.copy()?,
        })
    }

    /// The key of the row's point.
    pub fn key(&self, period: Period) -> Key
        ensures value { rank result ≡ rank_of period self.now }
        ensures in_period { rank result < key_end period }
    {
        Key::of(&self.point, period)
    }

    /// The order of the row's name and that of an id and a label: by the id's bytes, then by the label's.
    pub fn cmp_name(&self, id: &str, label: &str) -> Ordering
        ensures { result ≡ name_cmp (name_of self.now) (record { id = id.now; label = label.now }) }
    {
        cmp_names(&self.id, &self.label, id, label)
    }
}
