//! Rows and boxes, as tests say them.

use st_box::Query;
use st_index::{Id, Note, Row};
use st_key::Point;
use st_label::Label;
use std::alloc::Allocator;

/// What a test says of a row: its id, its label, and its point.
pub type Said<'a> = (&'a str, &'a str, [u64; 3]);

// An id of this text.
fn id_of<A: Allocator + Copy>(alloc: A, text: &str) -> Option<Id<A>> {
    Id::new(alloc, text).ok()?
}

// A note of this text.
fn note_of<A: Allocator + Copy>(alloc: A, text: &str) -> Option<Note<A>> {
    Note::new(alloc, text).ok()?
}

// A row at a point, without a note.
fn row_at<A: Allocator + Copy>(alloc: A, point: Point, id: &str, label: &str) -> Option<Row<A>> {
    let label = Label::parse(alloc, label).ok()?;
    let id = id_of(alloc, id)?;
    let note = note_of(alloc, "")?;
    Some(Row {
        id,
        point,
        label,
        note,
    })
}

/// A row without a note.
pub fn row_of<A: Allocator + Copy>(alloc: A, (id, label, point): Said<'_>) -> Option<Row<A>> {
    let [x, y, t] = point;
    row_at(alloc, Point::new(x, y, t).ok()?, id, label)
}

/// The query of a box.
pub fn query_of([x0, x1, y0, y1, t0, t1]: [u64; 6]) -> Option<Query> {
    Query::new(x0, x1, y0, y1, t0, t1).ok()
}
