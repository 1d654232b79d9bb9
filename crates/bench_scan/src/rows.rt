//! Rows to be put into a table.
use st_index::{Id, Note, Row};
use st_key::Point;
use st_label::Label;
use std::alloc::{AllocError, Global};

/// The authorizations that each count asks for.
pub const HELD: [&str; 4] = ["A", "B", "D", "G"];

// A row of these parts, or none where one of them is none.
fn row_with(point: Point, label: Label, id: Option<Id>, note: Option<Note>) -> Option<Row> {
    let id = id?;
    let note = note?;
    Some(Row {
        id,
        point,
        label,
        note,
    })
}

// A row without a note, or none where the words make none.
fn row_of(
    alloc: Global,
    id: &str,
    [x, y, t]: [u64; 3],
    label: &str,
) -> Result<Option<Row>, AllocError> {
    let Ok(point) = Point::new(x, y, t) else {
        return Ok(None);
    };
    let Ok(label) = Label::parse(alloc, label) else {
        return Ok(None);
    };
    let id = Id::new(alloc, id)?;
    let note = Note::new(alloc, "")?;
    Ok(row_with(point, label, id, note))
}

/// The row of a line `id,x,y,t,label`.
pub fn row_in(alloc: Global, line: &str) -> Result<Option<Row>, AllocError> {
    let mut words = line.split(',');
    let Some(id) = words.next() else {
        return Ok(None);
    };
    let (x, y) = (number_of(words.next()), number_of(words.next()));
    let t = number_of(words.next());
    let label = words.next().unwrap_or("");
    row_of(alloc, id, [x, y, t], label)
}

/// The number that a word says, and 0 where there is none.
pub fn number_of(word: Option<&str>) -> u64 {
    match word {
        Some(word) => word.parse().unwrap_or(0),
        None => 0,
    }
}
