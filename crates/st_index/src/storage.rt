//! Where the rows of a key lie.
ghost use Rattle.std.specs.Prelude.{◌≡◌, ◌+◌, ◌<◌, ◌^◌, [], ◌∷◌, length};
ghost use Rattle.std.specs.List.Sorted.{IsSearchInRange, IsBinarySearchResult};
ghost use Rattle.st_key.specs.Key.{rank};
ghost use Rattle.st_index.specs.declared.row.Row.{Row};
ghost use Rattle.st_index.specs.KeyPoints.{point_of_key};
ghost use Rattle.st_index.specs.inner.Noted.{noted_bytes};
ghost use Rattle.st_index.specs.inner.Views.{viewed};
ghost use Rattle.st_index.specs.inner.Entries.{name_of, name_cmp, rank_of};
ghost use Rattle.st_index.specs.inner.KeyPoints.{IsKey, IsPointKey};
ghost use Rattle.st_index.specs.inner.Storages.{IsStored, owned_rows, stored_at, stored_rows};

use crate::id::Id;
use crate::naming::{find_beside, find_name};
use crate::note::{Note, NoteText};
use crate::row::Row;
use crate::row_point::RowPoint;
use crate::row_view::RowView;
use crate::rows_view::RowsView;
use st_key::{Key, Period};
use st_label::Label;
use std::alloc::Allocator;

// The parts of a key, and where its rows lie. The key's parts lie flat, beside the variant's tag, so that they take no more than
// they need. Of a row alone no point is kept, since its key in this period tells it. If it has a note, the label lies in the note's box,
// so that an entry never holds both the label and the box; a row without a note has no box.
#[derive(Drop)]
pub enum Storage<A: Allocator> {
    Nowhere {
        period: Period,
        bin: u32,
        address: u64,
    },
    Inline {
        period: Period,
        bin: u32,
        address: u64,
        id: Id<A>,
        label: Label<A>,
    },
    Noted {
        period: Period,
        bin: u32,
        address: u64,
        id: Id<A>,
        text: Box<NoteText<A>, A>,
    },
    Heap {
        period: Period,
        bin: u32,
        address: u64,
        rows: Vec<Row<A>, A>,
    },
}

/// The rows of a place by themselves: a row alone, or their list.
#[derive(Drop)]
pub enum OwnedRows<A: Allocator> {
    One(Row<A>),
    Many(Vec<Row<A>, A>),
}

// No rows at the first key.
pub(crate) fn nothing<A: Allocator>() -> Storage<A>
    ensures { IsStored result }
{
    vacant(Period::Day, Key::FIRST)
}

// No rows at a key.
pub(crate) fn vacant<A: Allocator>(period: Period, key: Key) -> Storage<A>
    ensures stored { IsStored result }
    ensures at { stored_at result ≡ rank key }
    ensures rows { stored_rows result ≡ [] }
{
    let (bin, address) = (key.bin(), key.address());
    Storage::Nowhere {
        period,
        bin,
        address,
    }
}

// The rows of a key in a list.
pub(crate) fn listed<A: Allocator>(period: Period, key: Key, rows: Vec<Row<A>, A>) -> Storage<A>
    ensures stored { IsStored result }
    ensures at { stored_at result ≡ rank key }
    ensures rows { stored_rows result ≡ rows.items }
{
    let (bin, address) = (key.bin(), key.address());
    Storage::Heap {
        period,
        bin,
        address,
        rows,
    }
}

// The one row of its key in a period.
pub(crate) fn alone<A: Allocator>(period: Period, key: Key, row: Row<A>) -> Storage<A>
    requires { rank key ≡ rank_of period row }
    ensures stored { IsStored result }
    ensures at { stored_at result ≡ rank key }
    ensures rows { stored_rows result ≡ row ∷ [] }
{
    let Row {
        id,
        label,
        note,
        ..
    } = row;
    let (bin, address) = (key.bin(), key.address());
    match note.into_text() {
        None => Storage::Inline {
            period,
            bin,
            address,
            id,
            label,
        },
        Some(mut text) => {
            text.put_label(label);
            Storage::Noted {
                period,
                bin,
                address,
                id,
                text,
            }
        }
    }
}

// The key.
pub(crate) fn key_of<A: Allocator>(place: &Storage<A>) -> Key
    requires { IsStored place.now }
    ensures { rank result ≡ stored_at place.now }
{
    match place {
        Storage::Nowhere { bin, address, .. } => Key::at(*bin, *address),
        Storage::Inline { bin, address, .. } => Key::at(*bin, *address),
        Storage::Noted { bin, address, .. } => Key::at(*bin, *address),
        Storage::Heap { bin, address, .. } => Key::at(*bin, *address),
    }
}

// The row that is alone at the key of these parts.
fn lone<A: Allocator + Copy>(
    period: Period,
    bin: u32,
    address: u64,
    id: Id<A>,
    label: Label<A>,
    text: Option<Box<NoteText<A>, A>>,
) -> Row<A>
    requires key { IsKey bin address }
    requires point { IsPointKey period bin address }
    ensures { result ≡ record { id = id; point = point_of_key period bin address; label = label; note = noted_bytes text } }
{
    let note = Note::of(id.alloc(), text);
    Row {
        id,
        point: RowPoint::keyed(period, bin, address).point(),
        label,
        note,
    }
}

// The period, the key and the rows of a place that has rows.
pub(crate) fn into_rows<A: Allocator + Copy>(place: Storage<A>) -> (Period, Key, OwnedRows<A>)
    requires stored { IsStored place }
    requires some { 0 < length (stored_rows place) }
    ensures key { rank result.1 ≡ stored_at place }
    ensures rows { owned_rows result.2 ≡ stored_rows place }
{
    match place {
        Storage::Nowhere { .. } => unreachable!(),
        Storage::Inline {
            period,
            bin,
            address,
            id,
            label,
        } => {
            let row = lone(period, bin, address, id, label, None);
            (period, Key::at(bin, address), OwnedRows::One(row))
        }
        Storage::Noted {
            period,
            bin,
            address,
            id,
            mut text,
        } => {
            let label = text.take_label();
            let row = lone(period, bin, address, id, label, Some(text));
            (period, Key::at(bin, address), OwnedRows::One(row))
        }
        Storage::Heap {
            period,
            bin,
            address,
            rows,
        } => (period, Key::at(bin, address), OwnedRows::Many(rows)),
    }
}

// The rows, in order.
pub(crate) fn rows_in<A: Allocator>(place: &Storage<A>) -> RowsView<'_, A>
    requires { IsStored place.now }
    ensures { viewed result ≡ stored_rows place.now }
{
    match place {
        Storage::Nowhere { .. } => RowsView::Many(&[]),
        Storage::Inline {
            period,
            bin,
            address,
            id,
            label,
        } => {
            let point = RowPoint::keyed(*period, *bin, *address);
            RowsView::One(RowView::new(point, id, label, None))
        }
        Storage::Noted {
            period,
            bin,
            address,
            id,
            text,
        } => {
            let point = RowPoint::keyed(*period, *bin, *address);
            RowsView::One(RowView::new(point, id, text.label(), Some(text)))
        }
        Storage::Heap { rows, .. } => RowsView::Many(rows.as_slice()),
    }
}

// How many rows there are.
pub(crate) fn count<A: Allocator>(place: &Storage<A>) -> usize
    ensures value { result ≡ length (stored_rows place.now) }
    ensures in_range { result + 1 < 2 ^ 64 }
{
    match place {
        Storage::Nowhere { .. } => 0,
        Storage::Inline { .. } => 1,
        Storage::Noted { .. } => 1,
        Storage::Heap { rows, .. } => rows.len(),
    }
}

// The index of the row of this name, or the index where it would stand. No point is computed.
pub(crate) fn find<A: Allocator + Copy>(
    place: &Storage<A>,
    id: &str,
    label: &str,
) -> Result<usize, usize>
    requires { IsStored place.now }
    ensures bound { IsSearchInRange result (length (stored_rows place.now)) }
    ensures place { IsBinarySearchResult (λ (r : Row A). name_cmp (name_of r) (record { id = id.now; label = label.now }))
        (stored_rows place.now) result }
{
    match place {
        Storage::Nowhere { .. } => Err(0),
        Storage::Inline {
            id: row_id,
            label: row_label,
            ..
        } => find_beside(row_id, row_label, id, label),
        Storage::Noted {
            id: row_id,
            text,
            ..
        } => find_beside(row_id, text.label(), id, label),
        Storage::Heap { rows, .. } => find_name(rows.as_slice(), id, label),
    }
}
