//! Rows after a place.
ghost use Rattle.std.specs.Prelude.{◌≡◌, ◌≤◌, ◌<◌, option_copied};
ghost use Rattle.std.specs.Ordering.{nat_cmp, ordering_then};
ghost use Rattle.std.specs.Cmp.Lexicographic.{slice_cmp};
ghost use Rattle.st_key.specs.Key.{rank};
ghost use Rattle.st_index.specs.Order.{scan_key};
ghost use Rattle.st_index.specs.RowViews.{row_of_view};
ghost use Rattle.st_index.specs.inner.Entries.{key_end};
ghost use Rattle.st_text.specs.Texts.{comes_before};
ghost use Rattle.st_scan.specs.Pages.{is_past, place_key};
ghost use Rattle.st_scan.specs.inner.Starts.{IsStart};

use st_index::RowView;
use st_key::{Key, Period, Place};
use std::alloc::Allocator;
use std::cmp::Ordering;

// The order of a place's texts and those of a row: by the id's bytes, then by the label's.
fn cmp_names<A: Allocator + Copy, B: Allocator + Copy>(
    place: &Place<B>,
    row: RowView<'_, A>,
) -> Ordering
    ensures { result ≡ ordering_then (slice_cmp nat_cmp place.now.id (row_of_view row.entry).id)
        (slice_cmp nat_cmp place.now.label (row_of_view row.entry).label) }
{
    match place.id.as_str().cmp(row.id().as_str()) {
        Ordering::Equal => place.label.as_str().cmp(row.label().text()),
        order => order,
    }
}

// Whether a row comes after a place.
fn is_after<A: Allocator + Copy, B: Allocator + Copy>(
    place: &Place<B>,
    row: RowView<'_, A>,
    period: Period,
) -> bool
    ensures { result ≡ comes_before (place_key period place.now) (scan_key period (row_of_view row.entry)) }
{
    let at = Key::of(&place.point, period);
    let key = row.key(period);
    if at.is_before(key) {
        return true;
    }
    if key.is_before(at) {
        return false;
    }
    cmp_names(place, row).is_lt()
}

// Whether a row comes after a place, if there is one.
pub(crate) fn is_past<A: Allocator + Copy, B: Allocator + Copy>(
    after: Option<&Place<B>>,
    row: RowView<'_, A>,
    period: Period,
) -> bool
    ensures { result ≡ is_past period (option_copied after.entry) (row_of_view row.entry) }
{
    match after {
        Some(place) => is_after(place, row, period),
        None => true,
    }
}

// The key at which the rows after a place begin.
pub(crate) fn start_of<B: Allocator + Copy>(after: Option<&Place<B>>, period: Period) -> Key
    ensures start { IsStart period (option_copied after.entry) result }
    ensures in_period { rank result ≤ key_end period }
{
    match after {
        Some(place) => Key::of(&place.point, period),
        None => Key::FIRST,
    }
}
