//! Where labels stand in a list with the numbers of their rows.
ghost use Rattle.std.specs.Prelude.{◌≡◌, ◌<◌, ◌≤◌, IfSome, IsTrue, length, slice_index_or};
ghost use Rattle.st_tally.specs.declared.label_counts.LabelCount.{LabelCount as LabelCountValue};

use crate::label_counts::LabelCount;
use st_label::Label;
use st_text::ShortText;
use std::alloc::Allocator;

/// Whether a label is this short text.
pub fn is_short<A: Allocator + Copy>(label: &Label<A>, short: &ShortText) -> bool
    ensures { IsTrue result → label.now ≡ short.now }
{
    match label.as_short() {
        Some(own) => own.is_same(short),
        None => false,
    }
}

/// Where a search for a short text begins among so many labels: at one of 16 places, which its bytes tell.
pub fn place_of(short: &ShortText, len: usize) -> usize
    ensures { result ≤ len }
{
    ((short.mixed() >> 60) as usize).min(len)
}

// The index of a label that is this short text, from one index to another.
fn find_between<A: Allocator + Copy>(
    counts: &[LabelCount<A>],
    short: &ShortText,
    from: usize,
    to: usize,
) -> Option<usize>
    requires { to ≤ length counts.now }
    ensures { IfSome result (λ at. (at < length counts.now)
        × ((c : LabelCountValue A) × (c ≡ slice_index_or counts.now at c) × (c.label ≡ short.now))) }
{
    for at in from..to {
        if is_short(&counts[at].label, short) {
            return Some(at);
        }
    }
    None
}

// The index of a label that is this short text. It is likely to be at its place, or right behind it.
fn find_short<A: Allocator + Copy>(counts: &[LabelCount<A>], short: &ShortText) -> Option<usize>
    ensures { IfSome result (λ at. (at < length counts.now)
        × ((c : LabelCountValue A) × (c ≡ slice_index_or counts.now at c) × (c.label ≡ short.now))) }
{
    let place = place_of(short, counts.len());
    if let Some(at) = find_between(counts, short, place, counts.len()) {
        return Some(at);
    }
    find_between(counts, short, 0, place)
}

/// The index of a label that is equal to this one.
pub fn find<A: Allocator + Copy>(counts: &[LabelCount<A>], label: &Label<A>) -> Option<usize>
    ensures { IfSome result (λ at. (at < length counts.now)
        × ((c : LabelCountValue A) × (c ≡ slice_index_or counts.now at c) × (c.label ≡ label.now))) }
{
    match label.as_short() {
        Some(short) => find_short(counts, short),
        None => None,
    }
}

/// Where a label of these bytes is likely to stand. To ask before a label is looked for fetches the place into the caches.
pub fn likely_place<A: Allocator + Copy>(
    counts: &[LabelCount<A>],
    label: &Option<ShortText>,
) -> usize {
    match label {
        Some(short) => find_short(counts, short).unwrap_or(0),
        None => 0,
    }
}

// Whether a label stands at an index.
fn is_there<A: Allocator + Copy>(counts: &[LabelCount<A>], label: &Label<A>, at: usize) -> bool
    ensures { IsTrue result → (at < length counts.now)
        × ((c : LabelCountValue A) × (c ≡ slice_index_or counts.now at c) × (c.label ≡ label.now)) }
{
    if at >= counts.len() {
        return false;
    }
    counts[at].label.is_same(label)
}

/// The index of a label that is equal to this one, which is likely to be this index.
pub fn find_near<A: Allocator + Copy>(
    counts: &[LabelCount<A>],
    label: &Label<A>,
    likely: usize,
) -> Option<usize>
    ensures { IfSome result (λ at. (at < length counts.now)
        × ((c : LabelCountValue A) × (c ≡ slice_index_or counts.now at c) × (c.label ≡ label.now))) }
{
    if is_there(counts, label, likely) {
        return Some(likely);
    }
    find(counts, label)
}

// The index of a label under which there is no row, from one index to another.
fn spare_between<A: Allocator + Copy>(
    counts: &[LabelCount<A>],
    from: usize,
    to: usize,
) -> Option<usize>
    requires { to ≤ length counts.now }
    ensures { IfSome result (λ at. (at < length counts.now)
        × ((c : LabelCountValue A) × (c ≡ slice_index_or counts.now at c) × (c.rows ≡ 0))) }
{
    for at in from..to {
        if counts[at].rows == 0 {
            return Some(at);
        }
    }
    None
}

/// The index of a label under which there is no row, the first one from a place on.
pub fn find_spare<A: Allocator + Copy>(counts: &[LabelCount<A>], place: usize) -> Option<usize>
    requires { place ≤ length counts.now }
    ensures { IfSome result (λ at. (at < length counts.now)
        × ((c : LabelCountValue A) × (c ≡ slice_index_or counts.now at c) × (c.rows ≡ 0))) }
{
    if let Some(at) = spare_between(counts, place, counts.len()) {
        return Some(at);
    }
    spare_between(counts, 0, place)
}
