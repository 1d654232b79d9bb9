//! The numbers of labels, which are their places in a list.
ghost use Rattle.std.specs.Prelude.{◌<◌, IfSome, IsTrue};
ghost use Rattle.st_tally.specs.inner.Marks.{HasAt, Keeps};

use crate::label_counts::is_same;
use crate::label_places::is_short;
use st_label::Label;
use st_text::{MAX_SHORT, ShortText};
use std::alloc::Allocator;

/// The most labels of a node's pages that have numbers.
pub const MAX_NUMBERS: usize = 512;

/// For how many labels of a node's pages there is room at first.
pub const FEW_NUMBERS: usize = 20;

/// How many slots there are for numbers, where there may be more than a few.
pub const SLOTS: usize = 1_024;

// In how many consecutive slots a label's number may be.
const STEPS: usize = 4;

/// Stands for the number of a label that has none.
pub const NO_NUMBER: u16 = u16::MAX - 1;

// The index of a label that is equal to this one.
fn find<A: Allocator + Copy>(labels: &[Label<A>], label: &Label<A>) -> Option<usize>
    ensures { IfSome result (λ at. HasAt labels.now at label.now) }
{
    match label.as_short() {
        Some(short) => find_short(labels, short),
        None => None,
    }
}

// The index of a label that is this short text.
fn find_short<A: Allocator + Copy>(labels: &[Label<A>], short: &ShortText) -> Option<usize>
    ensures { IfSome result (λ at. HasAt labels.now at short.now) }
{
    for (at, other) in labels.iter().enumerate() {
        if is_short(other, short) {
            return Some(at);
        }
    }
    None
}

// Puts a label behind the others, if it takes no memory. Hands back its number.
fn put<A: Allocator + Copy>(labels: &mut Vec<Label<A>, A>, label: &Label<A>) -> u16
    ensures keeps { Keeps labels.old.items labels.new.items }
    ensures number { result < 512 → HasAt labels.new.items result label.now }
{
    if label.text().len() > MAX_SHORT {
        return NO_NUMBER;
    }
    if labels.len() >= labels.capacity() {
        return NO_NUMBER;
    }
    let Ok(number) = u16::try_from(labels.len()) else {
        return NO_NUMBER;
    };
    let Ok(label) = label.copy() else {
        return NO_NUMBER;
    };
    let Ok(()) = labels.push(label) else {
        return NO_NUMBER;
    };
    number
}

// Whether a label has this number.
fn is_at<A: Allocator + Copy>(labels: &[Label<A>], number: u16, label: &Label<A>) -> bool
    ensures { IsTrue result → HasAt labels.now number label.now }
{
    let at = usize::from(number);
    if at >= labels.len() {
        return false;
    }
    let other = &labels[at];
    is_same(other, label)
}

// The first of some numbers that is that of a label.
fn first_of<A: Allocator + Copy>(
    labels: &[Label<A>],
    likely: &[u16; 3],
    label: &Label<A>,
) -> Option<u16>
    ensures { IfSome result (λ number. HasAt labels.now number label.now) }
{
    for number in likely {
        if is_at(labels, *number, label) {
            return Some(*number);
        }
    }
    None
}

// The slot that is so many steps behind the first one of a label.
fn slot_of<A: Allocator + Copy>(slots: &[u16], label: &Label<A>, step: usize) -> usize {
    let Some(text) = label.as_short() else {
        return slots.len();
    };
    let hash = (text.mixed() >> 49) as usize;
    hash.wrapping_add(step) & slots.len().wrapping_sub(1)
}

// The number of a label by the slots that it may be in. Where there is a free one, the label is put behind the others.
fn slotted<A: Allocator + Copy>(
    labels: &mut Vec<Label<A>, A>,
    slots: &mut [u16],
    label: &Label<A>,
) -> u16
    ensures keeps { Keeps labels.old.items labels.new.items }
    ensures number { result < 512 → HasAt labels.new.items result label.now }
{
    for step in 0..STEPS {
        let slot = slot_of(slots, label, step);
        let Some(place) = slots.get_mut(slot) else {
            return NO_NUMBER;
        };
        let number = *place;
        if usize::from(number) >= labels.len() {
            let number = put(labels, label);
            *place = number;
            return number;
        }
        if is_at(labels, number, label) {
            return number;
        }
    }
    NO_NUMBER
}

/// The number of a label, which may come to have one. It is likely to be one of these.
pub fn number_of<A: Allocator + Copy>(
    labels: &mut Vec<Label<A>, A>,
    slots: &mut [u16],
    label: &Label<A>,
    likely: &[u16; 3],
) -> u16
    ensures keeps { Keeps labels.old.items labels.new.items }
    ensures number { result < 512 → HasAt labels.new.items result label.now }
{
    if let Some(number) = first_of(labels.as_slice(), likely, label) {
        return number;
    }
    if !slots.is_empty() {
        return slotted(labels, slots, label);
    }
    let Some(at) = find(labels.as_slice(), label) else {
        return put(labels, label);
    };
    let Ok(number) = u16::try_from(at) else {
        return NO_NUMBER;
    };
    number
}
