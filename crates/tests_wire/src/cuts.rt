//! Three requests that are cut at each place, or of which each byte is turned.

use crate::serving::asked;
use crate::streams::Script;
use crate::texts::{ENDS, INPUT, OUTPUT, due_until};
use refusing_alloc::Refusing;
use st_service::Ended;
use std::alloc::Global;

// Whether a service of the input that is cut at this place, and comes in pieces of this size, answers the whole messages and ends so.
fn is_cut(
    heap: &Refusing<Global>,
    global: Global,
    place: usize,
    size: usize,
    ended: Ended,
) -> Option<bool> {
    let output = OUTPUT.get(..due_until(place))?;
    let mut script = Script::of(INPUT.get(..place)?);
    script.size = size;
    let found = asked(heap, global, script)?;
    Some(found.ended == Ok(ended) && found.text.as_slice() == output)
}

// Whether that holds of each place.
fn is_cut_everywhere(heap: &Refusing<Global>, global: Global) -> Option<bool> {
    for place in 0..638 {
        let ended = if place == 0 || ENDS.contains(&place) {
            Ended::Clean
        } else {
            Ended::Cut
        };
        for size in [1, 1000] {
            if !is_cut(heap, global, place, size, ended)? {
                return Some(false);
            }
        }
    }
    Some(true)
}

#[test]
fn cut_everywhere(rt: HostRuntime) {
    let heap = Refusing::new(rt.alloc());
    assert!(rt; is_cut_everywhere(&heap, rt.alloc()) == Some(true));
}

// The input with some bits of one byte turned.
fn turned_input(global: Global, place: usize, bits: u8) -> Option<Vec<u8>> {
    let mut text = Vec::from_slice(global, INPUT).ok()?;
    let byte = text.get_mut(place)?;
    *byte ^= bits;
    Some(text)
}

// Whether a service of this input, of which a byte was turned at a place, ends without a fault of reader or writer, and first writes
// the answers to the messages before it.
fn is_turned(heap: &Refusing<Global>, global: Global, place: usize, input: &[u8]) -> Option<bool> {
    let output = OUTPUT.get(..due_until(place))?;
    let found = asked(heap, global, Script::of(input))?;
    Some(found.ended.is_ok() && found.text.as_slice().starts_with(output))
}

// Whether that holds of each place.
fn is_turned_everywhere(heap: &Refusing<Global>, global: Global) -> Option<bool> {
    for place in 0..637usize {
        let text = turned_input(global, place, (place % 255 + 1) as u8)?;
        if !is_turned(heap, global, place, text.as_slice())? {
            return Some(false);
        }
    }
    Some(true)
}

#[test]
fn turned_everywhere(rt: HostRuntime) {
    let heap = Refusing::new(rt.alloc());
    assert!(rt; is_turned_everywhere(&heap, rt.alloc()) == Some(true));
}
