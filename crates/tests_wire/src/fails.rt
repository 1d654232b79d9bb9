//! Connections whose reads give one byte and fail at a place, or whose writes fail or take nothing at one.

use crate::serving::asked;
use crate::streams::{AMPLE, Room, Script};
use crate::texts::{ANSWER, ENDS, INPUT, ONE, OUTPUT, ZERO, due_until, is_joined};
use refusing_alloc::Refusing;
use st_service::{Ended, IoFault};
use std::alloc::Global;

// The three requests, a byte at a time, with a reader that fails at a place and a writer with so much room. A count by A comes in a
// connection behind them.
fn script_of(fails_at: usize, room: Room) -> Option<Script<'static>> {
    let mut script = Script::of(INPUT);
    script.size = 1;
    script.fails_at = fails_at;
    script.room = room;
    script.again = INPUT.get(ENDS[1]..)?;
    Some(script)
}

// Whether a connection ends so, once this was written, and the count behind it is answered so.
fn ends(
    heap: &Refusing<Global>,
    global: Global,
    script: Script<'_>,
    ended: Result<Ended, IoFault>,
    output: &[u8],
    answer: &str,
) -> Option<bool> {
    let found = asked(heap, global, script)?;
    let is_told = found.ended == ended && found.text.as_slice() == output;
    Some(is_told && is_joined(found.again.as_slice(), &[answer]))
}

// The fault of a connection that writes this.
fn fault(output: &[u8]) -> Result<Ended, IoFault> {
    Err(IoFault {
        written: output.len() as u128,
    })
}

// Whether a read that fails, at each place, ends the connection, and each message before it was answered before that read.
fn reads_fail(heap: &Refusing<Global>, global: Global) -> Option<bool> {
    for place in 0..638 {
        let script = script_of(place, AMPLE)?;
        let output = OUTPUT.get(..due_until(place))?;
        let answer = if place < ENDS[1] { ZERO } else { ONE };
        if !ends(heap, global, script, fault(output), output, answer)? {
            return Some(false);
        }
    }
    Some(true)
}

// Whether a write that fails, or takes nothing, after each number of bytes ends the connection, and no message is read behind the one
// whose answer is not out whole.
fn writes_fail(
    heap: &Refusing<Global>,
    global: Global,
    per_call: usize,
    is_stuck: bool,
) -> Option<bool> {
    for bytes in 0..OUTPUT.len() {
        let room = Room {
            bytes,
            per_call,
            is_stuck,
        };
        let script = script_of(usize::MAX, room)?;
        let output = OUTPUT.get(..bytes)?;
        let answer = if bytes < ANSWER { ZERO } else { ONE };
        if !ends(heap, global, script, fault(output), output, answer)? {
            return Some(false);
        }
    }
    Some(true)
}

// Whether all of that holds, and a connection without a fault ends clean.
fn fails_so(heap: &Refusing<Global>, global: Global) -> Option<bool> {
    for (per_call, is_stuck) in [(1, false), (1000, false), (1, true), (1000, true)] {
        if !writes_fail(heap, global, per_call, is_stuck)? {
            return Some(false);
        }
    }
    if !reads_fail(heap, global)? {
        return Some(false);
    }
    let script = script_of(usize::MAX, AMPLE)?;
    ends(heap, global, script, Ok(Ended::Clean), OUTPUT, ONE)
}

#[test]
fn fails_everywhere(rt: HostRuntime) {
    let heap = Refusing::new(rt.alloc());
    assert!(rt; fails_so(&heap, rt.alloc()) == Some(true));
}
