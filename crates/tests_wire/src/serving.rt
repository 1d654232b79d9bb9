//! A service over a heap that may refuse a growth, which is asked over two connections.

use crate::opened::opened;
use crate::streams::{Narrow, Script, Scripted};
use refusing_alloc::Refusing;
use st_service::{Ended, IoFault, Service};
use std::alloc::{Allocator, Global};

/// What came of a connection, and of one behind it.
#[derive(Drop)]
pub struct Found {
    pub ended: Result<Ended, IoFault>,
    pub reads: u64,
    pub text: Vec<u8>,
    /// Whether the growth that was to be refused is still to come.
    pub is_armed: bool,
    /// What was written to the second connection.
    pub again: Vec<u8>,
}

// How a connection ends, how often it reads, and what it writes.
fn connected<A: Allocator + Copy>(
    global: Global,
    service: &mut Service<A>,
    script: Script<'_>,
) -> (Result<Ended, IoFault>, u64, Vec<u8>) {
    let mut reader = Scripted {
        script,
        place: 0,
        reads: 0,
        ended: false,
        failed: false,
    };
    let mut writer = Narrow {
        taken: Vec::new(global),
        room: script.room,
        failed: false,
    };
    let ended = service.serve(&mut reader, &mut writer);
    (ended, reader.reads, writer.taken)
}

// What comes of a fresh service. No growth of the second connection is refused.
fn asked_twice<A: Allocator + Copy>(
    heap: &Refusing<Global>,
    (over, global): (A, Global),
    script: Script<'_>,
) -> Option<Found> {
    let mut service = opened(global, over)?;
    let (ended, reads, text) = connected(global, &mut service, script);
    let is_armed = heap.is_armed();
    heap.arm(0);
    let (_, _, again) = connected(global, &mut service, Script::of(script.again));
    drop(service);
    Some(Found {
        ended,
        reads,
        text,
        is_armed,
        again,
    })
}

/// What comes of a service over a heap; none if memory ran out before there was one.
pub fn asked(heap: &Refusing<Global>, global: Global, script: Script<'_>) -> Option<Found> {
    asked_twice(heap, (heap, global), script)
}
