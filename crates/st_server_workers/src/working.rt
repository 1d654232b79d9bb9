//! What one worker does.
ghost use Rattle.std.specs.Prelude.{◌≡◌};
ghost use Rattle.st_server_peer.specs.Meeting.{Met};

use crate::door::Door;
use crossbeam_channel::Receiver;
use st_connection::{Attend, Ended};
use st_server_peer::{Client, Crowd, Limits, Listens};
use std::io::Eprint;
use std::marker::PhantomData;
use std::net::{Net, TcpListener, TcpStream};
use std::snapshot::Snapshot;
use std::sync::Wait;
use std::thread::Promise;
use std::time::Clock;

/// What a worker did.
#[derive(Drop)]
pub struct Worked<T> {
    /// What answered its clients, as it was in the end.
    pub attendant: T,
    /// How many clients it met.
    pub count: u64,
}

// That a worker of this attendant met its clients.
#[derive(Drop)]
pub(crate) struct WorksFrom<T, C> {
    pub(crate) attendant: Snapshot<T>,
    of: PhantomData<C>,
}

impl<T, C> WorksFrom<T, C> {
    pub(crate) fn new(attendant: &T) -> WorksFrom<T, C>
        ensures { result.attendant.value ≡ attendant.now }
    {
        WorksFrom {
            attendant: Snapshot::of(attendant),
            of: PhantomData,
        }
    }
}

impl<T: Attend, C: Client> Promise<Worked<T>> for WorksFrom<T, C> {
    ghost kept_by = { λ from worked. Met T.serves C.call from.attendant.value worked.count worked.attendant };
}

// How many clients were met, and whether the store is lost.
#[derive(Clone, Copy)]
struct Shift {
    count: u64,
    is_lost: bool,
}

// Meets the clients of a queue, one after another, until its sender is gone or the store is lost.
fn answer_queued<T: Attend, C: Client + Drop, R: Wait + Clock>(
    rt: &R,
    attendant: &mut T,
    queue: &Receiver<C>,
    crowd: &Crowd,
    limits: Limits,
) -> Shift
    ensures { Met T.serves C.call attendant.old result.count attendant.new }
{
    let mut count: u64 = 0;
    for client in queue.iter(rt) {
        let Some(more) = count.checked_add(1) else {
            break;
        };
        let ended = client.meet(rt, attendant, limits, crowd);
        count = more;
        if matches!(ended, Some(Ok(Ended::Lost))) {
            return Shift {
                count,
                is_lost: true,
            };
        }
    }
    Shift {
        count,
        is_lost: false,
    }
}

// Works until the sender of the queue is gone, or the store is lost.
pub(crate) fn work_from_queue<
    T: Attend,
    C: Client + Drop,
    L: Listens<Accepted = C>,
    R: Net<Listener = TcpListener, Stream = TcpStream> + Wait + Clock,
>(rt: &R, mut attendant: T, queue: Receiver<C>, door: &Door<'_, L>, limits: Limits) -> Worked<T>
    ensures { Met T.serves C.call attendant result.count result.attendant }
{
    let shift = answer_queued(rt, &mut attendant, &queue, &door.crowd, limits);
    if shift.is_lost {
        door.shut(rt);
    }
    Worked {
        attendant,
        count: shift.count,
    }
}

// Meets one client after another at the door, until it is closed or the store is lost.
fn answer_at_door<
    T: Attend,
    C: Client + Drop,
    L: Listens<Accepted = C>,
    R: Net<Listener = TcpListener, Stream = TcpStream> + Wait + Clock + Eprint,
>(rt: &R, attendant: &mut T, door: &Door<'_, L>, limits: Limits) -> Shift
    ensures { Met T.serves C.call attendant.old result.count attendant.new }
{
    let mut count: u64 = 0;
    for _ in rt.forever() {
        let Some(more) = count.checked_add(1) else {
            break;
        };
        let Some(client) = door.next(rt) else {
            break;
        };
        let ended = client.meet(rt, attendant, limits, &door.crowd);
        count = more;
        if matches!(ended, Some(Ok(Ended::Lost))) {
            return Shift {
                count,
                is_lost: true,
            };
        }
    }
    Shift {
        count,
        is_lost: false,
    }
}

// Works until the door is closed. Where the store is lost, it closes it.
pub(crate) fn work_at_door<
    T: Attend,
    L: Listens,
    R: Net<Listener = TcpListener, Stream = TcpStream> + Wait + Clock + Eprint,
>(rt: &R, mut attendant: T, door: &Door<'_, L>, limits: Limits) -> Worked<T>
    ensures { Met T.serves L.Accepted.call attendant result.count result.attendant }
{
    let shift = answer_at_door(rt, &mut attendant, door, limits);
    if shift.is_lost {
        door.shut(rt);
    }
    Worked {
        attendant,
        count: shift.count,
    }
}
