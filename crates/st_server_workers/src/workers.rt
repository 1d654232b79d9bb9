//! Workers, each on a thread of its own, and how connections come to them.
ghost use Rattle.std.specs.Prelude.{◌%◌, IfErr, IfOk, length};
ghost use Rattle.std.specs.Slice.{IsItemAt};
ghost use Rattle.std.specs.Thread.{IsSend, IsSync};
ghost use Rattle.st_server_workers.specs.Telling.{Stops};
ghost use Rattle.st_server_workers.specs.Working.{WorkedEach};

use crate::door::Door;
use crate::working::{Worked, WorksFrom, work_at_door, work_from_queue};
use crossbeam_channel::{Sender, unbounded};
use st_command_line::Fault;
use st_connection::Attend;
use st_server_peer::{Client, Limits, Listens};
use std::alloc::{AllocError, Global};
use std::io::Eprint;
use std::net::{Net, TcpListener, TcpStream};
use std::sync::Wait;
use std::thread;
use std::thread::{Threads, join_promised};
use std::time::Clock;

// The queue of the worker that a connection is for: the workers take them in turn, from number 0 on.
fn queue_for<C>(number: u16, queues: &[Sender<C>]) -> Option<&Sender<C>>
    ensures { IsItemAt queues.now (number % length queues.now) result }
{
    let at = (number as usize).checked_rem(queues.len())?;
    queues.get(at)
}

// Accepts this many connections, and sends each to its worker.
fn distribute<C: Client + Drop, L: Listens<Accepted = C>, R: Wait + Clock + Eprint>(
    rt: &R,
    door: &Door<'_, L>,
    connections: u16,
    queues: &[Sender<C>],
) -> Result<(), Fault>
    ensures { IfErr result Stops }
{
    for number in 0..connections {
        let Some(queue) = queue_for(number, queues) else {
            return Err(Fault::NoThread);
        };
        let Some(client) = door.next(rt) else {
            return Err(Fault::Accept);
        };
        if queue.send(rt, client).is_err() {
            return Err(Fault::NoMemory);
        }
    }
    Ok(())
}

// What the workers did, and why connections were no more given to them.
type Distributed<T> = (Vec<Worked<T>>, Result<(), Fault>);

// Serves this many connections by a worker for each attendant. The workers take them in turn: connection number i, from 0, is for
// worker i mod W of W workers. Ends early where none is accepted, and where the listener is bad, a store is lost or memory runs out,
// when those that were accepted are answered first. Where a thread is refused, none is accepted.
pub(crate) fn serve_number<
    T: Attend + Send + Drop,
    C: Client + Send + Drop,
    L: Listens<Accepted = C> + Sync,
    R: Net<Listener = TcpListener, Stream = TcpStream> + Threads + Wait + Clock + Eprint + Sync,
>(
    rt: &R,
    alloc: Global,
    listener: &L,
    connections: u16,
    limits: Limits,
    attendants: Vec<T>,
) -> Result<Distributed<T>, Fault>
    ensures ok { IfOk result (λ r. WorkedEach T.serves C.call attendants.items r.0.items × IfErr r.1 Stops) }
    ensures err { IfErr result Stops }
{
    let door = Door::new(rt, listener);
    let door = &door;
    thread::scope(
        thread::scope_env(),
        rt,
        |scope| -> Result<Distributed<T>, Fault>
            requires { IsSync R.row × (IsSend T.row × (IsSend C.row × IsSync L.row)) }
            ensures { IfOk result (λ r. WorkedEach T.serves C.call attendants.items r.0.items × IfErr r.1 Stops)
                × IfErr result Stops }
        {
            let mut queues = Vec::new(alloc);
            let mut threads = Vec::new(alloc);
            for attendant in attendants {
                let (queue, own) = unbounded(alloc)?;
                let promise = WorksFrom::<T, C>::new(&attendant);
                let work = move || work_from_queue(rt, attendant, own, door, limits);
                let Ok(thread) = scope.spawn_with(promise, work) else {
                    return Err(Fault::NoThread);
                };
                threads.push(thread).map_err(|_| AllocError)?;
                queues.push(queue).map_err(|_| AllocError)?;
            }
            door.open(rt);
            let distributed = distribute(rt, door, connections, &queues);
            drop(queues);
            match join_promised(rt, threads) {
                Ok(workers) => Ok((workers, distributed)),
                Err(_) => Err(Fault::NoMemory),
            }
        },
    )
}

// Serves all connections by a worker for each attendant: a worker that is free accepts the next one. Nobody accepts before all threads
// have begun; where one is refused, none does. Ends when the listener is bad, or once a store is lost.
pub(crate) fn serve_all<
    T: Attend + Send + Drop,
    C: Client + Send + Drop,
    L: Listens<Accepted = C> + Sync,
    R: Net<Listener = TcpListener, Stream = TcpStream> + Threads + Wait + Clock + Eprint + Sync,
>(
    rt: &R,
    alloc: Global,
    listener: &L,
    limits: Limits,
    attendants: Vec<T>,
) -> Result<Vec<Worked<T>>, Fault>
    ensures ok { IfOk result (λ workers. WorkedEach T.serves C.call attendants.items workers.items) }
    ensures err { IfErr result Stops }
{
    let door = Door::new(rt, listener);
    let door = &door;
    thread::scope(
        thread::scope_env(),
        rt,
        |scope| -> Result<Vec<Worked<T>>, Fault>
            requires { IsSync R.row × (IsSend T.row × IsSync L.row) }
            ensures { IfOk result (λ workers. WorkedEach T.serves C.call attendants.items workers.items) × IfErr result Stops }
        {
            let mut threads = Vec::new(alloc);
            for attendant in attendants {
                let promise = WorksFrom::<T, C>::new(&attendant);
                let work = move || work_at_door(rt, attendant, door, limits);
                let Ok(thread) = scope.spawn_with(promise, work) else {
                    return Err(door.refuse(rt, Fault::NoThread));
                };
                let Ok(()) = threads.push(thread) else {
                    return Err(door.refuse(rt, Fault::NoMemory));
                };
            }
            door.open(rt);
            match join_promised(rt, threads) {
                Ok(workers) => Ok(workers),
                Err(_) => Err(Fault::NoMemory),
            }
        },
    )
}
