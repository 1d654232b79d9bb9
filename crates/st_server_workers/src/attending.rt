//! Serving as the words of a command line say.
ghost use Rattle.std.specs.Prelude.{◌≡◌, ℕ, [], Err, Option as Perhaps, Some, IfErr, IfOk, IfSome, sum_by};
ghost use Rattle.st_server_workers.specs.Telling.{Stops};
ghost use Rattle.st_server_workers.specs.Working.{Attending};

use crate::listening::Binds;
use crate::workers::{serve_all, serve_number};
use crate::working::Worked;
use st_command_line::{Fault, ServedArguments};
use st_connection::Attend;
use st_server_peer::{Client, Limits, Listens};
use std::alloc::Global;
use std::fs::Files;
use std::io::Eprint;
use std::net::{Net, TcpListener, TcpStream};
use std::sync::Wait;
use std::thread::Threads;
use std::time::Clock;

/// What came of serving.
#[derive(Drop)]
pub struct Attended<T> {
    /// What the workers did, in the order of their attendants; none where their threads did not begin.
    pub workers: Vec<Worked<T>>,
    /// How many clients they met, as the words say, or why it stopped.
    pub ended: Result<u16, Fault>,
}

// No worker began, or nothing is known of what they did.
fn stopped<T>(alloc: Global, fault: Fault) -> Attended<T>
    ensures { (result.workers.items ≡ []) × (result.ended ≡ Err fault) }
{
    Attended {
        workers: Vec::new(alloc),
        ended: Err(fault),
    }
}

// How many clients the workers met in all; none where that is no `u64`.
fn total<T>(workers: &[Worked<T>]) -> Option<u64>
    ensures { IfSome result (λ n. n ≡ sum_by (λ w. w.count) workers.now) }
{
    let mut sum: u64 = 0;
    for at in 0..workers.len() {
        sum = sum.checked_add(workers[at].count)?;
    }
    Some(sum)
}

// How serving ended where so many connections were accepted.
fn ending_of<T>(
    workers: &[Worked<T>],
    connections: u16,
    distributed: Result<(), Fault>,
) -> Result<u16, Fault>
    requires { IfErr distributed Stops }
    ensures ok { IfOk result (λ n. (n ≡ connections) × (sum_by (λ w. w.count) workers.now ≡ n)) }
    ensures err { IfErr result Stops }
{
    distributed?;
    if total(workers) == Some(connections as u64) {
        Ok(connections)
    } else {
        Err(Fault::Accept)
    }
}

// Serves so many connections.
fn attend_number<
    T: Attend + Send + Drop,
    C: Client + Send + Drop,
    L: Listens<Accepted = C> + Sync,
    R: Net<Listener = TcpListener, Stream = TcpStream> + Threads + Wait + Clock + Eprint + Sync,
>(
    rt: &R,
    alloc: Global,
    listener: &L,
    connections: u16,
    limits: Limits,
    attendants: Vec<T>,
) -> Attended<T>
    ensures { Attending T.serves C.call attendants.items (Some connections) result }
{
    match serve_number(rt, alloc, listener, connections, limits, attendants) {
        Ok((workers, distributed)) => {
            let ended = ending_of(&workers, connections, distributed);
            Attended { workers, ended }
        }
        Err(fault) => stopped(alloc, fault),
    }
}

// Serves all connections that come.
fn attend_all<
    T: Attend + Send + Drop,
    C: Client + Send + Drop,
    L: Listens<Accepted = C> + Sync,
    R: Net<Listener = TcpListener, Stream = TcpStream> + Threads + Wait + Clock + Eprint + Sync,
>(rt: &R, alloc: Global, listener: &L, limits: Limits, attendants: Vec<T>) -> Attended<T>
    ensures { (connections : Perhaps ℕ) → Attending T.serves C.call attendants.items connections result }
{
    match serve_all(rt, alloc, listener, limits, attendants) {
        Ok(workers) => Attended {
            workers,
            ended: Err(Fault::Accept),
        },
        Err(fault) => stopped(alloc, fault),
    }
}

// Serves as many connections as the words say, or all that come.
fn attend_as_said<
    T: Attend + Send + Drop,
    C: Client + Send + Drop,
    L: Listens<Accepted = C> + Sync,
    R: Net<Listener = TcpListener, Stream = TcpStream> + Threads + Wait + Clock + Eprint + Sync,
>(
    rt: &R,
    alloc: Global,
    listener: &L,
    said: &ServedArguments<'_>,
    attendants: Vec<T>,
) -> Attended<T>
    ensures { Attending T.serves C.call attendants.items said.now.connections result }
{
    let limits = Limits {
        message: said.limit(),
        idle: said.idle_limit(),
    };
    match said.connections {
        Some(connections) => attend_number(rt, alloc, listener, connections, limits, attendants),
        None => attend_all(rt, alloc, listener, limits, attendants),
    }
}

/// Serves as many connections as the words say, or all that come, by a worker for each attendant, on a thread of its own, and joins the
/// workers. It ends early where a thread is refused (`NoThread`), the listener is bad, a store is lost (`Accept`) or memory runs out
/// (`NoMemory`). At the end a socket is removed from its path.
pub fn attend<
    T: Attend + Send + Drop,
    C: Client + Send + Drop,
    L: Binds + Listens<Accepted = C> + Sync,
    R: Net<Listener = TcpListener, Stream = TcpStream>
        + Files
        + Threads
        + Wait
        + Clock
        + Eprint
        + Sync,
>(
    rt: &R,
    alloc: Global,
    listener: &L,
    said: &ServedArguments<'_>,
    attendants: Vec<T>,
) -> Attended<T>
    ensures { Attending T.serves C.call attendants.items said.now.connections result }
{
    let attended = attend_as_said(rt, alloc, listener, said, attendants);
    listener.leave(rt, said);
    attended
}
