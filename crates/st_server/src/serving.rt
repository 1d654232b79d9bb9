//! Serving at the desks of a hall, whatever makes its changes.
ghost use Rattle.std.specs.Prelude.{◌≡◌, ◌<◌, ◌⊎◌, [], All, Err, IfErr, IfOk, Ok, length};
ghost use Rattle.st_command_line.specs.ServedArguments.{address_text};
ghost use Rattle.st_command_line.specs.declared.fault.Fault.TheVariants.{NoMemory, StoreLost};
ghost use Rattle.st_hall.specs.Views.{opening_seat};
ghost use Rattle.st_server.specs.Attending.{Attends, AttendsFrom};
ghost use Rattle.st_server.specs.Keeping.{TellsKept};

use crate::copying::{Copying, attend_and_copy};
use crate::leaving::{AtDesk, join_lists, kept_of};
use crate::stations::{Open, stations_at};
use st_command_line::{Fault, ServedArguments};
use st_connection::Attend;
use st_hall::{Commits, Desk, Front, HallName, KeptFront};
use st_hall_station::Station;
use st_journal_copy::{Copier, RecordSource};
use st_server_peer::{Client, Listens};
use st_server_workers::{Attended, Binds, begin, tell};
use std::alloc::Global;
use std::fs::Files;
use std::io::{Eprint, Write};
use std::net::{Net, TcpListener, TcpStream};
use std::sync::Wait;
use std::thread::Threads;
use std::time::Clock;

// Why nothing more is kept.
fn why_lost<H: HallName, M: Commits<H>, R: Wait>(rt: &R, hall: &M) -> Fault
    ensures one { (result ≡ StoreLost) ⊎ (result ≡ NoMemory) }
    ensures failed { result ≡ StoreLost → M.fails }
{
    let has_failed = hall.has_failed(rt);
    if has_failed {
        Fault::StoreLost
    } else {
        Fault::NoMemory
    }
}

// How serving ends once all workers are back: well where all changes are kept, and then with their list as one that is.
fn finish<H: HallName, M: Commits<H>, R: Wait>(
    rt: &R,
    hall: &M,
    ended: Result<u16, Fault>,
    list: &Front<H>,
) -> Result<(u16, KeptFront<H>), Fault>
    ensures ok { IfOk result (λ well. (ended ≡ Ok well.0) × (well.1 ≡ list.now)) }
    ensures err { IfErr result (λ fault. (ended ≡ Err fault) ⊎ ((fault ≡ StoreLost) ⊎ (fault ≡ NoMemory))) }
    ensures failed { result ≡ Err StoreLost → (ended ≡ Err StoreLost) ⊎ M.fails }
{
    if hall.is_lost() {
        return Err(why_lost(rt, hall));
    }
    let number = ended?;
    match hall.sync(rt, list) {
        Ok((kept, _)) => Ok((number, kept)),
        Err(_) => Err(why_lost(rt, hall)),
    }
}

// Tells that the server listens, serves connections, sees that all changes are kept, and tells how many were served, or that the store
// is lost.
fn announce<
    H: HallName,
    M: Commits<H>,
    T: Attend + AtDesk<H> + Send + Drop,
    C: Client + Send + Drop,
    N: Binds + Listens<Accepted = C> + Sync + Drop,
    L: RecordSource + Drop + Send,
    K: Copier + Drop + Send,
    R: Net<Listener = TcpListener, Stream = TcpStream>
        + Files
        + Threads
        + Wait
        + Clock
        + Eprint
        + Sync,
    O: Write,
>(
    rt: &R,
    alloc: Global,
    said: &ServedArguments<'_>,
    hall: &M,
    list: L,
    copying: Option<Copying<'_, K>>,
    attendants: Vec<T>,
    output: &mut O,
) -> Result<(), Fault>
    requires { (length attendants.items ≡ H.parts) × (0 < H.parts) }
    ensures told { TellsKept (address_text said.now.bind_address) said.now.connections
        (O.contents output.old) (O.contents output.new) result }
    ensures failed { result ≡ Err StoreLost → M.fails }
    ensures attended { AttendsFrom M.leaves T.Attend.serves C.call T.AtDesk.standing
        attendants.items said.now.connections result }
{
    let listener: N = match begin(rt, alloc, said, output) {
        Ok(listener) => listener,
        Err(fault) => {
            drop(attendants);
            drop(list);
            return Err(fault);
        }
    };
    let attended = attend_and_copy(rt, alloc, &listener, said, list, copying, attendants);
    let Attended { workers, ended } = attended;
    if workers.is_empty() {
        drop(workers);
        let Err(fault) = ended else { unreachable!() };
        return Err(fault);
    }
    let joined = join_lists::<H, M, T, R>(rt, alloc, hall, workers)?;
    match finish(rt, hall, ended, &joined.list) {
        Ok((number, whole)) => {
            let kept = kept_of(rt, hall, &joined, &whole)?;
            drop(kept);
            tell(alloc, output, "served", number)
        }
        Err(fault) => {
            let Some(known) = joined.synced.as_slice().first() else {
                return Err(Fault::NoMemory);
            };
            let kept = kept_of(rt, hall, &joined, known)?;
            drop(kept);
            Err(fault)
        }
    }
}

// Serves at the desks of a hall that was just opened, by a station each, as the words say. A copy follows the list where one is wanted.
pub(crate) fn serve_at<
    H: HallName + Send + Sync,
    M: Commits<H> + Sync,
    C: Client + Send + Drop,
    N: Binds + Listens<Accepted = C> + Sync + Drop,
    L: RecordSource + Drop + Send,
    K: Copier + Drop + Send,
    R: Net<Listener = TcpListener, Stream = TcpStream>
        + Files
        + Threads
        + Wait
        + Clock
        + Eprint
        + Sync,
    O: Write,
>(
    rt: &R,
    alloc: Global,
    said: &ServedArguments<'_>,
    hall: &M,
    list: L,
    copying: Option<Copying<'_, K>>,
    desks: Vec<Desk<H>>,
    output: &mut O,
) -> Result<(), Fault>
    requires new { All (λ desk. desk ≡ opening_seat []) desks.items }
    requires all { (length desks.items ≡ H.parts) × (0 < H.parts) }
    ensures told { TellsKept (address_text said.now.bind_address) said.now.connections
        (O.contents output.old) (O.contents output.new) result }
    ensures failed { result ≡ Err StoreLost → M.fails }
    ensures attended { Attends C.call H.start M.leaves M.HOLD said.now.connections result }
{
    match stations_at(rt, alloc, hall, desks) {
        Ok(stations) => announce::<H, M, Station<'_, H, M, Open, R>, C, N, L, K, R, O>(
            rt, alloc, said, hall, list, copying, stations, output,
        ),
        Err(_) => Err(Fault::NoMemory),
    }
}
