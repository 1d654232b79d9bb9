//! A server whose store is in memory.
ghost use Rattle.std.specs.Prelude.{◌≡◌, ◌<◌, ◌⊎◌, None, List, map};
ghost use Rattle.st_text.specs.Texts.{Text};
ghost use Rattle.st_command.specs.Opening.{Fails, OpensState};
ghost use Rattle.st_server.specs.Attending.{Attends};
ghost use Rattle.st_server.specs.Serving.{RunsInMemory, nothing_left};
ghost use Rattle.st_server_workers.specs.Telling.{Tells};
ghost use Rattle.st_command_line.specs.Common.{path_in};
ghost use Rattle.st_command_line.specs.ServedArguments.{RefusesServedWords, SaysServed, address_text};
ghost use Rattle.st_command_line.specs.Status.{exit_status_after};

use crate::copying::{Copying, NoList};
use crate::serving::serve_at;
use st_command::stores_for;
use st_command_line::{Fault, ServedArguments};
use st_core::{Seed, Store};
use st_hall::{Hall, HallFault, HallName, UnnamedFor};
use st_journal_copy::Copier;
use st_server_peer::{Client, Listens};
use st_server_workers::Binds;
use std::alloc::Global;
use std::fs::Files;
use std::io::{Eprint, Write};
use std::marker::Brand;
use std::net::{Net, TcpListener, TcpStream};
use std::sync::{Mutex, Wait};
use std::thread::Threads;
use std::time::Clock;

// Opens a hall over the two stores, with a desk for each worker, and serves at its desks.
fn open_hall<
    H: HallName + Send + Sync,
    K: Copier + Drop + Send,
    C: Client + Send + Drop,
    N: Binds + Listens<Accepted = C> + Sync + Drop,
    R: Net<Listener = TcpListener, Stream = TcpStream>
        + Files
        + Threads
        + Wait
        + Clock
        + Eprint
        + Sync,
    O: Write,
>(
    rt: &R,
    alloc: Global,
    name: UnnamedFor,
    both: (Store, Store),
    said: &ServedArguments<'_>,
    workers: u16,
    output: &mut O,
) -> Result<(), Fault>
    requires named { (name.seen.book ≡ H.book) × (name.blank.name ≡ H.name) × (name.mark.name ≡ H.mark) }
    requires workers { (name.blank.parts ≡ workers) × (H.parts ≡ workers) × (0 < workers) }
    requires alike { (both.0 ≡ H.start) × (both.1 ≡ H.start) }
    requires opens { OpensState said.now.digest.now (map (λ name. name.now) said.now.names.items) both.0 }
    ensures told { Tells (address_text said.now.bind_address) said.now.connections
        (O.contents output.old) (O.contents output.new) result }
    ensures attended { Attends C.call H.start nothing_left 0 said.now.connections result }
{
    match Hall::<H>::open_for(rt, alloc, name, both.0, both.1, workers) {
        Ok((clerk, desks)) => {
            let hall = Mutex::new(clerk);
            let copying = None::<Copying<'_, K>>;
            serve_at::<H, _, C, N, _, _, _, _>(
                rt, alloc, said, &hall, NoList, copying, desks, output,
            )
        }
        Err(HallFault::NoPlace) => Err(Fault::NoPlace),
        Err(HallFault::NoMemory) => Err(Fault::NoMemory),
    }
}

// Opens the stores in memory, and serves as the words say.
pub(crate) fn run_in_memory<
    K: Copier + Drop + Send,
    C: Client + Send + Drop,
    N: Binds + Listens<Accepted = C> + Sync + Drop,
    R: Net<Listener = TcpListener, Stream = TcpStream>
        + Files
        + Threads
        + Wait
        + Clock
        + Eprint
        + Sync,
    O: Write,
>(
    rt: &R,
    alloc: Global,
    seed: Seed,
    said: &ServedArguments<'_>,
    output: &mut O,
) -> Result<(), Fault>
    requires in_memory { path_in said.now.store ≡ None }
    ensures { (words : List Text) → SaysServed words said.now
        → RunsInMemory C.call words (O.contents output.old) (O.contents output.new) (exit_status_after result)
        ⊎ Fails (RefusesServedWords words) (O.contents output.new ≡ O.contents output.old) (exit_status_after result) }
{
    let both = stores_for(alloc, seed, said.digest, &said.names)?;
    let workers = said.worker_count();
    let name = UnnamedFor::of(workers);
    open_hall::<Brand, K, C, N, R, O>(rt, alloc, name, both, said, workers, output)
}
