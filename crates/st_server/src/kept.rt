//! A server whose store a journal keeps.
ghost use Rattle.std.specs.Prelude.{◌≡◌, ◌<◌, ◌⊎◌, Err, Some, List, string_bytes};
ghost use Rattle.st_text.specs.Texts.{Text};
ghost use Rattle.st_journal.specs.Replays.{Replays};
ghost use Rattle.st_journal_store.specs.Applying.{Applies};
ghost use Rattle.st_hall_group_commit.specs.Rolls.{HasFailed, Leaves};
ghost use Rattle.st_server.specs.Attending.{Attends, held_back};
ghost use Rattle.st_server.specs.Keeping.{RunsKept, RunsOpened, TellsKept};
ghost use Rattle.st_command.specs.Opening.{Fails, IsOfStore};
ghost use Rattle.st_command_line.specs.Common.{path_in};
ghost use Rattle.st_command_line.specs.ServedArguments.{RefusesServedWords, SaysServed, address_text};
ghost use Rattle.st_command_line.specs.Status.{exit_status_after};
ghost use Rattle.st_command_line.specs.declared.fault.Fault.TheVariants.{StoreLost};

use crate::copying::{Copying, KeptList};
use crate::serving::serve_at;
use st_command::{Keeper, store_and_opening_for};
use st_command_line::{Fault, ServedArguments};
use st_core::{Seed, Store};
use st_hall::{Hall, HallFault, HallName, UnnamedFor};
use st_hall_group_commit::DurableHall;
use st_journal::ReadBack;
use st_journal_copy::Copier;
use st_journal_store::{Beginning, ReplayedStore};
use st_server_peer::{Client, Listens};
use st_server_workers::Binds;
use std::alloc::Global;
use std::fs::Files;
use std::io::{Eprint, Write};
use std::marker::Brand;
use std::net::{Net, TcpListener, TcpStream};
use std::sync::Wait;
use std::thread::Threads;
use std::time::Clock;

// Where a store is kept, and what it is opened with.
#[derive(Drop)]
struct StoreLocation<'a> {
    path: &'a str,
    opening: String,
}

// Opens a hall over the two stores, with a desk for each worker, and serves at its desks.
fn open_hall<
    B: Beginning + Send + Sync,
    H: HallName + Send + Sync,
    J: ReadBack + Drop + Send,
    K: Copier + Drop + Send,
    C: Client + Send + Drop,
    N: Binds + Listens<Accepted = C> + Sync + Drop,
    R: Net<Listener = TcpListener, Stream = TcpStream>
        + Files
        + Threads
        + Wait
        + Clock
        + Eprint
        + Sync,
    O: Write,
>(
    rt: &R,
    alloc: Global,
    name: UnnamedFor,
    both: (Store, Store),
    journal: J,
    said: &ServedArguments<'_>,
    copying: Option<Copying<'_, K>>,
    workers: u16,
    output: &mut O,
) -> Result<(), Fault>
    requires named { (name.seen.book ≡ H.book) × (name.blank.name ≡ H.name) × (name.mark.name ≡ H.mark) }
    requires workers { (name.blank.parts ≡ workers) × (H.parts ≡ workers) × (0 < workers) }
    requires alike { (both.0 ≡ H.start) × (both.1 ≡ H.start) }
    requires ready { J.Journal.is_ready journal }
    requires stands { J.Journal.misreads journal ≡ 0 → Replays Applies B.first (J.Journal.list journal) H.start }
    ensures told { TellsKept (address_text said.now.bind_address) said.now.connections
        (O.contents output.old) (O.contents output.new) result }
    ensures failed { result ≡ Err StoreLost → HasFailed J.Journal }
    ensures attended { Attends C.call H.start (Leaves J.Journal B.first H.start)
        held_back said.now.connections result }
{
    match Hall::<H>::open_for(rt, alloc, name, both.0, both.1, workers) {
        Ok((clerk, desks)) => {
            let kept = clerk.front();
            let hall = DurableHall::<B, H, &R, J>::new(alloc, rt, clerk, journal);
            let list = KeptList {
                hall: &hall,
                rt,
                kept,
            };
            serve_at::<H, _, C, N, _, _, _, _>(rt, alloc, said, &hall, list, copying, desks, output)
        }
        Err(HallFault::NoPlace) => Err(Fault::NoPlace),
        Err(HallFault::NoMemory) => Err(Fault::NoMemory),
    }
}

// What copies the store, where the arguments name a copy.
fn copying_for<'a, K: Copier + Drop>(
    said: &ServedArguments<'a>,
    copier: K,
    location: &'a StoreLocation<'_>,
) -> Option<Copying<'a, K>> {
    match said.copy {
        Some(path) => Some(Copying {
            copier,
            path,
            opening: location.opening.as_str(),
        }),
        None => {
            drop(copier);
            None
        }
    }
}

// Opens the journal over the state that its changes lead on from, and serves from two copies of what they lead to.
fn serve_kept<
    B: Beginning + Send + Sync,
    J: ReadBack + Drop + Send,
    K: Keeper<J>,
    L: Copier + Drop + Send,
    C: Client + Send + Drop,
    N: Binds + Listens<Accepted = C> + Sync + Drop,
    R: Net<Listener = TcpListener, Stream = TcpStream>
        + Files
        + Threads
        + Wait
        + Clock
        + Eprint
        + Sync,
    O: Write,
>(
    rt: &R,
    alloc: Global,
    keeper: K,
    copier: L,
    location: &StoreLocation<'_>,
    mut state: ReplayedStore,
    said: &ServedArguments<'_>,
    output: &mut O,
) -> Result<(), Fault>
    requires first { state ≡ B.first }
    ensures { RunsOpened C.call (K.holds keeper location.now.path.now) J.Journal (string_bytes location.now.opening) B.first said.now
        (O.contents output.old) (O.contents output.new) (exit_status_after result)
        ⊎ Fails IsOfStore (O.contents output.new ≡ O.contents output.old) (exit_status_after result) }
{
    let journal = keeper.open(location.path, location.opening.as_str(), &mut state)?;
    let both = state.into_stores()?;
    let workers = said.worker_count();
    let name = UnnamedFor::of(workers);
    let copying = copying_for(said, copier, location);
    open_hall::<B, Brand, J, L, C, N, R, O>(
        rt, alloc, name, both, journal, said, copying, workers, output,
    )
}

// Serves from the store at a path, which the keeper opens, as the words say. A copier that they name a copy for follows it.
pub(crate) fn run_kept<
    J: ReadBack + Drop + Send,
    K: Keeper<J> + Drop,
    L: Copier + Drop + Send,
    C: Client + Send + Drop,
    N: Binds + Listens<Accepted = C> + Sync + Drop,
    R: Net<Listener = TcpListener, Stream = TcpStream>
        + Files
        + Threads
        + Wait
        + Clock
        + Eprint
        + Sync,
    O: Write,
>(
    rt: &R,
    alloc: Global,
    seed: Seed,
    keeper: K,
    copier: L,
    said: &ServedArguments<'_>,
    path: &str,
    output: &mut O,
) -> Result<(), Fault>
    requires named { path_in said.now.store ≡ Some path.now }
    ensures { (words : List Text) → SaysServed words said.now
        → Fails (RefusesServedWords words) (O.contents output.new ≡ O.contents output.old) (exit_status_after result)
        ⊎ RunsKept C.call (K.holds keeper) J.Journal
        words (O.contents output.old) (O.contents output.new) (exit_status_after result) }
{
    let (first, opening) = store_and_opening_for(alloc, seed, said.digest, &said.names)?;
    let location = StoreLocation { path, opening };
    let state = ReplayedStore::new(alloc, first);
    serve_kept::<Brand, J, K, L, C, N, R, O>(
        rt, alloc, keeper, copier, &location, state, said, output,
    )
}
