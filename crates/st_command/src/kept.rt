//! Serves one connection from a store that a journal keeps.
ghost use Rattle.std.specs.Prelude.{◌≡◌, ◌⊎◌, ◌≤◌, false, None, Ok, string_bytes};
ghost use Rattle.st_journal.specs.Replays.{Replays};
ghost use Rattle.st_journal_store.specs.Applying.{Applies};
ghost use Rattle.st_journal_store.specs.Keeping.{answered};
ghost use Rattle.st_command_line.specs.Status.{exit_status_of, exit_status_after};
ghost use Rattle.st_command.specs.Kept.{IsOpened, ServesStored, status_after};
ghost use Rattle.st_command.specs.Opening.{Fails, IsOfStore};
ghost use Rattle.st_connection.specs.Streams.{AreUntouched, streams};

use crate::keeper::Keeper;
use st_command_line::Fault;
use st_core::Store;
use st_journal::Journal;
use st_journal_store::{Beginning, DurableService, Loss, ReplayedStore, Since};
use st_service::{Ended, IoFault, Sink, Source};
use std::alloc::Global;
use std::marker::Brand;
use std::time::Clock;

// Where a store is kept, and what it is opened with.
#[derive(Drop)]
pub(crate) struct StoreLocation<'a> {
    pub(crate) path: &'a str,
    pub(crate) opening: String,
}

// Why a run ends that lost a change for this reason.
fn fault_of(loss: Option<Loss>) -> Fault
    ensures { exit_status_of result ≡ status_after (Ok Ended.Lost) loss }
{
    match loss {
        Some(Loss::Disk) => Fault::StoreLost,
        Some(Loss::NoMemory) | None => Fault::NoMemory,
    }
}

// How a run ends after a connection that ended so.
pub(crate) fn end_after(ended: Result<Ended, IoFault>, loss: Option<Loss>) -> Result<(), Fault>
    ensures { exit_status_after result ≡ status_after ended loss }
{
    match ended {
        Ok(Ended::Clean | Ended::Closed) => Ok(()),
        Ok(Ended::Cut) => Err(Fault::Cut),
        Ok(Ended::TurnsSpent) => Err(Fault::TurnsSpent),
        Ok(Ended::Lost) => Err(fault_of(loss)),
        Err(IoFault { .. }) => Err(Fault::Io),
    }
}

// Serves the connection.
fn converse_kept<B: Beginning + Since, J: Journal + Drop, C: Clock, R: Source, W: Sink>(
    service: &mut DurableService<'_, B, J, C>,
    reader: &mut R,
    writer: &mut W,
) -> Result<(), Fault>
    requires synced { service.old.kept ≡ answered service.old }
    requires sound { service.old.loss ≡ None }
    requires reader_sound { R.has_failed reader.old ≡ false }
    requires writer_sound { W.has_failed writer.old ≡ false }
    ensures { ServesStored J.Journal B.first B.faults service.old.kept
        (streams R.Source W.Sink reader.old reader.new writer.old writer.new) (exit_status_after result) }
{
    let ended = service.serve(reader, writer);
    end_after(ended, service.loss())
}

// Serves the connection from the state after the changes of a journal.
fn serve_opened<B: Beginning + Since, J: Journal + Drop, C: Clock, R: Source, W: Sink>(
    clock: &C,
    alloc: Global,
    store: Store,
    journal: J,
    reader: &mut R,
    writer: &mut W,
) -> Result<(), Fault>
    requires ready { J.is_ready journal }
    requires stands { J.misreads journal ≡ 0 → Replays Applies B.first (J.list journal) store }
    requires counts { B.faults ≤ J.faults journal }
    requires reader_sound { R.has_failed reader.old ≡ false }
    requires writer_sound { W.has_failed writer.old ≡ false }
    ensures { ServesStored J.Journal B.first B.faults store (streams R.Source W.Sink reader.old reader.new writer.old writer.new)
        (exit_status_after result)
        ⊎ Fails IsOfStore
        (AreUntouched (streams R.Source W.Sink reader.old reader.new writer.old writer.new)) (exit_status_after result) }
{
    let mut service = DurableService::<B, J, C>::new(alloc, clock, store, journal)?;
    converse_kept(&mut service, reader, writer)
}

// Opens the journal over the state that its changes lead on from, and serves the connection.
pub(crate) fn serve_kept<
    B: Beginning,
    J: Journal + Drop,
    K: Keeper<J>,
    C: Clock,
    R: Source,
    W: Sink,
>(
    clock: &C,
    alloc: Global,
    keeper: K,
    location: &StoreLocation<'_>,
    mut state: ReplayedStore,
    reader: &mut R,
    writer: &mut W,
) -> Result<(), Fault>
    requires first { state ≡ B.first }
    requires reader_sound { R.has_failed reader.old ≡ false }
    requires writer_sound { W.has_failed writer.old ≡ false }
    ensures { IsOpened (K.holds keeper location.now.path.now) J.Journal
        (string_bytes location.now.opening) B.first
        (streams R.Source W.Sink reader.old reader.new writer.old writer.new) (exit_status_after result)
        ⊎ Fails IsOfStore
        (AreUntouched (streams R.Source W.Sink reader.old reader.new writer.old writer.new)) (exit_status_after result) }
{
    let journal = keeper.open(location.path, location.opening.as_str(), &mut state)?;
    let store = state.into_store();
    serve_opened::<Brand, J, C, R, W>(clock, alloc, store, journal, reader, writer)
}
