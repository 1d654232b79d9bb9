//! A service whose changes are kept before they are answered.
ghost use Rattle.std.specs.Prelude.{◌≡◌, ◌≢◌, ◌≤◌, false, None, Some, Ok, List, IfOk, is_some};
ghost use Rattle.st_journal.specs.declared.record.Record.{Record};
ghost use Rattle.st_journal.specs.Faults.{FaultsRise};
ghost use Rattle.st_journal.specs.Replays.{Replays};
ghost use Rattle.st_journal.specs.Leaving.{LeavesOnly};
ghost use Rattle.st_service.specs.Answers.{Answers};
ghost use Rattle.st_connection.specs.Connection.{EndsOn, KeptUnlessLost, ServedWithin};
ghost use Rattle.st_connection.specs.Streams.{streams};
ghost use Rattle.st_journal_store.specs.Applying.{Applies};
ghost use Rattle.st_journal_store.specs.Keeping.{LeadTo, answered};

use crate::answerer::DurableAnswerer;
use crate::beginning::{Beginning, Since};
use crate::loss::Loss;
use st_connection::Server;
use st_connection::connection::{Ended, IoFault, MAX_READS};
use st_connection::streams::{Sink, Source};
use st_core::Store;
use st_journal::Journal;
use std::alloc::{AllocError, Global};
use std::marker::{Model, PhantomData};
use std::time::Clock;

/// A store that is asked over connections, one after another, and a journal of its changes. Each change whose token holds, made or
/// refused, is in the journal before a byte of its answer is written.
pub struct DurableService<'a, B: Beginning + Since, J: Journal + Drop, C: Clock> {
    server: Server<DurableAnswerer<'a, B, J, C>>,
}

// Written out, and not derived: a derived drop is proved anew in each crate that owns such a service.
impl<'a, B: Beginning + Since, J: Journal + Drop, C: Clock> Drop for DurableService<'a, B, J, C> {
    fn drop(self) {
        let Self { server: _server } = self;
    }
}

impl<'a, B: Beginning + Since, J: Journal + Drop, C: Clock> Model for DurableService<'a, B, J, C> {
    ghost use Rattle.st_journal_store.specs.Keeping.{Keeping};

    ghost Value = { Keeping J };

    ghost view = { λ s. s.server };
}

impl<'a, B: Beginning + Since, J: Journal + Drop, C: Clock> DurableService<'a, B, J, C> {
    /// A service over a store, which is that after the changes of the journal. The clock tells the times of the records.
    pub fn new(
        alloc: Global,
        clock: &'a C,
        store: Store,
        journal: J,
    ) -> Result<DurableService<'a, B, J, C>, AllocError>
        requires ready { J.is_ready journal }
        requires stands { J.misreads journal ≡ 0 → Replays Applies B.first (J.list journal) store }
        requires counts { B.faults ≤ J.faults journal }
        ensures { IfOk result (λ service. service ≡ record { kept = store; journal = journal; pending = None; loss = None }) }
    {
        let answerer = DurableAnswerer {
            alloc,
            clock,
            store,
            journal,
            pending: None,
            loss: None,
            beginning: PhantomData,
        };
        let server = Server::new(alloc, alloc, answerer)?;
        Ok(DurableService { server })
    }

    /// Serves a connection: answers each message that the reader gives, in order, before it reads on, and says how the connection
    /// ended. `Lost` comes where a change was not kept, or may not have been, or was kept and found no memory to be made: it is not
    /// answered, the next opening of the journal decides, and this service takes no more connections. Then `loss` says why.
    pub fn serve<R: Source, W: Sink>(
        &mut self,
        reader: &mut R,
        writer: &mut W,
    ) -> Result<Ended, IoFault>
        requires synced { self.old.kept ≡ answered self.old }
        requires sound { self.old.loss ≡ None }
        requires reader_sound { R.has_failed reader.old ≡ false }
        requires writer_sound { W.has_failed writer.old ≡ false }
        ensures served { ServedWithin Answers 0 self.old.kept (answered self.new) self.new.kept
            (streams R.Source W.Sink reader.old reader.new writer.old writer.new) result }
        ensures kept { KeptUnlessLost self.new.kept (answered self.new) (is_some self.new.loss) result }
        ensures disk { J.misreads self.new.journal ≡ 0 → self.new.loss ≡ Some Loss.Disk
            → FaultsRise B.faults (J.faults self.new.journal) }
        ensures stands { result ≢ Ok Ended.Lost → J.misreads self.new.journal ≡ 0
            → Replays Applies B.first (J.list self.new.journal) self.new.kept }
        // A crash inside the call is a journal, a reader or a writer that fails from some moment on.
        ensures leaves { LeavesOnly J.Journal self.new.journal (λ left. LeadTo B.first self.new.kept (answered self.new) left) }
        ensures ends { EndsOn MAX_READS (streams R.Source W.Sink reader.old reader.new writer.old writer.new) result }
    {
        let ended = self.server.serve(reader, writer);
        self.server.answerer().laws();
        ended
    }
    /// Why a change was lost, if one was.
    pub fn loss(&self) -> Option<Loss>
        ensures { result ≡ self.now.loss }
    {
        self.server.answerer().loss
    }
}
