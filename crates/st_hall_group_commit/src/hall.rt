//! A hall with three locks: one for deciding, one for what keeps and publishes, and a short one for waiting.
ghost use Rattle.std.specs.Prelude.{◌≡◌, [], IfOk, IfSome};
ghost use Rattle.st_journal.specs.Replays.{Replays};
ghost use Rattle.st_journal_store.specs.Applying.{Applies};
ghost use Rattle.st_hall_group_commit.specs.Rolls.{WasRead};

use crate::board::Board;
use crate::draft::Draft;
use crate::fault::ChangeError;
use crate::publisher::Publisher;
use crate::reading::Reading;
use st_core::Asked;
use st_hall::{Clerk, Commits, Desk, Front, HallName, KeptFront, Lost, Outcome, Undecided};
use st_http::message::Message;
use st_journal::{Journal, ReadBack, ReadError};
use st_journal_store::Beginning;
use std::alloc::Global;
use std::sync::atomic::{AtomicBool, Ordering};
use std::sync::{Condvar, Mutex, Wait};
use std::time::Clock;

/// A hall whose changes a journal keeps in groups: while one group is kept, the changes of the next one are decided. One thread keeps
/// a group for all whose changes are in it, and they wait until it says that they are kept. The clock tells the times of the records.
#[derive(Drop)]
pub struct DurableHall<B: Beginning, H: HallName, R: Wait + Clock + Drop, J: Journal + Drop> {
    clock: R,
    // Lock order: after the publisher's lock.
    draft: Mutex<Draft<H>>,
    publisher: Mutex<Publisher<B, H, R, J>>,
    // Lock order: innermost; no other lock is taken while it is held.
    board: Mutex<Board<H>>,
    // Signalled when the leader is done.
    ended: Condvar,
    // A change was lost.
    alarm: AtomicBool,
}

impl<B: Beginning, H: HallName, R: Wait + Clock + Drop, J: Journal + Drop> DurableHall<B, H, R, J> {
    /// The hall of a clerk that was just opened over two stores of the state to which the journal's list leads.
    pub fn new(alloc: Global, clock: R, clerk: Clerk<H, R>, journal: J) -> DurableHall<B, H, R, J>
        requires empty { (clerk.list ≡ []) × (clerk.published ≡ []) × (clerk.kept ≡ 0) }
        requires ready { J.is_ready journal }
        requires stands { J.misreads journal ≡ 0 → Replays Applies B.first (J.list journal) H.start }
    {
        let (scribe, press, mark) = clerk.apart();
        let publisher = Publisher::new(press, mark, journal);
        let board = Board::new(publisher.kept(), publisher.published());
        DurableHall {
            clock,
            draft: Mutex::new(Draft::new(alloc, scribe)),
            publisher: Mutex::new(publisher),
            board: Mutex::new(board),
            ended: Condvar::new(),
            alarm: AtomicBool::new(false),
        }
    }

    /// Its draft and its publisher, when no thread shares it any more.
    pub fn apart(self) -> (Draft<H>, Publisher<B, H, R, J>) {
        let Self {
            draft,
            publisher,
            ..
        } = self;
        (draft.into_inner(), publisher.into_inner())
    }

    // Tells all threads that a change was lost.
    fn lose(&self) {
        self.alarm.store(true, Ordering::SeqCst);
    }

    // Keeps and publishes a front with all that is decided by now, for which others may wait, and tells them how far it came. That it
    // is kept they may know before it is published. The front as one that is kept, where it is.
    fn lead<W: Wait>(&self, rt: &W, front: &Front<H>) -> Option<KeptFront<H>>
        ensures { IfSome result (λ kept. kept ≡ front.now) }
    {
        let mut publisher = self.publisher.lock(rt);
        let found = publisher.keep_front(rt, &self.draft, front);
        self.board.lock(rt).note(publisher.kept());
        if found.is_some() {
            publisher.publish_front(rt, &self.draft, front);
        }
        let kept = publisher.kept();
        let published = publisher.published();
        drop(publisher);
        self.board.lock(rt).end(kept, published, found.is_none());
        self.ended.notify_all();
        found
    }
}

impl<B: Beginning, H: HallName, R: Wait + Clock + Drop, J: Journal + Drop> Commits<H>
    for DurableHall<B, H, R, J> {
    ghost use Rattle.std.specs.Prelude.{⊤};
    ghost use Rattle.st_hall_group_commit.specs.Rolls.{HasFailed, Leaves};

    ghost HOLD = { 16384 };

    const HOLD: usize = 16_384;

    // An append may fail, or find no memory.
    ghost may_lose = { ⊤ };

    ghost fails = { HasFailed J.Journal };

    ghost leaves = { Leaves J.Journal B.first H.start };

    // Decides a change, and adds it to the list, which is neither kept nor published then. `Lost` comes once an append failed.
    fn change<W: Wait>(
        &self,
        rt: &W,
        desk: &mut Desk<H>,
        message: &Message<'_>,
        asked: &Asked,
    ) -> Result<Outcome<H>, Undecided> {
        let is_published = false;
        let mut draft = self.draft.lock(rt);
        match draft.add(&self.clock, desk, message, asked) {
            Ok((reply, front)) => Ok(Outcome {
                reply: Some(reply),
                front,
                is_published,
            }),
            Err(ChangeError::Stranger) => Ok(Outcome {
                reply: None,
                front: draft.front(),
                is_published,
            }),
            Err(ChangeError::NoMemory) => Err(Undecided::NoMemory),
            Err(ChangeError::Lost) => {
                self.lose();
                Err(Undecided::Lost)
            }
        }
    }

    // Syncs all that is decided so far with it, or nothing if another thread has synced it. At an error, whether it is kept is unknown
    // until the journal is reopened.
    fn sync<W: Wait>(&self, rt: &W, front: &Front<H>) -> Result<(KeptFront<H>, bool), Lost> {
        let mut board = self
            .ended
            .wait_while(rt, self.board.lock(rt), |board| board.is_awaited(front));
        if let Some(kept) = board.find_done(front) {
            return Ok((kept, board.has_published(front)));
        }
        if board.is_lost() {
            self.lose();
            return Err(Lost);
        }
        board.begin();
        drop(board);
        if let Some(kept) = self.lead(rt, front) {
            return Ok((kept, self.board.lock(rt).has_published(front)));
        }
        self.lose();
        Err(Lost)
    }

    fn find_kept<W: Wait>(&self, rt: &W, front: &Front<H>) -> Option<KeptFront<H>> {
        self.board.lock(rt).find_sure(front)
    }

    fn is_lost(&self) -> bool {
        self.alarm.load(Ordering::SeqCst)
    }

    fn has_failed<W: Wait>(&self, rt: &W) -> bool {
        self.publisher.lock(rt).has_failed()
    }

    fn whole<W: Wait>(&self, rt: &W, desks: &mut [Desk<H>]) -> Front<H> {
        self.draft.lock(rt).whole(desks)
    }

    fn left<W: Wait>(&self, rt: &W, list: &Front<H>, known: &KeptFront<H>) -> Option<Front<H>> {
        self.publisher.lock(rt).left(list, known)
    }
}

impl<B: Beginning, H: HallName, R: Wait + Clock + Drop, J: ReadBack + Drop> DurableHall<
    B,
    H,
    R,
    J,
> {
    /// The kept records behind the first `from`, in order, at most so many: what the journal had there at the moment of the reading.
    /// No change is kept meanwhile. `Lost` comes once an append failed, or where the journal takes no more.
    pub fn read<W: Wait>(&self, rt: &W, from: u64, most: usize) -> Result<Reading<H>, ReadError>
        ensures { IfOk result (λ reading. WasRead J.Journal B.first H.start reading.kept
            from most reading.records.items) }
    {
        let mut publisher = self.publisher.lock(rt);
        let records = publisher.read(from, most)?;
        Ok(Reading {
            records,
            kept: publisher.kept(),
        })
    }
}
