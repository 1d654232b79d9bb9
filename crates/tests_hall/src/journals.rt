//! A journal whose appends take time and are counted.
ghost use Rattle.std.specs.Prelude.{◌≡◌, []};

use st_journal::{AppendError, Journal, MemoryJournal, Record};
use std::alloc::Global;
use std::thread;
use std::time::{Clock, Duration};

/// A journal in memory whose appends take four milliseconds, and fail after so many.
#[derive(Drop)]
pub struct SlowJournal<'a, C: Clock> {
    clock: &'a C,
    kept: MemoryJournal,
    appends: u64,
    limit: u64,
    refusals: u64,
}

impl<'a, C: Clock> SlowJournal<'a, C> {
    /// An empty one.
    pub fn new(clock: &'a C, alloc: Global, limit: u64) -> SlowJournal<'a, C>
        ensures { ⟦<SlowJournal<'a, C> as Journal>⟧.list result ≡ [] }
    {
        SlowJournal {
            clock,
            kept: MemoryJournal::new(alloc),
            appends: 0,
            limit,
            refusals: 0,
        }
    }

    /// How many appends there were.
    pub fn appends(&self) -> u64 {
        self.appends
    }

    /// The records, in order.
    pub fn records(&self) -> &[Record] {
        self.kept.records()
    }
}

impl<'a, C: Clock> Journal for SlowJournal<'a, C> {
    ghost list = { λ journal. ⟦<MemoryJournal as Journal>⟧.list journal.kept };

    ghost misreads = { λ journal. ⟦<MemoryJournal as Journal>⟧.misreads journal.kept };

    ghost faults = { λ journal. journal.refusals };

    ghost is_ready = { λ journal. ⟦<MemoryJournal as Journal>⟧.is_ready journal.kept };

    ghost may_leave = { λ journal left. ⟦<MemoryJournal as Journal>⟧.may_leave journal.kept left };

    ghost leaves_list = { λ _ _ _ _ leaves. absurd leaves };

    fn append(&mut self, records: &[Record]) -> Result<(), AppendError> {
        if self.appends >= self.limit {
            self.refusals = self.refusals.saturating_add(1);
            return Err(AppendError::NotKept);
        }
        thread::sleep(self.clock, Duration::from_millis(4));
        self.appends = self.appends.saturating_add(1);
        self.kept.append(records)
    }
}
