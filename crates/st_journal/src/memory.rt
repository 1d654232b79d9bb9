//! A journal in memory.
ghost use Rattle.std.specs.Prelude.{◌≡◌, ◌++◌, ℕ, [], List, IfOk, OnOk, drop, take, ⊤};
ghost use Rattle.st_journal.specs.declared.record.Record.{Record};
ghost use Rattle.st_journal.specs.inner.Copies.{GrowsTo};

use crate::journal::{AppendError, Journal};
use crate::read_back::{ReadBack, ReadError};
use crate::record::Record;
use std::alloc::{AllocError, Global};

/// A journal in memory, for tests. A crash leaves none.
#[derive(Drop)]
pub struct MemoryJournal {
    alloc: Global,
    records: Vec<Record>,
}

// Puts copies of the records behind the list. At an error only some of them may be there.
fn push_copies(list: &mut Vec<Record>, records: &[Record]) -> Result<(), AllocError>
    ensures ok { OnOk result (list.new.items ≡ list.old.items ++ records.now) }
    ensures grows { GrowsTo list.old.items list.new.items }
{
    for change in records {
        list.push(change.copy()?)?;
    }
    Ok(())
}

// Copies of the records behind the first `from`, at most so many.
fn copies_of(
    alloc: Global,
    records: &[Record],
    from: u64,
    most: usize,
) -> Result<Vec<Record>, AllocError>
    ensures { IfOk result (λ copies. copies.items ≡ take most (drop from records.now)) }
{
    let mut copies = Vec::new(alloc);
    let from = usize::try_from(from)
        .unwrap_or(usize::MAX)
        .min(records.len());
    let to = from.saturating_add(most).min(records.len());
    push_copies(&mut copies, &records[from..to])?;
    Ok(copies)
}

impl MemoryJournal {
    /// An empty journal.
    pub fn new(alloc: Global) -> MemoryJournal
        ensures { ⟦<MemoryJournal as Journal>⟧.list result ≡ [] }
    {
        MemoryJournal {
            alloc,
            records: Vec::new(alloc),
        }
    }

    /// The records, in order.
    pub fn records(&self) -> &[Record]
        ensures { result.now ≡ ⟦<MemoryJournal as Journal>⟧.list self.now }
    {
        self.records.as_slice()
    }
}

impl Journal for MemoryJournal {
    ghost list = { λ journal. journal.records.items };

    ghost misreads = { λ _. 0 };

    ghost faults = { λ _. 0 };

    ghost is_ready = { λ _. ⊤ };

    ghost may_leave = { λ _ _. ⊥ };

    ghost leaves_list = { λ _ _ _ _ leaves. absurd leaves };

    fn append(&mut self, records: &[Record]) -> Result<(), AppendError> {
        let before = self.records.len();
        match push_copies(&mut self.records, records) {
            Ok(()) => Ok(()),
            Err(_) => {
                self.records.truncate(before);
                Err(AppendError::NoMemory)
            }
        }
    }
}

impl ReadBack for MemoryJournal {
    fn read(&mut self, from: u64, most: usize) -> Result<Vec<Record>, ReadError> {
        match copies_of(self.alloc, self.records.as_slice(), from, most) {
            Ok(copies) => Ok(copies),
            Err(_) => Err(ReadError::NotRead),
        }
    }
}
