//! Records of changes, looked at from the last one on.
//!
//! Changes are looked at from the last one on, with a set of the rows and tables that later changes decide. The policy's word comes
//! from making all changes again, since a record's own result is for people.
ghost use Rattle.std.specs.Prelude.{◌≡◌, ◌<◌, ◌+◌, ◌^◌, ◌&&◌, ◌||◌, not, nat_le, if◌then◌else◌, [], ◌∷◌, ◌++◌, reverse, IfOk, OnOk};
ghost use Rattle.std.specs.declared.alloc.Global.{Global as Heap};
ghost use Rattle.st_table.specs.Rows.{Held};
ghost use Rattle.st_journal_compact.specs.Shortening.{decides, is_undone};
ghost use Rattle.st_journal_compact.specs.inner.Stages.{Stands, Took, knows};

use crate::decided::Decided;
use crate::judged_record::JudgedRecord;
use st_journal::{Record, ReplayError};
use st_journal_record::request_in;
use st_policy::Request;
use std::alloc::Global;

// How many changes the audit listing shows.
const SHOWN: u64 = 1024;

// What is known of the changes that were looked at, which stand behind the others: those that the short list has, the last one first,
// how many there were, and the rows of which they decide.
#[derive(Drop)]
pub(crate) struct Sieve {
    alloc: Global,
    kept: Vec<Record>,
    behind: u64,
    decided: Decided,
}

impl Sieve {
    /// No change was looked at.
    pub fn new(alloc: Global) -> Sieve
        ensures { Stands result [] }
    {
        Sieve {
            alloc,
            kept: Vec::new(alloc),
            behind: 0,
            decided: Decided::new(alloc),
        }
    }

    // Whether the short list leaves a change out.
    fn leaves_out(&self, request: &Request, accepted: bool) -> Result<bool, ReplayError>
        ensures { IfOk result (λ told. told
            ≡ (nat_le 1024 self.now.behind && (not accepted || is_undone request.now (knows self.now.decided)))) }
    {
        if self.behind < SHOWN {
            Ok(false)
        } else if accepted {
            self.decided.undoes(request)
        } else {
            Ok(true)
        }
    }

    // Marks the rows that a change decides, if it is accepted.
    fn decide(&mut self, request: &Request, accepted: bool) -> Result<(), ReplayError>
        ensures knows { OnOk result ((held : Held Heap)
            → knows self.new.decided held ≡ ((accepted && decides request.now held) || knows self.old.decided held)) }
        ensures kept { OnOk result (self.new.kept ≡ self.old.kept) }
        ensures behind { OnOk result (self.new.behind ≡ self.old.behind) }
    {
        if !accepted {
            return Ok(());
        }
        self.decided.add(request)
    }

    // Adds the record of a change to the short list, unless it is left out.
    fn count(&mut self, note: Record, left_out: bool) -> Result<(), ReplayError>
        requires { self.old.behind < 2 ^ 63 }
        ensures kept { OnOk result (self.new.kept.items
            ≡ (if left_out then self.old.kept.items else self.old.kept.items ++ note ∷ [])) }
        ensures behind { OnOk result (self.new.behind ≡ self.old.behind + 1) }
        ensures decided { OnOk result (self.new.decided ≡ self.old.decided) }
    {
        if left_out {
            drop(note);
        } else if self.kept.push(note).is_err() {
            return Err(ReplayError::NoMemory);
        }
        self.behind += 1;
        Ok(())
    }

    /// Looks at a change, in front of the others.
    pub fn take(&mut self, it: JudgedRecord) -> Result<(), ReplayError>
        requires { self.old.behind < 2 ^ 63 }
        ensures { OnOk result (Took self.old self.new it) }
    {
        let request = request_in(self.alloc, self.alloc, &it.note)?;
        let left_out = self.leaves_out(&request, it.accepted)?;
        self.decide(&request, it.accepted)?;
        drop(request);
        self.count(it.note, left_out)
    }

    /// The records of the short list.
    pub fn into_kept(self) -> Vec<Record>
        ensures { result.items ≡ reverse self.kept.items }
    {
        let mut kept = self.kept;
        kept.reverse();
        kept
    }
}
