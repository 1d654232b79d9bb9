//! What the records are applied to.
ghost use Rattle.std.specs.Prelude.{◌≡◌, Err, OnOk, OnErr};
ghost use Rattle.st_journal.specs.declared.record.Record.{Record};

use crate::record::Record;
use thiserror::Error;

/// Why a record was not applied.
#[derive(Clone, Copy, Debug, PartialEq, Eq, Error)]
pub enum ReplayError {
    /// Memory ran out.
    #[error("out of memory")]
    NoMemory,
    /// The record is not that of a change which could be made here.
    #[error("the record does not apply")]
    Invalid,
}

/// A state that is computed from the records of a journal, when that is opened.
pub trait Replay {
    // The record leads from the first state to the second.
    ghost applies: { Self → Record → Self → Type 0 };

    /// Applies a record. At an error nothing is changed.
    fn apply(&mut self, change: &Record) -> Result<(), ReplayError>
        ensures ok { OnOk result (applies self.old change.now self.new) }
        ensures err { OnErr result (self.new ≡ self.old) }
        ensures invalid { result ≡ Err ReplayError.Invalid → (after : Self) → applies self.old change.now after → ⊥ };
}
