//! What is copied, and what copies it.
ghost use Rattle.std.specs.Prelude.{◌≡◌, ℕ, List, IfOk};
ghost use Rattle.st_journal.specs.declared.record.Record.{Record};

use crate::fault::CopyFault;
use st_journal::{ReadError, Record};

/// A list of records that others may make longer while it is read.
pub trait RecordSource {
    // A read from `from`, of at most `most` records, returned these at some moment.
    ghost gives: { Self → (from most : ℕ) → List Record → Type 0 };

    /// The records behind the first `from`, in order, at most so many, and fewer only where the list has no more.
    fn read(&mut self, from: u64, most: usize) -> Result<Vec<Record>, ReadError>
        ensures given { IfOk result (λ records. gives self.new from most records.items) }
        ensures stays { (from most : ℕ) (records : List Record) → gives self.old from most records → gives self.new from most records };
}

/// Copies a list into a file, turn by turn.
pub trait Copier {
    /// Brings the copy at a path up to a list, of a store that was opened with `opening`. A copy that is missing is made. Between
    /// two turns the file is closed.
    fn take_turn<S: RecordSource>(
        &mut self,
        path: &str,
        opening: &str,
        source: &mut S,
    ) -> Result<(), CopyFault>;
}
