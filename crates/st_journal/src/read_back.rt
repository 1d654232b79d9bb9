//! The records that a journal keeps, read back.
ghost use Rattle.std.specs.Prelude.{◌≡◌, ◌≢◌, ◌≤◌, List, Err, IfOk, drop, take};
ghost use Rattle.st_journal.specs.declared.record.Record.{Record};
ghost use Rattle.st_journal.specs.Faults.{FaultsRise};

use crate::journal::Journal;
use crate::record::Record;
use thiserror::Error;

/// Why records were not read back.
#[derive(Clone, Copy, Debug, PartialEq, Eq, Error)]
pub enum ReadError {
    /// Memory ran out, or the disk failed to read. The journal goes on.
    #[error("not read")]
    NotRead,
    /// The journal takes no more; what it holds is unknown until it is reopened.
    #[error("the journal takes no more")]
    Lost,
}

/// A journal that gives its records back while it takes more.
pub trait ReadBack: Journal {
    /// The records behind the first `from`, in order, at most `most`. A read changes nothing, also if a crash cuts it off.
    fn read(&mut self, from: u64, most: usize) -> Result<Vec<Record>, ReadError>
        requires ready { Self.Journal.is_ready self.old }
        ensures ready { result ≢ Err ReadError.Lost → Self.Journal.is_ready self.new }
        ensures misreads { Self.Journal.misreads self.old ≤ Self.Journal.misreads self.new }
        ensures counts { Self.Journal.faults self.old ≤ Self.Journal.faults self.new }
        ensures read { IfOk result (λ records. Self.Journal.misreads self.new ≡ 0
            → records.items ≡ take most (drop from (Self.Journal.list self.old))) }
        ensures same { Self.Journal.misreads self.new ≡ 0 → result ≢ Err ReadError.Lost
            → Self.Journal.list self.new ≡ Self.Journal.list self.old }
        ensures lost { Self.Journal.misreads self.new ≡ 0 → result ≡ Err ReadError.Lost
            → FaultsRise (Self.Journal.faults self.old) (Self.Journal.faults self.new) }
        ensures crash { Self.Journal.misreads self.new ≡ 0 → (left : List Record) → Self.Journal.may_leave self.new left
            → left ≡ Self.Journal.list self.old };
}
