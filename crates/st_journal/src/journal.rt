//! What keeps the records.
ghost use Rattle.std.specs.Prelude.{◌≡◌, ◌≢◌, ◌⊎◌, ◌≤◌, ◌++◌, ℕ, List, Err, OnOk, OnErr};
ghost use Rattle.st_journal.specs.declared.record.Record.{Record};
ghost use Rattle.st_journal.specs.Faults.{FaultsRise};

use crate::record::Record;
use thiserror::Error;

/// Why records were not appended.
#[derive(Clone, Copy, Debug, PartialEq, Eq, Error)]
pub enum AppendError {
    /// Memory ran out, or the records are more or longer than the journal takes. None of them is kept, and none ever will be. The
    /// journal goes on.
    #[error("out of memory")]
    NoMemory,
    /// The disk failed or refused. None of them is kept, and none ever will be. The journal goes on.
    #[error("the disk failed or refused")]
    NotKept,
    /// All of them are kept or none; which of the two is unknown until the journal is reopened. The journal takes no more.
    #[error("unknown until the journal is opened again")]
    Unknown,
}

/// Keeps the records of changes, in order, so that they outlast a crash.
pub trait Journal {
    // The records that are kept.
    ghost list: { Self → List Record };

    // How many reads silently returned wrong bytes. No code can tell.
    ghost misreads: { Self → ℕ };

    // How often the disk failed or refused.
    ghost faults: { Self → ℕ };

    // It takes records: it was opened, and no append was unknown.
    ghost is_ready: { Self → Type 0 };

    // The lists that the next opening may find, if the process ends at this moment.
    ghost may_leave: { Self → List Record → Type 0 };

    /// Puts records behind the list, all of them or none, and returns once they would outlast a crash.
    fn append(&mut self, records: &[Record]) -> Result<(), AppendError>
        requires ready { is_ready self.old }
        ensures ready { result ≢ Err AppendError.Unknown → is_ready self.new }
        ensures misreads { misreads self.old ≤ misreads self.new }
        ensures counts { faults self.old ≤ faults self.new }
        ensures kept { misreads self.new ≡ 0 → OnOk result (list self.new ≡ list self.old ++ records.now) }
        ensures not_kept { misreads self.new ≡ 0 → result ≢ Err AppendError.Unknown → OnErr result (list self.new ≡ list self.old) }
        ensures refused { misreads self.new ≡ 0 → result ≡ Err AppendError.NotKept → FaultsRise (faults self.old) (faults self.new) }
        ensures unknown { misreads self.new ≡ 0 → result ≡ Err AppendError.Unknown → FaultsRise (faults self.old) (faults self.new) }
        // A crash inside the call is a disk that fails from some moment on, so that the call ends as `Unknown`.
        ensures crash { misreads self.new ≡ 0 → (left : List Record) → may_leave self.new left
            → (left ≡ list self.old) ⊎ (left ≡ list self.old ++ records.now) };

    // A journal that takes records leaves its list and nothing else.
    ghost leaves_list: { (journal : Self) (left : List Record) → misreads journal ≡ 0 → is_ready journal → may_leave journal left
        → left ≡ list journal };
}
