//! What is put into the journal, and read back.
ghost use Rattle.std.specs.Prelude.{◌≡◌, ◌≢◌, ◌<◌, ◌≤◌, ◌⊎◌, ◌++◌, Err, List, IfOk, OnOk, drop, take, option_to_list, vec_capacity};
ghost use Rattle.std.specs.Prelude.{vec_len};
ghost use Rattle.st_journal.specs.declared.record.Record.{Record};
ghost use Rattle.st_journal.specs.declared.read_back.ReadError.TheVariants as ends;
ghost use Rattle.st_journal.specs.Leaving.{LeavesOnly};
ghost use Rattle.st_hall_group_commit.specs.Rolls.{HasFailed};

use st_journal::{AppendError, Journal, ReadBack, ReadError, Record};
use std::marker::PhantomData;

// What shows that a journal failed.
#[derive(Drop)]
pub(crate) struct Failure<J: Journal> {
    of: PhantomData<J>,
    ghost failed: { HasFailed J.Journal },
}

impl<J: Journal> Failure<J> {
    // The journal failed.
    pub(crate) fn is_certain(&self) -> bool
        ensures failed { HasFailed J.Journal }
    {
        true
    }
}

// Puts the record of a change behind the others, where it has one.
pub(crate) fn hold(batch: &mut Vec<Record>, note: Option<Record>)
    requires { vec_len batch.old < vec_capacity batch.old }
    ensures { batch.new.items ≡ batch.old.items ++ option_to_list note }
{
    if let Some(note) = note {
        batch.push_reserved(note);
    }
}

// Appends all of these records by one call, and none where there are none. An error has what shows that the journal failed, and nothing
// where memory ran out.
pub(crate) fn append_all<J: Journal>(
    journal: &mut J,
    records: &[Record],
) -> Result<(), Option<Failure<J>>>
    requires { J.is_ready journal.old }
    ensures misreads { J.misreads journal.old ≤ J.misreads journal.new }
    ensures ready { OnOk result (J.is_ready journal.new) }
    ensures list { OnOk result (J.misreads journal.new ≡ 0 → J.list journal.new ≡ J.list journal.old ++ records.now) }
    ensures crash { LeavesOnly J.Journal journal.new (λ left. (left ≡ J.list journal.old)
        ⊎ (left ≡ J.list journal.old ++ records.now)) }
{
    if records.is_empty() {
        return Ok(());
    }
    match journal.append(records) {
        Ok(()) => Ok(()),
        Err(AppendError::NoMemory) => Err(None),
        Err(AppendError::NotKept | AppendError::Unknown) => Err(Some(Failure { of: PhantomData })),
    }
}

// Reads records back, as the journal does. Where that is lost, it has what shows that the journal failed.
pub(crate) fn read_from<J: ReadBack>(
    journal: &mut J,
    from: u64,
    most: usize,
) -> (Result<Vec<Record>, ReadError>, Option<Failure<J>>)
    requires { J.Journal.is_ready journal.old }
    ensures ready { result.0 ≢ Err ends.Lost → J.Journal.is_ready journal.new }
    ensures misreads { J.Journal.misreads journal.old ≤ J.Journal.misreads journal.new }
    ensures read { IfOk result.0 (λ records. J.Journal.misreads journal.new ≡ 0
        → records.items ≡ take most (drop from (J.Journal.list journal.old))) }
    ensures same { J.Journal.misreads journal.new ≡ 0 → result.0 ≢ Err ends.Lost
        → J.Journal.list journal.new ≡ J.Journal.list journal.old }
    ensures crash { LeavesOnly J.Journal journal.new (λ left. left ≡ J.Journal.list journal.old) }
{
    match journal.read(from, most) {
        Err(ReadError::Lost) => (Err(ReadError::Lost), Some(Failure { of: PhantomData })),
        read => (read, None),
    }
}
