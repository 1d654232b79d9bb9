//! Whether a copy is a beginning of a list.
ghost use Rattle.std.specs.Prelude.{◌≡◌, ◌≤◌, ℕ, true, List, IfOk, OnOk, drop, length, take};
ghost use Rattle.st_journal.specs.declared.record.Record.{Record};
ghost use Rattle.st_journal.specs.Leaving.{LeavesOnly};
ghost use Rattle.st_journal_copy.specs.Following.{IsGiven};

use crate::fault::CopyFault;
use crate::follow::CHUNK;
use crate::source::RecordSource;
use st_journal::{ReadBack, Record};

// Whether two records are equal.
fn is_same(one: &Record, other: &Record) -> bool
    ensures { result ≡ true → one.now ≡ other.now }
{
    one.time == other.time
        && one.user.is(other.user.as_str())
        && one.request.is(other.request.as_str())
        && one.name.is(other.name.as_str())
        && one.body.is(other.body.as_str())
        && one.result.is(other.result.as_str())
}

// Whether two lists of records are equal.
fn are_same(ours: &[Record], theirs: &[Record]) -> bool
    ensures { result ≡ true → ours.now ≡ theirs.now }
{
    if ours.len() != theirs.len() {
        return false;
    }
    'places: for at in 0..ours.len() {
        if !is_same(&ours[at], &theirs[at]) {
            return false;
        }
    }
    true
}

// Reads records of a copy, and compares them with those of the list: how many there were.
fn compare_some<S: RecordSource, J: ReadBack>(
    source: &mut S,
    copy: &mut J,
    from: u64,
) -> Result<u64, CopyFault>
    requires ready { J.Journal.is_ready copy.old }
    ensures ready { OnOk result (J.Journal.is_ready copy.new) }
    ensures misreads { J.Journal.misreads copy.old ≤ J.Journal.misreads copy.new }
    ensures same { OnOk result (J.Journal.misreads copy.new ≡ 0 → J.Journal.list copy.new ≡ J.Journal.list copy.old) }
    ensures equal { IfOk result (λ some. (piece : List Record) × (length piece ≡ some)
        × ((most : ℕ) × S.gives source.new from most piece)
        × (J.Journal.misreads copy.new ≡ 0 → piece ≡ take CHUNK (drop from (J.Journal.list copy.old)))) }
    ensures stays { (from most : ℕ) (piece : List Record) → S.gives source.old from most piece → S.gives source.new from most piece }
    ensures crash { LeavesOnly J.Journal copy.new (λ left. left ≡ J.Journal.list copy.old) }
{
    let Ok(theirs) = copy.read(from, CHUNK) else {
        return Err(CopyFault::Io);
    };
    match source.read(from, theirs.len()) {
        Ok(ours) => {
            if are_same(&ours, &theirs) {
                Ok(theirs.len() as u64)
            } else {
                Err(CopyFault::OtherHistory)
            }
        }
        Err(error) => Err(CopyFault::of_list(error)),
    }
}

/// Compares a copy, which has so many records, with the list: at `OtherHistory` it is no beginning of it. Neither is changed.
pub fn compare<S: RecordSource, J: ReadBack>(
    source: &mut S,
    copy: &mut J,
    count: u64,
) -> Result<(), CopyFault>
    requires ready { J.Journal.is_ready copy.old }
    ensures ready { OnOk result (J.Journal.is_ready copy.new) }
    ensures misreads { J.Journal.misreads copy.old ≤ J.Journal.misreads copy.new }
    ensures same { OnOk result (J.Journal.misreads copy.new ≡ 0 → J.Journal.list copy.new ≡ J.Journal.list copy.old) }
    ensures given { OnOk result (J.Journal.misreads copy.new ≡ 0 → count ≡ length (J.Journal.list copy.old)
        → IsGiven (S.gives source.new) 0 (J.Journal.list copy.old)) }
    ensures stays { (from most : ℕ) (piece : List Record) → S.gives source.old from most piece → S.gives source.new from most piece }
    ensures crash { LeavesOnly J.Journal copy.new (λ left. left ≡ J.Journal.list copy.old) }
{
    let mut at = 0;
    'pieces: while at < count {
        let some = compare_some(source, copy, at)?;
        if some == 0 || some > count - at {
            return Err(CopyFault::Damaged);
        }
        at += some;
    }
    Ok(())
}
