//! What a copy lacks of a list.
ghost use Rattle.std.specs.Prelude.{◌≡◌, ◌≤◌, ◌⊎◌, ◌++◌, ℕ, [], false, List, IfOk, OnOk, length};
ghost use Rattle.st_journal.specs.declared.record.Record.{Record};
ghost use Rattle.st_journal.specs.Leaving.{LeavesOnly};
ghost use Rattle.st_journal_copy.specs.Following.{GoesOn, IsAtEnd, IsGiven};

use crate::comparing::compare;
use crate::fault::CopyFault;
use crate::source::RecordSource;
use st_journal::{Journal, ReadBack};

// How many records are read and appended at a time.
pub(crate) const CHUNK: usize = 1024;

/// Whether a list has more than so many records.
pub fn has_more<S: RecordSource>(source: &mut S, count: u64) -> Result<bool, CopyFault>
    ensures none { IfOk result (λ has_more. has_more ≡ false → S.gives source.new count 1 []) }
    ensures stays { (from most : ℕ) (piece : List Record) → S.gives source.old from most piece → S.gives source.new from most piece }
{
    match source.read(count, 1) {
        Ok(records) => Ok(!records.is_empty()),
        Err(error) => Err(CopyFault::of_list(error)),
    }
}

// Appends the next records of the list to a copy that has so many, by one append: how many there were.
fn append_some<S: RecordSource, J: Journal>(
    source: &mut S,
    copy: &mut J,
    count: u64,
) -> Result<u64, CopyFault>
    requires ready { J.is_ready copy.old }
    ensures ready { OnOk result (J.is_ready copy.new) }
    ensures misreads { J.misreads copy.old ≤ J.misreads copy.new }
    ensures appended { IfOk result (λ some. (piece : List Record) × (length piece ≡ some) × S.gives source.new count CHUNK piece
        × (J.misreads copy.new ≡ 0 → J.list copy.new ≡ J.list copy.old ++ piece)) }
    ensures stays { (from most : ℕ) (piece : List Record) → S.gives source.old from most piece → S.gives source.new from most piece }
    ensures crash { LeavesOnly J.Journal copy.new (λ left. (left ≡ J.list copy.old) ⊎ ((piece : List Record)
        × S.gives source.new count CHUNK piece × (left ≡ J.list copy.old ++ piece))) }
{
    let records = match source.read(count, CHUNK) {
        Ok(records) => records,
        Err(error) => return Err(CopyFault::of_list(error)),
    };
    if records.is_empty() {
        return Ok(0);
    }
    match copy.append(&records) {
        Ok(()) => Ok(records.len() as u64),
        Err(_) => Err(CopyFault::Io),
    }
}

// Appends what the list has beyond the copy, which has so many records: how many it has then.
fn follow<S: RecordSource, J: Journal>(
    source: &mut S,
    copy: &mut J,
    count: u64,
) -> Result<u64, CopyFault>
    requires ready { J.is_ready copy.old }
    ensures misreads { J.misreads copy.old ≤ J.misreads copy.new }
    ensures goes_on { IfOk result (λ now. J.misreads copy.new ≡ 0 → count ≡ length (J.list copy.old)
        → GoesOn (S.gives source.new) (J.list copy.old) (J.list copy.new) × (now ≡ length (J.list copy.new))) }
    ensures at_end { IfOk result (IsAtEnd (S.gives source.new)) }
    ensures stays { (from most : ℕ) (piece : List Record) → S.gives source.old from most piece → S.gives source.new from most piece }
    ensures crash { count ≡ length (J.list copy.old)
        → LeavesOnly J.Journal copy.new (GoesOn (S.gives source.new) (J.list copy.old)) }
{
    let mut now = count;
    'pieces: for _ in 0..u64::MAX {
        let some = append_some(source, copy, now)?;
        let Some(sum) = now.checked_add(some) else {
            return Err(CopyFault::Io);
        };
        now = sum;
        if some < CHUNK as u64 {
            return Ok(now);
        }
    }
    Err(CopyFault::Io)
}

/// Brings a copy, which has so many records, up to the list: how many it has then. Unless the copy is known to be a beginning of the
/// list, it is compared with it first, and left as it is where it is not. Whatever the copy's journal leaves if the process ends
/// meanwhile goes on what it had.
pub fn bring_up<S: RecordSource, J: ReadBack>(
    source: &mut S,
    copy: &mut J,
    count: u64,
    is_known: bool,
) -> Result<u64, CopyFault>
    requires ready { J.Journal.is_ready copy.old }
    ensures misreads { J.Journal.misreads copy.old ≤ J.Journal.misreads copy.new }
    ensures goes_on { let j = J.Journal in IfOk result (λ n. j.misreads copy.new ≡ 0 → count ≡ length (j.list copy.old)
        → GoesOn (S.gives source.new) (j.list copy.old) (j.list copy.new) × (n ≡ length (j.list copy.new))) }
    ensures whole { OnOk result (is_known ≡ false → J.Journal.misreads copy.new ≡ 0 → count ≡ length (J.Journal.list copy.old)
        → IsGiven (S.gives source.new) 0 (J.Journal.list copy.new)) }
    ensures at_end { IfOk result (IsAtEnd (S.gives source.new)) }
    ensures crash { count ≡ length (J.Journal.list copy.old)
        → LeavesOnly J.Journal copy.new (GoesOn (S.gives source.new) (J.Journal.list copy.old)) }
    ensures foreign { is_known ≡ false → count ≡ length (J.Journal.list copy.old)
        → LeavesOnly J.Journal copy.new (λ left. (left ≡ J.Journal.list copy.old) ⊎ IsGiven (S.gives source.new) 0 left) }
{
    if is_known {
        return follow(source, copy, count);
    }
    compare(source, copy, count)?;
    follow(source, copy, count)
}
