//! What a copy is that follows a list.
ghost use Rattle.std.specs.Prelude.{◌≤◌, ℕ, List, length};
ghost use mathlib.Core.List.{IsPrefix};
ghost use Rattle.st_journal.specs.declared.record.Record.{Record};
ghost use Rattle.st_journal_copy.specs.Following.{AreWholeIn, IsAtEnd, IsGiven, StandIn};

use crate::source::RecordSource;

/// If a list has all that was read at the places where it was read, the copy is a prefix of it: no record is doubled, missing or
/// out of place. A list that only grows is such a list from the last reading on.
pub fn begins<S: RecordSource>()
    ensures { (source : S) (list records : List Record) → StandIn (S.gives source) list → IsGiven (S.gives source) 0 records
        → IsPrefix records list }
{}

/// A copy with as many records as were there at the end of a list that nobody made longer has the whole list.
pub fn ends<S: RecordSource>()
    ensures { (source : S) (list : List Record) (count : ℕ) → AreWholeIn (S.gives source) list → IsAtEnd (S.gives source) count
        → length list ≤ count }
{}
