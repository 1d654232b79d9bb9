//! Which entries of a page have rows that are inside a query, as their marks tell.
//!
//! All entries of a page are tested before any is counted, in a loop without branches over numbers of 32 bits, four at once.
//! `has_some` has a clause for its no alone.
ghost use Rattle.std.specs.Prelude.{◌≡◌, ℕ, ◌<◌, IsFalse, false, get_or};
ghost use Rattle.st_box.specs.declared.query.Query.{Query as QueryValue};
ghost use Rattle.st_tally.specs.inner.Marks.{IsTested};
ghost use Rattle.st_tally.specs.inner.Spots.{IsBoxOf};

use crate::page_marks::{MANY, PageMarks};
use crate::spots::SpotBox;

/// For each entry of a page whether its row is inside, by its mark. It is true of those that are to be read, too. All are tested
/// before any is counted, since a processor tests several spots at once then.
pub fn test_marks(marks: &PageMarks, bounds: &SpotBox) -> [bool; 32]
    ensures { (query : QueryValue) (at : ℕ) → IsBoxOf query marks.now.week bounds.now → at < 32
        → IsTested query marks.now at (get_or result at false) }
{
    let mut tested = [false; 32];
    for at in 0..32 {
        tested[at] = bounds.has(&marks.spots[at]) | (marks.numbers[at] >= MANY);
    }
    tested
}

/// Whether any is true.
pub fn has_some(tested: &[bool; 32]) -> bool
    ensures { IsFalse result → (at : ℕ) → get_or tested.now at false ≡ false }
{
    let mut some = false;
    for at in 0..32 {
        some |= tested[at];
    }
    some
}
