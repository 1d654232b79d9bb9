//! Laws of rows, each the contract of a function that does nothing.
ghost use Rattle.std.specs.Prelude.{◌≡◌, ◌<◌, ◌∷◌, Bool, List, filter};
ghost use Rattle.st_key.specs.declared.period.Period.{Period};
ghost use Rattle.st_text.specs.Texts.{in_order};
ghost use Rattle.st_index.specs.declared.row.Row.{Row};
ghost use Rattle.st_index.specs.inner.Index.{Adds};
ghost use Rattle.st_index.specs.Order.{InScanOrder, scan_key};
ghost use Rattle.st_index.specs.inner.Entries.{key_end, rank_of};

use std::alloc::Allocator;

/// Rows in scan order are the list that sorting by scan keys makes of them, and those of them that pass a
/// test are in scan order.
pub fn scan_order<A: Allocator>()
    ensures sorted { (period : Period) (rows : List (Row A)) → InScanOrder period rows → in_order (scan_key period) rows ≡ rows }
    ensures filtered { (period : Period) (test : Row A → Bool) (rows : List (Row A)) → InScanOrder period rows
        → InScanOrder period (filter test rows) }
{}

/// A row that is put into rows in scan order stands where sorting by scan keys puts it.
pub fn added_in_order<A: Allocator>()
    ensures { (period : Period) (row : Row A) (old new : List (Row A)) → Adds row old new → InScanOrder period new
        → new ≡ in_order (scan_key period) (row ∷ old) }
{}

/// The key of each point lies before the period's end.
pub fn rank_below<A: Allocator>()
    ensures { (period : Period) (row : Row A) → rank_of period row < key_end period }
{}
