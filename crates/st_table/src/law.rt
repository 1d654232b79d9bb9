//! Laws that join the rows of the tables into one list, by their full names.
ghost use Rattle.std.specs.Prelude.{◌≡◌, ◌++◌, ◌∷◌, List, Bool, filter};
ghost use Rattle.st_text.specs.Texts.{Text, in_order};
ghost use Rattle.st_index.specs.declared.row.Row.{Row};
ghost use Rattle.st_index.specs.Order.{InScanOrder, scan_key};
ghost use Rattle.st_key.specs.declared.period.Period.{Period};
ghost use Rattle.st_table.specs.Rows.{Held, full_name, put_row, rows_in_table, without_row, without_table};
ghost use Rattle.st_table.specs.Table.{rows_by_label, with_row, without_named};
ghost use Rattle.st_table.specs.inner.Once.{HasEachOnce};
ghost use Rattle.st_table.specs.inner.Joined.{HoldsNone, IsApart, Rest, TableInAll, held_in, joined, rows_by_key, without_held};

use std::alloc::Allocator;

/// A test of rows commutes with sorting them.
pub fn filters_commute<A: Allocator>()
    ensures { (test : Held A → Bool) (rows : List (Held A))
        → filter test (in_order full_name rows) ≡ in_order full_name (filter test rows) }
{}

/// However the rows are listed, putting one among those of other names is the put of the sorted.
pub fn put_anywhere<A: Allocator>()
    ensures { (held : Held A) (rows front back : List (Held A)) → front ++ back ≡ without_held held rows
        → in_order full_name (front ++ held ∷ back) ≡ put_row held (in_order full_name rows) }
{}

/// What passes a test of a table's rows, sorted as they are scanned, is what passes of its content.
pub fn reads_are_scans<A: Allocator>()
    ensures { (period : Period) (test : Row A → Bool) (t : TableInAll A) → InScanOrder period t.rows
        → rows_by_key period test (rows_in_table t.table (in_order full_name t.all)) ≡ filter test t.rows }
{}

/// The rows of an id that pass a test, by their labels, are the same of the rows of all tables as of the table's content.
pub fn reads_are_gets<A: Allocator>()
    ensures { (id : Text) (test : Row A → Bool) (t : TableInAll A) → HasEachOnce t.rows
        → rows_by_label id test (rows_in_table t.table (in_order full_name t.all)) ≡ rows_by_label id test t.rows }
{}

/// A put into one table's content is the put into the rows of all tables.
pub fn table_put<A: Allocator>()
    ensures { (rest : Rest A) (period : Period) (row : Row A) (rows : List (Row A)) → IsApart rest → InScanOrder period rows
        → joined rest (with_row period row rows) ≡ put_row (held_in rest row) (joined rest rows) }
{}

/// A delete from one table's content is the delete from the rows of all tables.
pub fn table_delete<A: Allocator>()
    ensures { (rest : Rest A) (id label : Text) (rows : List (Row A)) → IsApart rest
        → joined rest (without_named id label rows) ≡ without_row rest.table id label (joined rest rows) }
{}

/// The rows of all tables but one are those of all tables without that one's.
pub fn table_drop<A: Allocator>()
    ensures { (rest : Rest A) (rows : List (Row A)) → IsApart rest
        → in_order full_name (rest.front ++ rest.back) ≡ without_table rest.table (joined rest rows) }
{}

/// The rows of all tables are the same where one table's are sorted by another period.
pub fn table_rebuild<A: Allocator>()
    ensures { (rest : Rest A) (period : Period) (rows : List (Row A)) → HasEachOnce rows → HoldsNone rest.table rest.front
        → joined rest (in_order (scan_key period) rows) ≡ joined rest rows }
{}
