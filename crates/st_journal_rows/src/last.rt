//! The last row of the table.
ghost use Rattle.std.specs.Prelude.{◌≡◌, ◌≤◌, ◌-◌, ℕ, pos, List, length, IfOk, IfErr, OnOk};
ghost use Rattle.sqlite_value.specs.declared.value.Value.TheVariants.{Int};
ghost use Rattle.sqlite_value.specs.Order.{column};
ghost use Rattle.sqlite_trees.specs.Tree.{Trees};
ghost use Rattle.sqlite_trees.specs.View.{doubt, IsClean};
ghost use Rattle.st_journal.specs.declared.record.Record.{Record};
ghost use Rattle.st_journal_rows.specs.Table.{table_tree, numbered_rows};
ghost use Rattle.st_journal_rows.specs.inner.NoOther.{IsNoOther};

use crate::error::OpenError;
use crate::object::TREE;
use sqlite_trees::store::{Direction, Shape, Store};
use sqlite_value::row::Row;
use sqlite_value::value::ValueRef;
use std::alloc::Global;

// The number in a row, if it is one.
fn number_in(row: &Row) -> u64
    ensures { (n : ℕ) → column row.now 0 ≡ Int (pos n) → result ≡ n }
{
    match row.get(0) {
        ValueRef::Int(number) if number > 0 => number as u64,
        _ => 0,
    }
}

// The number of the last row, which is how many changes there are; 0 where there is no row.
pub(crate) fn last_number<S: Store>(store: &mut S, alloc: Global) -> Result<u64, OpenError>
    requires table { IsClean (S.view store.old) → (S.view store.old).shape table_tree ≡ Shape.Table }
    ensures clean { doubt (S.view store.old).is_clean ≤ doubt (S.view store.new).is_clean }
    ensures outcomes { (db : Trees) → S.recovers store.new db → S.recovers store.old db }
    ensures same { OnOk result (IsClean (S.view store.new)
        → S.view store.new ≡ record (S.view store.old) { cursors = (S.view store.new).cursors }) }
    ensures last { IfOk result (λ last. IsClean (S.view store.new) → (records : List Record)
        → (S.view store.old).trees table_tree ≡ numbered_rows 0 records → last ≡ length records - 1) }
    ensures err { IfErr result IsNoOther }
{
    let mut row = Row::new(alloc);
    let key = Row::new(alloc);
    if store.seek(0, TREE, &key, Direction::Backward).is_err() {
        return Err(OpenError::Io);
    }
    match store.next(0, &mut row) {
        Ok(true) => Ok(number_in(&row)),
        Ok(false) => Ok(0),
        Err(_) => Err(OpenError::Io),
    }
}
