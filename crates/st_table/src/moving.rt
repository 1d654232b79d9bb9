//! Moving rows into another index.
ghost use Rattle.std.specs.Prelude.{◌≡◌, true, [], OnOk};
ghost use Rattle.st_key.specs.declared.point.Point.{Point as PointValue};
ghost use Rattle.st_box.specs.Query.{is_inside};
ghost use Rattle.st_text.specs.Texts.{in_order};
ghost use Rattle.st_index.specs.Order.{scan_key};
ghost use Rattle.st_table.specs.inner.Once.{HasEachOnce};

use crate::table::Table;
use st_box::Query;
use st_index::{AsRow, RowIndex};
use st_key::Point;
use st_plan::plan;
use st_scan::Walk;
use std::alloc::AllocError;

// The query that has each point.
fn everywhere() -> Query
    ensures { (point : PointValue) → is_inside result point ≡ true }
{
    let side = Point::SIDE - 1;
    match Query::new(0, side, 0, side, 0, Point::END - 1) {
        Ok(query) => query,
        Err(_) => unreachable!(),
    }
}

// Puts copies of the rows that a walk still gives into a table of no rows.
fn put_all<I: RowIndex>(table: &mut Table<I>, walk: &mut Walk<'_, '_, I>) -> Result<(), AllocError>
    requires empty { table.old.rows ≡ [] }
    requires once { HasEachOnce walk.old.left }
    ensures { OnOk result (table.new ≡ record table.old { rows = in_order (scan_key table.old.period) walk.old.left }) }
{
    'rows: while let Some(row) = walk.next() {
        let copy = I::Row::copy_of(&row)?;
        table.put(copy)?;
    }
    Ok(())
}

// Puts copies of an index's rows into a table of no rows.
pub(crate) fn copy_rows<I: RowIndex>(
    alloc: I::Alloc,
    index: &I,
    table: &mut Table<I>,
) -> Result<(), AllocError>
    requires empty { table.old.rows ≡ [] }
    requires once { HasEachOnce (I.content index.now) }
    ensures { OnOk result (table.new ≡ record table.old { rows = in_order (scan_key table.old.period) (I.content index.now) }) }
{
    let query = everywhere();
    let Ok(ranges) = plan(&alloc, &query, 1, index.period()) else {
        return Err(AllocError);
    };
    let mut walk = Walk::new(index, &query, &ranges);
    put_all(table, &mut walk)
}
