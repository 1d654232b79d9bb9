//! How many rows of entries are inside a query and have a label that is found true.
ghost use Rattle.std.specs.Prelude.{◌≡◌, ◌<◌, ◌^◌, [], ◌∷◌, length};
ghost use Rattle.st_index.specs.inner.Counting.{count_of};
ghost use Rattle.st_index.specs.RowViews.{row_of_view};
ghost use Rattle.st_index.specs.inner.Views.{viewed};
ghost use Rattle.st_index.specs.inner.Entries.{rows_of};

use crate::entry::Entry;
use crate::judge::Judge;
use crate::row::Row;
use crate::row_view::RowView;
use crate::rows_view::RowsView;
use st_box::Query;
use std::alloc::Allocator;

// 1 where the row is counted, else 0.
fn count_row<A: Allocator + Copy, J: Judge<A>>(
    row: RowView<'_, A>,
    query: &Query,
    judge: &mut J,
) -> u64
    ensures count { result ≡ count_of query.now (J.judges judge.old) (row_of_view row.entry ∷ []) }
    ensures same { J.judges judge.new ≡ J.judges judge.old }
{
    if query.has(&row.point()) && judge.finds_true(row.label()) {
        1
    } else {
        0
    }
}

// How many of the rows are counted.
fn count_rows<A: Allocator + Copy, J: Judge<A>>(
    rows: &[Row<A>],
    query: &Query,
    judge: &mut J,
) -> u64
    ensures count { result ≡ count_of query.now (J.judges judge.old) rows.now }
    ensures same { J.judges judge.new ≡ J.judges judge.old }
{
    let mut count = 0;
    for row in rows {
        count += count_row(RowView::of(row), query, judge);
    }
    count
}

// How many of the rows in view are counted.
fn count_view<A: Allocator + Copy, J: Judge<A>>(
    rows: RowsView<'_, A>,
    query: &Query,
    judge: &mut J,
) -> u64
    ensures count { result ≡ count_of query.now (J.judges judge.old) (viewed rows.entry) }
    ensures same { J.judges judge.new ≡ J.judges judge.old }
{
    match rows {
        RowsView::One(row) => count_row(row, query, judge),
        RowsView::Many(rows) => count_rows(rows, query, judge),
    }
}

// How many rows of the entry are counted.
fn count_entry<A: Allocator + Copy, J: Judge<A>>(
    entry: &Entry<A>,
    query: &Query,
    judge: &mut J,
) -> u64
    ensures count { result ≡ count_of query.now (J.judges judge.old) entry.now.rows }
    ensures same { J.judges judge.new ≡ J.judges judge.old }
{
    count_view(entry.rows(), query, judge)
}

/// How many rows of the entries are inside the query and have a label that is found true.
pub fn count<A: Allocator + Copy, J: Judge<A>>(
    entries: &[Entry<A>],
    query: &Query,
    judge: &mut J,
) -> u64
    requires { length (rows_of entries.now) < 2 ^ 64 }
    ensures count { result ≡ count_of query.now (J.judges judge.old) (rows_of entries.now) }
    ensures same { J.judges judge.new ≡ J.judges judge.old }
{
    let mut count = 0;
    for entry in entries {
        count += count_entry(entry, query, judge);
    }
    count
}
