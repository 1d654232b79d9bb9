//! What reads show of a table.
ghost use Rattle.std.specs.Prelude.{◌≡◌, true, Bool, filter, length, map, IfOk};
ghost use Rattle.st_text.specs.Texts.{Text, in_order};
ghost use Rattle.st_dir.specs.Directory.{is_table, period_of};
ghost use Rattle.st_index.specs.Order.{scan_key};
ghost use Rattle.st_index.specs.RowViews.{row_of_view};
ghost use Rattle.st_index.specs.declared.row.Row.{Row as Labelled};
ghost use Rattle.st_table.specs.Rows.{rows_in_table};
ghost use Rattle.st_table.specs.Table.{rows_by_label};
ghost use Rattle.st_plan.specs.PlanOf.{plan_of};
ghost use Rattle.st_scan.specs.Grids.{grid_of};
ghost use Rattle.st_scan.specs.Pages.{is_past};
ghost use Rattle.st_core.specs.Reads.{page_of, rows_with_id, rows_inside};

use crate::store::Store;
use st_auth::Auths;
use st_box::Query;
use st_dir::TableName;
use st_index::{Row, RowView};
use st_key::Place;
use st_plan::{Plan, PlanFault};
use st_policy::{Budget, Limit, Reply, Side};
use st_scan::ScanFault;
use st_table::Table;
use st_text::Items;
use st_ubtree::UbTree;
use std::alloc::{AllocError, Allocator};

// Copies of rows.
fn copy_rows<A: Allocator + Copy>(
    alloc: A,
    rows: &[RowView<'_, A>],
) -> Result<Items<Row<A>, A>, AllocError>
    ensures { IfOk result (λ copies. copies ≡ map row_of_view rows.now) }
{
    let mut copies = Items::new(alloc);
    for row in rows {
        copies.push(row.copy()?)?;
    }
    Ok(copies)
}

impl<A: Allocator + Copy> Store<A> {
    // A table: what is read of it in scan order, and of an id by its labels, is what is read of the store's rows.
    fn table(&self, table: &TableName) -> &Table<UbTree<A>>
        requires { is_table self.now.directory table.now ≡ true }
        ensures period { result.now.period ≡ period_of self.now.directory table.now }
        ensures scans { (test : Labelled A → Bool)
            → in_order (scan_key result.now.period) (filter test (rows_in_table table.now self.now.rows)) ≡ filter test result.now.rows }
        ensures gets { (id : Text) (test : Labelled A → Bool)
            → rows_by_label id test (rows_in_table table.now self.now.rows) ≡ rows_by_label id test result.now.rows }
    {
        self.tables.table(table.as_str())
    }

    // How many rows of a table are inside the query and seen with the authorizations.
    pub(crate) fn count(&self, table: &TableName, query: &Query, auths: &Auths<A>) -> u64
        requires { is_table self.now.directory table.now ≡ true }
        ensures { result ≡ length (rows_inside self.now table.now query.now auths.now) }
    {
        self.table(table).count(query, auths)
    }

    // The rows of a table under an id that are seen with the authorizations, by the bytes of their labels.
    pub(crate) fn get(
        &self,
        table: &TableName,
        id: &str,
        auths: &Auths<A>,
    ) -> Result<Items<Row<A>, A>, AllocError>
        requires { is_table self.now.directory table.now ≡ true }
        ensures { IfOk result (λ rows. rows ≡ rows_with_id self.now table.now id.now auths.now) }
    {
        let rows = self.table(table).get(id, auths)?;
        copy_rows(self.alloc, &rows)
    }

    // A page of the rows of a table that are inside the query, seen with the authorizations and after the place, if one is given.
    pub(crate) fn page(
        &self,
        table: &TableName,
        query: &Query,
        auths: &Auths<A>,
        limit: Limit,
        after: &Option<Place<A>>,
    ) -> Result<Reply<A>, AllocError>
        requires { is_table self.now.directory table.now ≡ true }
        ensures { IfOk result (λ reply. reply ≡ page_of limit
            (filter (is_past (period_of self.now.directory table.now) after.now) (rows_inside self.now table.now query.now auths.now))) }
    {
        let page = match self
            .table(table)
            .page(query, auths, after.as_ref(), limit.get())
        {
            Ok(page) => page,
            Err(ScanFault::NoMemory) => return Err(AllocError),
            Err(_) => unreachable!(),
        };
        Ok(Reply::Page {
            rows: copy_rows(self.alloc, &page.rows)?,
            more: page.more,
        })
    }

    // How many rows of a table, inside the query and seen with the authorizations, are in each field of a grid over the query's box.
    pub(crate) fn grid(
        &self,
        table: &TableName,
        query: &Query,
        auths: &Auths<A>,
        columns: Side,
        lines: Side,
    ) -> Result<Items<u64, A>, AllocError>
        requires { is_table self.now.directory table.now ≡ true }
        ensures { IfOk result (λ grid. grid ≡ grid_of query.now columns lines (rows_inside self.now table.now query.now auths.now)) }
    {
        match self
            .table(table)
            .grid(query, auths, columns.get(), lines.get())
        {
            Ok(grid) => Ok(Items::from_vec(grid)),
            Err(ScanFault::NoMemory) => Err(AllocError),
            Err(_) => unreachable!(),
        }
    }

    // The plan of a query by the keys of a table.
    pub(crate) fn plan(
        &self,
        table: &TableName,
        query: &Query,
        budget: Budget,
    ) -> Result<Plan<A>, AllocError>
        requires { is_table self.now.directory table.now ≡ true }
        ensures { IfOk result (λ plan. plan ≡ plan_of (period_of self.now.directory table.now) query.now budget) }
    {
        let period = self.table(table).period();
        match st_plan::plan(self.alloc, query, budget.get() as u32, period) {
            Ok(plan) => Ok(plan),
            Err(PlanFault::NoMemory) => Err(AllocError),
            Err(PlanFault::BadBudget) => unreachable!(),
        }
    }
}
