//! Grids of a scan.
ghost use Rattle.std.specs.Prelude.{◌≡◌, ◌↔◌, ◌*◌, ◌<◌, ◌≤◌, ◌⊎◌, length, IsOk, IfOk, IfErr};
ghost use Rattle.std.specs.List.{All};
ghost use Rattle.st_index.specs.inner.Fields.{Counts};
ghost use Rattle.st_scan.specs.declared.fault.ScanFault.TheVariants.{BadGrid, BadLimit};
ghost use Rattle.st_scan.specs.Grids.{field_of, grid_of};
ghost use Rattle.st_scan.specs.Visible.{visible_rows};

use crate::fault::ScanFault;
use crate::few::count_few;
use crate::shares::Shares;
use crate::sight::Sight;
use st_auth::Auths;
use st_box::Query;
use st_index::{Fields, Judge, RowIndex};
use st_key::Point;
use std::alloc::Allocator;

/// The most columns of a grid, and the most lines.
pub const MAX_SHARES: usize = 32;

// The fields of a grid of so many columns and lines over the query's box.
#[derive(Clone, Copy)]
struct GridFields<'q> {
    query: &'q Query,
    columns: Shares,
    lines: Shares,
    ghost x_first: { columns.first ≡ query.now.x0 },
    ghost x_last: { columns.last ≡ query.now.x1 },
    ghost y_first: { lines.first ≡ query.now.y0 },
    ghost y_last: { lines.last ≡ query.now.y1 },
}

impl Fields for GridFields<'_> {
    ghost query = { λ g. g.query.now };

    ghost field_of = { λ g p. field_of g.query.now g.columns.shares g.lines.shares p };

    ghost count = { λ g. g.columns.shares * g.lines.shares };

    fn query(&self) -> &Query {
        self.query
    }

    fn field(&self, point: &Point) -> usize {
        let column = self.columns.of(point.x());
        let line = self.lines.of(point.y());
        (line * self.columns.shares + column) as usize
    }

    fn one_field(&self, x0: u32, x1: u32, y0: u32, y1: u32) -> Option<usize> {
        let column = self.columns.one(x0, x1)?;
        let line = self.lines.one(y0, y1)?;
        Some((line * self.columns.shares + column) as usize)
    }
}

// Adds to the number of each field how many rows of an index are in it, inside the query, and have a label that is found true.
fn count_fields<I: RowIndex, J: Judge<I::Alloc>, F: Fields>(
    index: &I,
    judge: &mut J,
    fields: &F,
    counts: &mut [u64],
)
    requires long { length counts.old ≡ F.count fields.now }
    requires none { All (λ n. n ≡ 0) counts.old }
    ensures { Counts (F.query fields.now) (J.judges judge.old) (F.field_of fields.now) (I.content index.now) counts.old counts.new }
{
    if count_few(index, judge, fields, counts) {
        return;
    }
    counts.fill(0);
    index.count_fields(judge, fields, counts);
}

/// How many rows that are inside the query, and have a label that the authorizations satisfy, are in
/// each field of a grid of so many columns and lines over the query's box, line by line. `BadGrid`
/// where there are not 1 to 32 columns and 1 to 32 lines.
pub fn grid<I: RowIndex, B: Allocator>(
    alloc: I::Alloc,
    index: &I,
    query: &Query,
    auths: &Auths<B>,
    columns: usize,
    lines: usize,
) -> Result<Vec<u64, I::Alloc>, ScanFault>
    ensures grid { IfOk result (λ grid. grid.items
        ≡ grid_of query.now columns lines (visible_rows query.now auths.now (I.content index.now))) }
    ensures columns { IsOk result → (1 ≤ columns) × (columns ≤ 32) }
    ensures lines { IsOk result → (1 ≤ lines) × (lines ≤ 32) }
    ensures bad_grid { IfErr result (λ fault. fault ≡ BadGrid ↔ ((columns ≡ 0) ⊎ (32 < columns) ⊎ (lines ≡ 0) ⊎ (32 < lines))) }
    ensures no_limit { IfErr result (λ fault. fault ≡ BadLimit → ⊥) }
{
    if columns == 0 || columns > MAX_SHARES || lines == 0 || lines > MAX_SHARES {
        return Err(ScanFault::BadGrid);
    }
    let mut sight = Sight::new(alloc, auths);
    let mut counts = vec![in alloc; 0u64; columns * lines]?;
    let fields = GridFields {
        query,
        columns: Shares::new(query.x0(), query.x1(), columns as u32),
        lines: Shares::new(query.y0(), query.y1(), lines as u32),
    };
    count_fields(index, &mut sight, &fields, &mut counts);
    Ok(counts)
}
