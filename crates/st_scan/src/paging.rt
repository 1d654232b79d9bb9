//! Pages of a scan.
ghost use Rattle.std.specs.Prelude.{◌≡◌, ◌↔◌, ◌<◌, ◌≤◌, ◌⊎◌, filter, length, map, nat_lt, option_copied, take, IsOk, IfOk, IfErr};
ghost use Rattle.st_index.specs.RowViews.{row_of_view};
ghost use Rattle.st_scan.specs.declared.fault.ScanFault.TheVariants.{BadGrid, BadLimit, NoMemory};
ghost use Rattle.st_scan.specs.inner.Pages.{visible_after};
ghost use Rattle.st_scan.specs.inner.Starts.{is_shown};

use crate::after::{is_past, start_of};
use crate::fault::ScanFault;
use crate::pages::Page;
use crate::verdicts::verdicts_for;
use crate::walk::Walk;
use st_auth::{Auths, SetVerdicts};
use st_box::Query;
use st_index::RowIndex;
use st_key::{Period, Place};
use std::alloc::Allocator;

/// The most rows of a page.
pub const MAX_ROWS: usize = 1000;

// The first rows that a walk still gives, of those that are visible and come after a place.
fn fill<'a, I: RowIndex, B: Allocator, C: Allocator + Copy>(
    alloc: I::Alloc,
    walk: &mut Walk<'a, '_, I>,
    verdicts: &mut SetVerdicts<'_, I::Alloc, B>,
    period: Period,
    after: Option<&Place<C>>,
    limit: usize,
) -> Result<Page<'a, I::Alloc>, ScanFault>
    ensures rows { IfOk result (λ page. map row_of_view page.rows.items
        ≡ take limit (filter (is_shown period (option_copied after.entry) verdicts.old) walk.old.left)) }
    ensures more { IfOk result (λ page. page.more
        ≡ nat_lt limit (length (filter (is_shown period (option_copied after.entry) verdicts.old) walk.old.left))) }
    ensures no_memory { IfErr result (λ fault. fault ≡ NoMemory) }
{
    let mut rows = Vec::new(alloc);
    'rows: while let Some(row) = walk.next() {
        if is_past(after, row, period) && verdicts.ask(row.label()) {
            if rows.len() == limit {
                return Ok(Page { rows, more: true });
            }
            rows.push(row)?;
        }
    }
    Ok(Page { rows, more: false })
}

/// The first rows, at most `limit` of them, that are inside the query, have a label that the
/// authorizations satisfy, and come after a place, if one is given; and whether more follow. The place
/// need name no row. `BadLimit` where the limit is not 1 to 1,000.
pub fn page<'a, I: RowIndex, B: Allocator, C: Allocator + Copy>(
    alloc: I::Alloc,
    index: &'a I,
    query: &Query,
    auths: &Auths<B>,
    after: Option<&Place<C>>,
    limit: usize,
) -> Result<Page<'a, I::Alloc>, ScanFault>
    ensures rows { IfOk result (λ page. map row_of_view page.rows.items
        ≡ take limit (visible_after (I.period_of index.now) query.now auths.now (option_copied after.entry) (I.content index.now))) }
    ensures more { IfOk result (λ page. page.more ≡ nat_lt limit (length
        (visible_after (I.period_of index.now) query.now auths.now (option_copied after.entry) (I.content index.now)))) }
    ensures limit { IsOk result → (1 ≤ limit) × (limit ≤ 1000) }
    ensures bad_limit { IfErr result (λ fault. fault ≡ BadLimit ↔ ((limit ≡ 0) ⊎ (1000 < limit))) }
    ensures no_grid { IfErr result (λ fault. fault ≡ BadGrid → ⊥) }
{
    if limit == 0 || limit > MAX_ROWS {
        return Err(ScanFault::BadLimit);
    }
    let period = index.period();
    let mut verdicts = verdicts_for(alloc, auths);
    let mut walk = Walk::with_own_plan(alloc, index, query, start_of(after, period));
    fill(alloc, &mut walk, &mut verdicts, period, after, limit)
}
