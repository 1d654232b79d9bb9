//! The plan of one box.
ghost use Rattle.std.specs.Prelude.{◌≡◌, ℕ, ◌<◌, ◌≤◌, IfOk, IsTrue, List, length};
ghost use Rattle.std.specs.List.{list_any};
ghost use Rattle.st_box.specs.ZBox.{IsInside};
ghost use Rattle.st_plan.specs.Coarse.{InCoarse};
ghost use Rattle.st_plan.specs.Plan.{IsRangeOf, IsPlanOf};
ghost use Rattle.st_plan.specs.inner.Covers.{Rise, Hold};
ghost use Rattle.st_plan.specs.Range.{is_exact_in};
ghost use Rattle.st_plan.specs.inner.Levels.{AreRangesAt};
ghost use Rattle.st_plan.specs.declared.range.Range.{Range};

use crate::level::{coarse, level_within};
use crate::range::Range;
use st_bigmin::{Run, first_in_cell, last_in_cell, next_run, run_last};
use st_box::ZBox;
use std::alloc::{AllocError, Allocator};

// What a run of the coarse box of a level covers of the box.
fn range_of(zbox: &ZBox, level: u32, run: Run) -> Range
    requires level_in_range { level ≤ 21 }
    requires first { InCoarse zbox.now level run.first }
    requires last { InCoarse zbox.now level run.last }
    ensures { IsRangeOf zbox.now level run result }
{
    let lo = first_in_cell(run.first, 3 * level, zbox);
    let hi = last_in_cell(run.last, 3 * level, zbox);
    let exact = hi <= run_last(lo, zbox);
    Range { lo, hi, exact }
}

// The ranges of the runs of a level.
fn ranges_at<A: Allocator + Copy>(
    alloc: A,
    zbox: &ZBox,
    level: u32,
) -> Result<Vec<Range, A>, AllocError>
    requires { level ≤ 21 }
    ensures { IfOk result (λ v. AreRangesAt zbox.now level v.items) }
{
    let whole = coarse(zbox, level);
    let mut ranges = Vec::new(alloc);
    let mut from = 0;
    while let Some(run) = next_run(from, &whole) {
        ranges.push(range_of(zbox, level, run))?;
        from = run.last + 1;
    }
    Ok(ranges)
}

/// The ranges of a box: those of the least level that has no more runs than the budget.
pub fn plan_box<A: Allocator + Copy>(
    alloc: A,
    zbox: &ZBox,
    budget: u32,
) -> Result<Vec<Range, A>, AllocError>
    requires { 0 < budget }
    ensures plan { IfOk result (λ v. IsPlanOf zbox.now budget v.items) }
    ensures only { IfOk result (λ v. (xs : List Range) → IsPlanOf zbox.now budget xs → xs ≡ v.items) }
    ensures rising { IfOk result (λ v. Rise 0 v.items) }
    ensures in_budget { IfOk result (λ v. length v.items ≤ budget) }
    ensures whole { IfOk result (λ v. (a : ℕ) → IsInside zbox.now a → Hold v.items a) }
    ensures exact { IfOk result (λ v. (a : ℕ) → IsTrue (list_any (is_exact_in a) v.items) → IsInside zbox.now a) }
{
    let level = level_within(zbox, budget);
    let ranges = ranges_at(alloc, zbox, level)?;
    Ok(ranges)
}
