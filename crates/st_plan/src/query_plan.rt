//! The plan of a query.
ghost use Rattle.std.specs.Prelude.{◌≡◌, ◌↔◌, ◌⊎◌, ◌<◌, ◌≤◌, IsOk, IfOk, IfErr, IsTrue, List, length};
ghost use Rattle.std.specs.List.{AllByRecursion};
ghost use Rattle.st_key.specs.declared.key.Key.{Key};
ghost use Rattle.st_box.specs.Query.{HasKey};
ghost use Rattle.st_plan.specs.declared.fault.PlanFault.TheVariants.{BadBudget};
ghost use Rattle.st_plan.specs.declared.part_plan.PartPlan.{PartPlan};
ghost use Rattle.st_plan.specs.PlanOf.{plan_of};
ghost use Rattle.st_plan.specs.inner.Covers.{Rise};
ghost use Rattle.st_plan.specs.QueryPlan.{IsPartPlan, IsQueryPlan, is_exact};
ghost use Rattle.st_plan.specs.inner.Covers.{HoldKey};
ghost use Rattle.st_plan.specs.inner.Levels.{PartPlans};

use crate::box_plan::plan_box;
use crate::fault::PlanFault;
use crate::part_plan::{PartPlan, Plan};
use st_box::{Part, Query};
use st_key::Period;
use st_text::Items;
use std::alloc::{AllocError, Allocator};

// The plan of one part.
fn plan_part<A: Allocator + Copy>(
    alloc: A,
    part: &Part,
    budget: u32,
) -> Result<PartPlan<A>, AllocError>
    requires { 0 < budget }
    ensures { IfOk result (IsPartPlan budget part.now) }
{
    let ranges = plan_box(alloc, &part.zbox, budget)?;
    Ok(PartPlan {
        bin_lo: part.bin_lo,
        bin_hi: part.bin_hi,
        ranges: Items::from_vec(ranges),
    })
}

// The plan of each part.
fn plan_parts<A: Allocator + Copy>(
    alloc: A,
    parts: &[Part],
    budget: u32,
) -> Result<Items<PartPlan<A>, A>, AllocError>
    requires { 0 < budget }
    ensures { IfOk result (PartPlans budget parts.now) }
{
    let mut plans = Items::new(alloc);
    for part in parts {
        plans.push(plan_part(alloc, part, budget)?)?;
    }
    Ok(plans)
}

/// The plan of a query: for each part of its span the ranges of addresses that hold the part's keys,
/// at most `budget` of them. The ranges are those of the runs of the part's box, its bounds divided
/// by the least power of 2 that leaves no more runs than the budget, each cut down to the box's
/// addresses in it. `BadBudget` unless the budget is 1 to 64.
pub fn plan<A: Allocator + Copy>(
    alloc: A,
    query: &Query,
    budget: u32,
    period: Period,
) -> Result<Plan<A>, PlanFault>
    ensures value { IfOk result (λ p. p ≡ plan_of period query.now budget) }
    ensures plan { IfOk result (IsQueryPlan period query.now budget) }
    ensures only { IfOk result (λ p. (xs : List (PartPlan A)) → IsQueryPlan period query.now budget xs → xs ≡ p) }
    ensures rising { IfOk result (AllByRecursion (λ part. Rise 0 part.ranges)) }
    ensures in_budget { IfOk result (AllByRecursion (λ part. length part.ranges ≤ budget)) }
    ensures whole { IfOk result (λ p. (k : Key) → HasKey query.now period k → HoldKey p k) }
    ensures exact { IfOk result (λ p. (k : Key) → IsTrue (is_exact p k) → HasKey query.now period k) }
    ensures budget { IsOk result → (1 ≤ budget) × (budget ≤ 64) }
    ensures bad_budget { IfErr result (λ fault. fault ≡ BadBudget ↔ ((budget ≡ 0) ⊎ (64 < budget))) }
{
    if budget == 0 || budget > 64 {
        return Err(PlanFault::BadBudget);
    }
    let parts = query.parts(period);
    let parts = plan_parts(alloc, parts.as_slice(), budget)?;
    Ok(Plan { parts })
}
