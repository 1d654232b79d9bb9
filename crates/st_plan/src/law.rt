//! Laws of plans, each the contract of a function that does nothing.
ghost use Rattle.std.specs.Prelude.{◌≡◌, ◌<◌, ◌↔◌, ℕ, List};
ghost use Rattle.st_key.specs.declared.period.Period.{Period};
ghost use Rattle.st_box.specs.declared.query.Query.{Query};
ghost use Rattle.st_plan.specs.declared.part_plan.PartPlan.{PartPlan};
ghost use Rattle.st_plan.specs.PlanOf.{plan_of};
ghost use Rattle.st_plan.specs.QueryPlan.{IsQueryPlan};

use std::alloc::Allocator;

/// A query has one plan at a budget of 1 or more, and `plan_of` is it.
pub fn one_plan<A: Allocator>()
    ensures { (period : Period) (query : Query) (budget : ℕ) (plan : List (PartPlan A)) → 0 < budget
        → IsQueryPlan period query budget plan ↔ (plan ≡ plan_of period query budget) }
{}
