//! The plan that a walk makes for itself.
ghost use Rattle.std.specs.Prelude.{◌≡◌, IfSome, IsTrue};
ghost use Rattle.std.specs.List.{list_any};
ghost use Rattle.st_box.specs.Query.{HasKey};
ghost use Rattle.st_scan.specs.inner.Walks.{IsExactFor};
ghost use Rattle.st_scan.specs.inner.Steps.{IsOwnExact};

use st_box::Query;
use st_key::{Key, Period};
use st_plan::{Plan, Range, plan};
use std::alloc::Allocator;
use std::mem;

// After how many regions a walk makes a plan of its own.
const FEW: u64 = 256;

// The most ranges of each part of a plan.
const BUDGET: u32 = 16;

// The plan that a walk makes for itself, once it goes on so long that this is worth its time.
#[derive(Drop)]
pub(crate) enum OwnPlan<A: Allocator> {
    /// It may be made of memory from here.
    Due(A),
    Made(Plan<A>),
    /// It was given one, or one would not help.
    Never,
}

impl<A: Allocator + Copy> OwnPlan<A> {
    /// Whether the plan has the key in an exact range.
    pub fn is_exact(&self, key: Key) -> bool
        ensures { (period : _) (query : _) → IsOwnExact period query self.now → IsTrue result → HasKey query period key }
    {
        match self {
            OwnPlan::Made(plan) => plan.is_exact(key),
            _ => false,
        }
    }

    /// Makes the plan if it is due, which it is once the walk has opened more than [`FEW`] regions.
    pub fn make_after(&mut self, opened: u64, query: &Query, period: Period)
        requires { IsOwnExact period query.now self.old }
        ensures { IsOwnExact period query.now self.new }
    {
        if opened > FEW && matches!(self, OwnPlan::Due(_)) {
            let own = mem::replace(self, OwnPlan::Never);
            *self = own.made(query, period);
        }
    }

    // The plan, which is made now if it is due.
    fn made(self, query: &Query, period: Period) -> OwnPlan<A>
        requires { IsOwnExact period query.now self }
        ensures { IsOwnExact period query.now result }
    {
        let OwnPlan::Due(alloc) = self else {
            return self;
        };
        match plan_for(alloc, query, period) {
            Some(plan) => OwnPlan::Made(plan),
            None => OwnPlan::Never,
        }
    }
}

// The plan of a query, where it has an exact range and there is memory for it.
fn plan_for<A: Allocator + Copy>(alloc: A, query: &Query, period: Period) -> Option<Plan<A>>
    ensures { IfSome result (λ plan. IsExactFor period query.now plan) }
{
    match plan(alloc, query, BUDGET, period) {
        Ok(plan) if has_exact(&plan) => Some(plan),
        _ => None,
    }
}

// Whether one of the plan's ranges is exact.
fn has_exact<A: Allocator + Copy>(plan: &Plan<A>) -> bool
    ensures { result ≡ list_any (λ part. list_any (λ range. range.exact) part.ranges) plan.now }
{
    plan.parts()
        .iter()
        .any(|part| some_exact(part.ranges.as_slice()))
}

fn some_exact(ranges: &[Range]) -> bool
    ensures { result ≡ list_any (λ range. range.exact) ranges.now }
{
    ranges.iter().any(|range| range.exact)
}
