//! Faults of plans.

use std::alloc::AllocError;
use thiserror::Error;

/// Why a query was not planned.
#[derive(Clone, Copy, PartialEq, Eq, Debug, Error)]
pub enum PlanFault {
    /// The budget is not 1 to 64.
    #[error("the budget is not 1 to 64")]
    BadBudget,
    /// Out of memory.
    #[error("out of memory")]
    NoMemory,
}

impl From<AllocError> for PlanFault {
    ghost use Rattle.std.specs.Prelude.{◌≡◌};
    ghost use Rattle.st_plan.specs.declared.fault.PlanFault.TheVariants.{NoMemory};

    ghost from_gives = { λ _ e. e ≡ NoMemory };

    fn from(_e: AllocError) -> PlanFault {
        PlanFault::NoMemory
    }
}
