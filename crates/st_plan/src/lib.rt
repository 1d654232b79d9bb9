//! Ranges of addresses that hold a query, within a budget.
#![tactic(auto)]

mod box_plan;
mod fault;
pub mod law;
mod level;
mod part_plan;
mod query_plan;
mod range;

pub use box_plan::plan_box;
pub use fault::PlanFault;
pub use part_plan::{PartPlan, Plan};
pub use query_plan::plan;
pub use range::Range;
