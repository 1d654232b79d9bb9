//! Jumps along the addresses of a box and the keys of a query.
#![tactic(auto)]

mod first;
mod jump;
mod run;

pub use first::{first_by, first_from};
pub use jump::{bigmin, litmax};
pub use run::{Run, first_in_cell, last_in_cell, next_run, run_last};
