//! Opens the stores that a command line names, and serves one connection from such a store.
#![tactic(auto)]

mod keeper;
mod kept;
pub mod law;
mod opening;
mod run;

pub use keeper::Keeper;
pub use opening::{store_and_opening_for, stores_for};
pub use run::run_with;
