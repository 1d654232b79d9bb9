//! The command lines of the two programs, and how a program ends: its faults and its exit status.
#![tactic(auto)]

mod common;
mod fault;
mod help;
mod run_arguments;
mod served_arguments;
mod served_options;

/// The version of the programs.
pub const VERSION: &str = "0.1.0";

pub use common::words_of;
pub use fault::{Fault, give_up};
pub use help::refuse;
pub use run_arguments::RunArguments;
pub use served_arguments::{BindAddress, ServedArguments};
