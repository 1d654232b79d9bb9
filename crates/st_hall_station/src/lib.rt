//! Serves the requests of connections at a desk of a hall.
#![tactic(auto)]

mod attend;
pub mod law;
mod station;

pub use station::{Station, work};
