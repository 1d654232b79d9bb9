//! Rows of one table: an index of them, and for each hash of names and each key how many rows stand there.
#![tactic(auto)]

pub mod law;
mod lookup;
mod moving;
mod own_name;
mod places;
mod seed;
mod table;

pub use seed::Seed;
pub use table::Table;
