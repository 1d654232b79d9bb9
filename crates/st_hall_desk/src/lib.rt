//! Desks, which read a hall's published copy, and the scribe, who decides its changes.
#![tactic(auto)]

mod desk;
pub mod law;
mod scribe;

pub use desk::{Desk, EditionReader};
pub use scribe::{Decided, Scribe};
