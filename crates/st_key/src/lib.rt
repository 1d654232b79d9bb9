//! Points of space and time, and their keys in scan order.
#![tactic(auto)]

mod key;
pub mod law;
mod morton;
mod period;
mod place;
mod point;

pub use key::{Key, comes_before};
pub use morton::{gather, interleave, spread, spread_in};
pub use period::Period;
pub use place::Place;
pub use point::{OutOfRange, Point};
