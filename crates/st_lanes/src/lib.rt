//! Tests of many points against one box, eight at a time.
#![tactic(auto)]

mod lanes;
pub mod law;

pub use lanes::{in_box, in_box_mask};
