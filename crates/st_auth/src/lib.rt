//! Sets of authorizations, and whether a label is true for one.
#![tactic(auto)]

mod auths;
mod cache;
mod long_labels;
mod long_text;
mod order;
mod set_verdicts;
mod short_labels;
mod truth;
mod verdicts;

pub use auths::{Auths, AuthsFault, MAX_NAME};
pub use set_verdicts::SetVerdicts;
pub use truth::satisfies;
pub use verdicts::Verdicts;
