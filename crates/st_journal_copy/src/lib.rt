//! A copy of a journal's list, which follows it.
#![tactic(auto)]

mod comparing;
mod counting;
mod fault;
mod follow;
pub mod law;
mod source;

pub use comparing::compare;
pub use counting::Counting;
pub use fault::CopyFault;
pub use follow::{bring_up, has_more};
pub use source::{Copier, RecordSource};
