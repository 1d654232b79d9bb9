//! A shorter list of records that stands for the same state.
#![tactic(auto)]

mod decided;
mod judged_record;
pub mod law;
mod short_list;
mod sieve;
mod watched;

pub use judged_record::JudgedRecord;
pub use short_list::shorten;
pub use watched::WatchedStore;
