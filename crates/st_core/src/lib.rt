//! The server's state, and what each request does to it and is told.
#![tactic(auto)]

mod asked;
mod copies;
mod decision;
mod judged;
pub mod law;
mod runs;
mod store;

pub use asked::{Asked, Call, Token};
pub use copies::copy_token;
pub use decision::Decision;
pub use judged::{Judged, JudgedRef, judge};
pub use runs::run;
pub use st_policy::{Denial, Entry, Refusal, Reply, Request};
pub use st_table::Seed;
pub use store::Store;
