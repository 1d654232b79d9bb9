//! Workers that answer the connections of a listener, each on a thread of its own, by whatever serves a connection.
#![tactic(auto)]

mod attending;
mod door;
mod listening;
mod workers;
mod working;

pub use attending::{Attended, attend};
pub use door::PROGRAM;
pub use listening::{Binds, begin, tell};
pub use working::Worked;
