//! The records of a journal as rows of one table of a store: written, read back, and applied to a state.
#![tactic(auto)]

mod back;
mod commit;
mod error;
mod last;
mod object;
mod opening;
mod other;
mod progress;
mod read;
mod replace;
mod write;

pub use back::read_back;
pub use error::OpenError;
pub use object::{MOST, is_table, table};
pub use opening::begin;
pub use progress::{Progress, Silent};
pub use replace::put_behind;
