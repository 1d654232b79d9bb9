//! The journal of a store: the records of its changes, in order, from which its state is computed.
#![tactic(auto)]

mod journal;
mod memory;
mod read_back;
mod record;
mod replay;

pub use journal::{AppendError, Journal};
pub use memory::MemoryJournal;
pub use read_back::{ReadBack, ReadError};
pub use record::Record;
pub use replay::{Replay, ReplayError};
