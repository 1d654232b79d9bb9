//! A store whose changes a journal keeps before they are answered, and which is made again from them.
#![tactic(auto)]

mod answer;
mod answerer;
mod beginning;
mod durable;
mod judged;
mod keep;
pub mod law;
mod loss;
mod noted;
mod pending;
mod recorded;
mod replayed;
mod settled;

pub use beginning::{Beginning, Since};
pub use durable::DurableService;
pub use judged::note;
pub use loss::Loss;
pub use pending::Pending;
pub use replayed::ReplayedStore;
