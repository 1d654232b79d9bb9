//! The one list of changes of a hall, what of it is kept, two copies of the state after it, and what publishes them.
#![tactic(auto)]

pub mod edition;
mod fault;
pub mod front;
pub mod history;
pub mod kept;
mod name;
mod press;
pub mod queue;
pub mod steps;

pub use edition::{Agreeing, Consistent, Edition, Queued};
pub use fault::{AskFault, HallFault};
pub use front::Front;
pub use kept::{KeptFront, KeptMark};
pub use name::{HallName, Unnamed, UnnamedFor};
pub use press::Press;
