//! Two copies of a store, a clerk who changes them, and workers at desks that read them without waiting.
//!
//! Desks, clerks and workers go to other threads by lemmas (`proofs/Crossing.antt`), since the check makes none for the nodes of a
//! tree. Code that lends a clerk to threads cites them in the answers of the goals `requires-send`, as `tests_hall` does.
#![tactic(auto)]

mod clerk;
mod commits;
mod hall;
pub mod law;
mod receipt;
mod synced;
mod worker;

pub use clerk::Clerk;
pub use commits::{Commits, Lost, Outcome, Undecided};
pub use hall::Hall;
pub use receipt::Receipt;
pub use st_hall_desk::{Desk, Scribe};
pub use st_hall_press::{
    Agreeing, AskFault, Consistent, Edition, Front, HallFault, HallName, KeptFront, KeptMark,
    Press, Queued, Unnamed, UnnamedFor,
};
pub use worker::{Gate, Worker};
