//! Group commit: a hall whose changes a journal keeps, a batch at a time, before they are published and answered.
#![tactic(auto)]

mod board;
mod draft;
mod fault;
mod hall;
mod keeping;
pub mod law;
mod publisher;
mod reading;

pub use draft::{Batch, Draft};
pub use fault::ChangeError;
pub use hall::DurableHall;
pub use publisher::Publisher;
pub use reading::Reading;
