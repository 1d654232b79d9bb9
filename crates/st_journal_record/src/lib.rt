//! The record of a change, made of a request and read back to it.
#![tactic(auto)]

pub mod law;
mod names;
mod read;
mod write;

pub use read::request_in;
pub use write::{RequestParts, record_of};
