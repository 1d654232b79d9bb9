//! Replies as JSON (RFC 8259).
#![tactic(auto)]

pub mod law;
mod listing;
mod member;
mod ranges;
mod refusal;
mod reply;
mod rows;
mod written;

pub use refusal::status;
pub use reply::{encode, encode_into};
