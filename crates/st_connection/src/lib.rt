//! Serves connections, by whatever answers their messages.
#![tactic(auto)]

mod attend;
pub mod connection;
pub mod constant;
mod expecting;
pub mod law;
pub mod replies;
mod sending;
mod server;
pub mod streams;

pub use attend::Attend;
pub use connection::{Ended, IoFault};
pub use server::Server;
pub use streams::{Failed, FromRead, FromWrite, Sink, Source};
