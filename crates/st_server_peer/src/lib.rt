//! The client at the other end of a connection, by TCP or by a Unix socket: how it is accepted, how its requests are answered, how long
//! it may take, and how the server parts from it.
#![tactic(auto)]

mod accepting;
mod conversing;
mod incoming;
mod listener;
mod outgoing;
mod parting;
mod watching;

pub use accepting::{Acceptor, BadListener, Listens};
pub use conversing::{Client, Hangup, Limits, answer_stream};
pub use incoming::Incoming;
pub use listener::{Listener, SocketListener};
pub use outgoing::Outgoing;
pub use parting::part;
pub use watching::Crowd;
