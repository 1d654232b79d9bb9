//! The framing of HTTP/1.1 requests: heads, bodies, routes, tokens, and the heads of replies.
#![tactic(auto)]

mod close;
pub mod fields;
pub mod head;
pub mod law;
mod lists;
pub mod message;
mod path;
pub mod reply;
pub mod routes;
pub mod token;
