//! A server at a port or a socket, by the words of a command line: workers over two copies of a store that is in memory, or that a
//! journal keeps.
#![tactic(auto)]

mod copying;
mod kept;
pub mod law;
mod leaving;
mod memory;
mod served;
mod serving;
mod stations;

pub use served::serve_with;
