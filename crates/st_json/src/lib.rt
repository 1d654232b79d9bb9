//! Requests from bodies of JSON (RFC 8259).
//!
//! An endpoint and the name in its path are two arguments of `decode`. `Endpoint` is a plain value that tables take; `Route` is
//! what a method and a target name, which may be no endpoint.
#![tactic(auto)]

mod body;
mod fault;
mod field;
mod grants;
mod grids;
pub mod law;
mod place;
mod plans;
mod rows;
mod rule;
mod scans;
mod sizes;
mod tables;
mod users;
mod value;

pub use body::{decode, has_body};
pub use fault::DecodeFault;
