//! Lists sorted by key, searched by halves.
#![tactic(auto)]

mod list;
mod wanted;

pub use list::{get, has, place_of, position, remove};
pub use wanted::Wanted;
