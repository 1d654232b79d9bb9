//! Queries: boxes of space and time, and their parts bin by bin.
#![tactic(auto)]

mod corner;
mod key_test;
pub mod law;
mod part;
mod query;
mod zbox;

pub use corner::Corner;
pub use key_test::KeyTest;
pub use part::Part;
pub use query::{BadBox, Query};
pub use zbox::ZBox;
