//! A watermark: how far something has come. It exists in proofs alone, has no bytes, and does nothing at run time.
#![tactic(auto)]

mod watermark;

pub use watermark::{Reached, Watermark};
