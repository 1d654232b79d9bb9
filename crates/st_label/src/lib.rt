//! Visibility labels: the language, its trees and their normal form.
#![tactic(auto)]

mod class;
mod label;
pub mod law;
mod normal;
mod print;
mod reader;
mod term;
mod tree;
mod truth;

pub use label::{Label, LabelFault, MAX_LEN};
pub use reader::MAX_DEPTH;
pub use term::{Names, Term};
