//! Texts and lists that contracts see as their bytes and their items.
#![tactic(auto)]

mod compact;
mod items;
pub mod law;
mod short;
mod text;
mod words;

pub use compact::CompactText;
pub use items::Items;
pub use short::{MAX_SHORT, ShortText};
pub use text::Text;
pub use words::Words;
