//! Stores in SQLite files, for the programs that take `--store FILE`: what opens their journals, makes their lists of changes short
//! (`--compact`) and copies them (`--copy FILE`).
#![tactic(auto)]

mod asked;
mod copier;
mod counts;
mod file;
mod journal;
mod keeper;
mod private;
mod progress;
mod time;
mod words;

pub use copier::{SqliteCopier, copy_into};
pub use counts::ListLengths;
pub use file::shorten_file;
pub use journal::shorten_journal;
pub use keeper::{SqliteKeeper, StoreFile};
pub use words::{shorten_for_run, shorten_for_served};
