//! A journal in a SQLite file (https://www.sqlite.org/fileformat2.html): one table, which `sqlite3` reads.
#![tactic(auto)]

mod files;
mod journal;
pub mod law;
mod open;
mod rewrite;
mod rows;

pub use journal::FileJournal;
pub use st_journal_rows::{OpenError, Progress, Silent};
