//! Why a journal was not opened.

use thiserror::Error;

/// Why a journal was not opened. The file is left as it is.
#[derive(Clone, Copy, Debug, PartialEq, Eq, Error)]
pub enum OpenError {
    /// The journal was begun with an opening of another owner.
    #[error("it is of another owner")]
    OtherOwner,
    /// The journal was begun with another opening, of the same owner.
    #[error("it is of another opening")]
    OtherOpening,
    /// Another process has the file open.
    #[error("in use")]
    InUse,
    /// A later version of the program wrote the file, in the format of this number.
    #[error("of the later format {0}")]
    LaterFormat(u32),
    /// The file is not a SQLite database, or a database of something else.
    #[error("no journal")]
    NotAJournal,
    /// The file is a journal, but its rows are not records in order, or a record does not apply.
    #[error("damaged")]
    Damaged,
    /// `sqlite3` was interrupted inside a transaction; once it has opened the file, that is undone.
    #[error("interrupted")]
    Interrupted,
    /// The disk failed, or the path names no file that can be opened.
    #[error("not opened, read or written")]
    Io,
    /// Memory ran out.
    #[error("out of memory")]
    NoMemory,
}
