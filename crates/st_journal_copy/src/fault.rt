//! Why a list was not copied.
ghost use Rattle.std.specs.Prelude.{◌≡◌};

use st_journal::ReadError;
use thiserror::Error;

/// Why a list was not copied. The copy holds what it held, or a longer beginning of the list.
#[derive(Clone, Copy, Debug, Drop, PartialEq, Eq, Error)]
pub enum CopyFault {
    /// The copy has records that the list has not: it is left as it is.
    #[error("it is of another history")]
    OtherHistory,
    /// The copy was begun for a store with another digest of root: it is left as it is.
    #[error("it is of another root")]
    OtherStore,
    /// The copy was begun for a store with this digest of root, and with other authorizations or these in another order: it is left
    /// as it is.
    #[error("it is of other authorizations of root (their order counts)")]
    OtherNames,
    /// Another process has the copy open.
    #[error("in use")]
    InUse,
    /// A later version of the program wrote the copy: it is left as it is.
    #[error("of a later format")]
    LaterFormat,
    /// The file is no store: it is left as it is.
    #[error("no store")]
    NoStore,
    /// The copy is damaged: it is left as it is.
    #[error("damaged")]
    Damaged,
    /// Another program was interrupted inside a transaction on the copy.
    #[error("interrupted")]
    Interrupted,
    /// The copy could not be opened, read or written.
    #[error("not read or written")]
    Io,
    /// Memory ran out.
    #[error("no memory")]
    NoMemory,
    /// The list could not be read.
    #[error("store not read")]
    NotRead,
    /// The journal of the list takes no more.
    #[error("store lost")]
    Lost,
}

impl CopyFault {
    // Why a list was not copied that could not be read.
    pub(crate) fn of_list(error: ReadError) -> CopyFault {
        match error {
            ReadError::NotRead => CopyFault::NotRead,
            ReadError::Lost => CopyFault::Lost,
        }
    }
}
