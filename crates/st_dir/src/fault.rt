//! Faults of the directory.
ghost use Rattle.std.specs.Prelude.{◌≡◌};
ghost use Rattle.st_dir.specs.declared.fault.DirectoryFault.TheVariants.{NoMemory};

use std::alloc::AllocError;
use thiserror::Error;

/// Why the directory refuses a call. A refused call changes nothing.
#[derive(Clone, Copy, PartialEq, Eq, Debug, Error)]
pub enum DirectoryFault {
    /// There is no such table.
    #[error("there is no such table")]
    NoTable,
    /// There is no such user.
    #[error("there is no such user")]
    NoUser,
    /// There is a table of this name.
    #[error("there is a table of this name")]
    TableExists,
    /// There is a user of this name.
    #[error("there is a user of this name")]
    UserExists,
    /// Out of memory.
    #[error("out of memory")]
    NoMemory,
}

impl From<AllocError> for DirectoryFault {
    ghost from_gives = { λ _ e. e ≡ NoMemory };

    fn from(_e: AllocError) -> DirectoryFault {
        DirectoryFault::NoMemory
    }
}
