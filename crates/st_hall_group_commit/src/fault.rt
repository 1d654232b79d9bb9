//! Why a change is not answered.
ghost use Rattle.std.specs.Prelude.{◌≡◌};
ghost use Rattle.st_hall_group_commit.specs.declared.fault.ChangeError.TheVariants.{NoMemory};

use std::alloc::AllocError;
use thiserror::Error;

/// Why a change is not answered.
#[derive(Clone, Copy, Debug, PartialEq, Eq, Error)]
pub enum ChangeError {
    /// The token does not hold. It is no change.
    #[error("the token does not hold")]
    Stranger,
    /// Out of memory. The change is not made.
    #[error("out of memory")]
    NoMemory,
    /// The journal takes no more. Whether the change is kept is unknown until the journal is reopened.
    #[error("the journal takes no more")]
    Lost,
}

impl From<AllocError> for ChangeError {
    ghost from_gives = { λ _ e. e ≡ NoMemory };

    fn from(_: AllocError) -> ChangeError {
        ChangeError::NoMemory
    }
}
