//! Faults of the opening of a hall, and of what is asked of it.
ghost use Rattle.std.specs.Prelude.{◌≡◌};
ghost use Rattle.st_hall_press.specs.declared.fault.AskFault.TheVariants.{NoMemory as NoMemoryToAsk};
ghost use Rattle.st_hall_press.specs.declared.fault.HallFault.TheVariants.{NoMemory};

use std::alloc::AllocError;
use thiserror::Error;

/// What keeps a hall from opening.
#[derive(Clone, Copy, PartialEq, Eq, Debug, Error)]
pub enum HallFault {
    /// A reader's place was refused.
    #[error("a reader has no place")]
    NoPlace,
    /// Out of memory.
    #[error("out of memory")]
    NoMemory,
}

impl From<AllocError> for HallFault {
    ghost from_gives = { λ _ e. e ≡ NoMemory };

    fn from(_: AllocError) -> HallFault {
        HallFault::NoMemory
    }
}

/// Why what is asked of a hall has no reply.
#[derive(Clone, Copy, PartialEq, Eq, Debug, Error)]
pub enum AskFault {
    /// A change whose token does not hold. It is in no list, and is not counted.
    #[error("the token does not hold")]
    Stranger,
    /// Out of memory.
    #[error("out of memory")]
    NoMemory,
}

impl From<AllocError> for AskFault {
    ghost from_gives = { λ _ e. e ≡ NoMemoryToAsk };

    fn from(_: AllocError) -> AskFault {
        AskFault::NoMemory
    }
}
