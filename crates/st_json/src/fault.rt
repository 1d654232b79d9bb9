//! Why a body makes no request.
ghost use Rattle.std.specs.Prelude.{◌≡◌};
ghost use Rattle.st_json.specs.declared.fault.DecodeFault.TheVariants.{NoMemory};

use st_policy::Refusal;
use std::alloc::AllocError;
use thiserror::Error;

/// Why a body makes no request.
#[derive(Debug, Drop, Error)]
pub enum DecodeFault {
    /// The first rule that the body or the name in the path breaks.
    #[error("the request is refused")]
    Refused(Refusal),
    /// Memory ran out.
    #[error("out of memory")]
    NoMemory,
}

impl From<AllocError> for DecodeFault {
    ghost from_gives = { λ _ e. e ≡ NoMemory };

    fn from(_e: AllocError) -> DecodeFault {
        DecodeFault::NoMemory
    }
}
