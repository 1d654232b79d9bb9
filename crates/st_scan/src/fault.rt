//! Why a scan shows nothing.

use std::alloc::{AllocError, AllocFailed};
use thiserror::Error;

/// Why a scan shows nothing.
#[derive(Clone, Copy, PartialEq, Eq, Debug, Error)]
pub enum ScanFault {
    /// The limit of a page is not 1 to 1,000.
    #[error("the limit is not 1 to 1,000")]
    BadLimit,
    /// A grid has not 1 to 32 columns and 1 to 32 lines.
    #[error("the grid does not have 1 to 32 columns and 1 to 32 lines")]
    BadGrid,
    /// Out of memory.
    #[error("out of memory")]
    NoMemory,
}

impl From<AllocError> for ScanFault {
    ghost use Rattle.std.specs.Prelude.{◌≡◌};
    ghost use Rattle.st_scan.specs.declared.fault.ScanFault.TheVariants.{NoMemory};

    ghost from_gives = { λ _ e. e ≡ NoMemory };

    fn from(_e: AllocError) -> ScanFault {
        ScanFault::NoMemory
    }
}

impl<T: Drop> From<AllocFailed<T>> for ScanFault {
    ghost use Rattle.std.specs.Prelude.{◌≡◌};
    ghost use Rattle.st_scan.specs.declared.fault.ScanFault.TheVariants.{NoMemory};

    ghost from_gives = { λ _ e. e ≡ NoMemory };

    fn from(_e: AllocFailed<T>) -> ScanFault {
        ScanFault::NoMemory
    }
}
