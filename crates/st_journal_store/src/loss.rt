//! Why a change was lost.
ghost use Rattle.std.specs.Prelude.{◌≡◌, ◌⊎◌};

use st_journal::AppendError;

/// Why a change was lost.
#[derive(Clone, Copy, Debug, PartialEq, Eq)]
pub enum Loss {
    /// Memory ran out, before its record was kept or when it was to be made, or the record is longer than the journal takes.
    NoMemory,
    /// The disk failed or refused, so that its record was not kept, or may not have been.
    Disk,
}

// Why a change is lost whose record was not appended for this reason.
pub(crate) fn loss_of(error: AppendError) -> Loss
    ensures { result ≡ Loss.Disk → (error ≡ AppendError.NotKept) ⊎ (error ≡ AppendError.Unknown) }
{
    match error {
        AppendError::NoMemory => Loss::NoMemory,
        AppendError::NotKept | AppendError::Unknown => Loss::Disk,
    }
}
