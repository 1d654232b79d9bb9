//! The judgement of a recorded change.
ghost use Rattle.std.specs.Prelude.{◌≡◌, Err, IfOk};
ghost use Rattle.std.specs.declared.alloc.Global.{Global as Heap};
ghost use Rattle.st_core.specs.State.{State};
ghost use Rattle.st_core.specs.Judging.{JudgesChange};
ghost use Rattle.st_core.specs.Step.{settle};
ghost use Rattle.st_journal_store.specs.Applying.{Applies};

use st_core::Judged;
use st_dir::{Directory, Name};
use st_journal::{Record, ReplayError};
use st_journal_record::request_in;
use st_policy::decide;
use std::alloc::Global;

// How a directory judges the change of a record. `Invalid` comes where the record is not that of a change by one of its users.
pub(crate) fn judged_again(
    alloc: Global,
    directory: &Directory,
    change: &Record,
) -> Result<Judged, ReplayError>
    ensures judges { IfOk result (λ judged. JudgesChange directory.now judged) }
    ensures applies { IfOk result (λ judged. (s : State Heap) → s.directory ≡ directory.now
        → Applies s change.now (settle s judged).state) }
    ensures invalid { result ≡ Err ReplayError.Invalid → (s after : State Heap) → s.directory ≡ directory.now
        → Applies s change.now after → ⊥ }
{
    let Ok(asker) = Name::new(change.user.as_str()) else {
        return Err(ReplayError::Invalid);
    };
    let request = request_in(alloc, alloc, change)?;
    if !request.is_change() || !directory.has_user(asker.as_str()) {
        return Err(ReplayError::Invalid);
    }
    let refusal = decide(directory, &asker, &request).err();
    Ok(Judged::Heard {
        asker,
        request,
        refusal,
    })
}
