//! Making a change that was judged.
ghost use Rattle.std.specs.Prelude.{◌≡◌, OnOk, OnErr};
ghost use Rattle.st_core.specs.Judging.{JudgesChange};
ghost use Rattle.st_core.specs.Step.{settle};

use st_core::{Judged, Store};
use std::alloc::AllocError;

// Makes what a judged change comes to, or changes nothing when out of memory.
pub(crate) fn make(store: &mut Store, judged: &Judged) -> Result<(), AllocError>
    requires { JudgesChange store.old.directory judged.now }
    ensures ok { OnOk result (store.new ≡ (settle store.old judged.now).state) }
    ensures err { OnErr result (store.new ≡ store.old) }
{
    drop(store.settle(judged.as_ref())?);
    Ok(())
}
