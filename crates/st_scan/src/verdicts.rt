//! What a scan takes before its first row.
ghost use Rattle.std.specs.Prelude.{◌≡◌};

use st_auth::{Auths, SetVerdicts};
use std::alloc::Allocator;
use std::num::NonZeroUsize;

// How many long labels a scan remembers.
const LABELS: usize = 64;

// The verdicts of a scan for these authorizations, none so far.
pub(crate) fn verdicts_for<A: Allocator + Copy, B: Allocator>(
    alloc: A,
    auths: &Auths<B>,
) -> SetVerdicts<'_, A, B>
    ensures { result ≡ auths.now }
{
    let labels = NonZeroUsize::new(LABELS).unwrap_or(NonZeroUsize::MIN);
    SetVerdicts::new(alloc, labels, auths)
}
