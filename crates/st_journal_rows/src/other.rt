//! A store that was opened with something else.
ghost use Rattle.std.specs.Prelude.{◌≡◌, ◌≢◌};
ghost use Rattle.st_journal.specs.Owner.{owner_in};
ghost use Rattle.st_journal_rows.specs.inner.NoOther.{Refuses};

use crate::error::OpenError;

// The first word of an opening.
fn owner_in(opening: &str) -> &str
    ensures { result.now ≡ owner_in opening.now }
{
    match opening.split_once(' ') {
        Some((owner, _)) => owner,
        None => opening,
    }
}

// Why a store is refused to an opening, where it was begun with another one.
pub(crate) fn refusal(opening: &str, found: &str) -> OpenError
    requires { found.now ≢ opening.now }
    ensures { Refuses opening.now found.now result }
{
    if owner_in(found) == owner_in(opening) {
        OpenError::OtherOpening
    } else {
        OpenError::OtherOwner
    }
}
