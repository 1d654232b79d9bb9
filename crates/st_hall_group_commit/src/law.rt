//! What the next opening finds.
ghost use Rattle.std.specs.Prelude.{◌≡◌, ◌++◌, List};
ghost use mathlib.Core.List.{IsPrefix};
ghost use Rattle.st_journal.specs.declared.record.Record.{Record};
ghost use Rattle.st_journal.specs.Replays.{Replays};
ghost use Rattle.st_journal.specs.Leaving.{LeavesOnly};
ghost use Rattle.st_journal_store.specs.Applying.{Applies};
ghost use Rattle.st_hall.specs.Steps.{Ask, HallState as State, state_after};
ghost use Rattle.st_hall.specs.Views.{Beside};
ghost use Rattle.st_hall_group_commit.specs.Rolls.{IsPast, LeadPast};

use crate::publisher::Publisher;
use crate::reading::Reading;
use st_hall::{HallName, KeptFront};
use st_journal::Journal;
use st_journal_store::Beginning;
use std::sync::Wait;

/// What is made again from what was left is the state after a beginning of the list of changes, with at least all that was kept.
pub fn opens_again()
    ensures { (first start again : State) (kept list : List Ask) (left : List Record) → LeadPast first start kept list left
        → Replays Applies first left again → IsPast start kept list again }
{}

/// Nothing that is known to be kept is lost: whatever the journal of a hall may leave, if the process ends now, leads to the state after
/// a beginning of the one list that has all of it. It does nothing.
pub fn nothing_is_lost<B: Beginning, H: HallName, R: Wait + Drop, J: Journal + Drop>(
    publisher: &mut Publisher<B, H, R, J>,
    known: &KeptFront<H>,
)
    ensures leaves { LeavesOnly J.Journal publisher.old.journal (λ left. LeadPast B.first H.start known.now publisher.old.list left) }
    ensures same { publisher.new ≡ publisher.old }
{
    publisher.laws();
    publisher.laws_of(known);
}

/// Two readings of a hall are of lists of which one begins the other.
pub fn two_readings<H: HallName>(one: &Reading<H>, other: &Reading<H>)
    ensures { Beside one.now.kept other.now.kept }
{
    one.kept.front().compare(other.kept.front());
}

/// Changes after that are changes of one list, which goes on that beginning.
pub fn goes_on()
    ensures { (start : State) (front later : List Ask) → state_after (state_after start front) later ≡ state_after start (front ++ later) }
{}
