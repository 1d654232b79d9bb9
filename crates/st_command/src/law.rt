//! Laws of stores that a journal keeps.
ghost use Rattle.std.specs.Prelude.{◌≡◌, ◌↔◌, ℕ, List};
ghost use Rattle.std.specs.declared.alloc.Global.{Global as Heap};
ghost use Rattle.st_text.specs.Texts.{Text};
ghost use Rattle.st_core.specs.State.{State};
ghost use Rattle.st_journal.specs.Leaving.{LeavesOnly};
ghost use Rattle.st_journal.specs.Owner.{owner_in};
ghost use Rattle.st_service.specs.Answers.{Answers};
ghost use Rattle.st_journal_store.specs.Found.{TakesNothingBack};
ghost use Rattle.st_command.specs.Opening.{OpensWith};
ghost use Rattle.st_command.specs.Kept.{ServesStored};

use st_journal::Journal;

/// Command lines that a journal says alike open one state.
pub fn one_opening()
    ensures { (digits other : Text) (names others : List Text) (one two : State Heap) (opening : Text)
        → OpensWith digits names one opening → OpensWith other others two opening → one ≡ two }
{}

/// The first words of what two journals say, up to a blank, are the same exactly where root's digests are.
pub fn one_owner()
    ensures { (digits more names rest s t opening found : _) (a : OpensWith digits names s opening)
        (b : OpensWith more rest t found) → (owner_in opening ≡ owner_in found) ↔ (a.opens.digest ≡ b.opens.digest) }
{}

/// What a run wrote for a connection is a front of answers that lead to the state which is made again from what is left, at
/// whatever moment the process ends. So nothing that was answered, in whole or in part, is taken back, and the next run goes on
/// from there.
pub fn nothing_is_taken_back<J: Journal>()
    ensures { (first before begun s status : _) (serves : ServesStored J.Journal first begun before s status)
        → LeavesOnly J.Journal serves.after.journal (TakesNothingBack Answers first before s) }
{}
