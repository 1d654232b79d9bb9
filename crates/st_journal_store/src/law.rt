//! Laws of recorded changes.
ghost use Rattle.std.specs.Prelude.{◌≡◌, ◌⊎◌, List};
ghost use Rattle.std.specs.declared.alloc.Global.{Global as Heap};
ghost use Rattle.st_core.specs.State.{State};
ghost use Rattle.st_journal.specs.declared.record.Record.{Record};
ghost use Rattle.st_journal.specs.Replays.{Replays};
ghost use Rattle.st_service.specs.Answers.{Answers};
ghost use Rattle.st_journal_store.specs.Applying.{Applies};
ghost use Rattle.st_journal_store.specs.Found.{FoundAfter, WasServed};
ghost use Rattle.st_journal_store.specs.Keeping.{LeadTo};

use std::alloc::Allocator;

/// The records of changes lead from a state to one state and no other.
pub fn one_state<A: Allocator>()
    ensures { (first one other : State A) (records : List Record) → Replays Applies first records one → Replays Applies first records other
        → one ≡ other }
{}

/// Replaying what a crash left gives one of the two states that `LeadTo` allows, and no other.
pub fn opens_again()
    ensures { (first kept answered again : State Heap) (left : List Record) → LeadTo first kept answered left
        → Replays Applies first left again → (again ≡ kept) ⊎ (again ≡ answered) }
{}

/// What a call wrote is a front of answers that lead to the state which the next opening finds. So nothing that was answered, in
/// whole or in part, is taken back.
pub fn nothing_is_taken_back()
    ensures { (old answered kept found : State Heap) (s failed result : _) → WasServed Answers old answered kept s failed result
        → (found ≡ kept) ⊎ (found ≡ answered) → FoundAfter Answers old found s }
{}
