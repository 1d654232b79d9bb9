//! The laws of the server, each the contract of a function that does nothing.
ghost use Rattle.std.specs.Prelude.{◌≡◌, ◌≢◌, ◌++◌, ◌∷◌, [], List, None, Some, false};
ghost use Rattle.circular_buffer.specs.Buffer.{keep_last};
ghost use Rattle.st_text.specs.Texts.{Text, in_order};
ghost use Rattle.st_policy.specs.Requests.{table_of};
ghost use Rattle.st_policy.specs.declared.request.Request.{Request};
ghost use Rattle.st_policy.specs.declared.refusal.Refusal.{Refusal};
ghost use Rattle.st_core.specs.declared.asked.Asked.{Asked as Event};
ghost use Rattle.st_policy.specs.declared.reply.Reply.{Reply};
ghost use Rattle.st_table.specs.Rows.{Held, full_name, rows_in_table};
ghost use Rattle.st_core.specs.Changes.{rows_after};
ghost use Rattle.st_core.specs.State.{State};
ghost use Rattle.st_core.specs.Step.{Submits, asker_of, asks_for_change, entry_for, step};
ghost use Rattle.st_core.specs.Worlds.{NeverSystem, keep, replies_to};

use std::alloc::Allocator;

/// What asks for no change leaves the state as it was.
pub fn reads_change_nothing<A: Allocator>()
    ensures { (s : State A) (asked : Event A) → asks_for_change asked ≡ false → (step s asked).state ≡ s }
{}

/// A refused request leaves the directory and the rows as they were.
pub fn refusals_change_nothing<A: Allocator>()
    ensures { (s : State A) (asked : Event A) (refusal : Refusal) → (step s asked).reply ≡ Reply.Refused refusal
        → ((step s asked).state.directory ≡ s.directory) × ((step s asked).state.rows ≡ s.rows) }
{}

/// Each change whose token is valid is listed, made or refused, and nothing else is: what a stranger asks changes nothing.
pub fn changes_are_listed<A: Allocator>()
    ensures listed { (s : State A) (asked : Event A) (asker : Text) (request : Request A)
        → Submits s asked asker request
        → (step s asked).state.audit ≡ keep_last 1024 (s.audit ++ entry_for s asker request ∷ []) }
    ensures strangers { (s : State A) (asked : Event A) → asker_of s.directory asked.token ≡ None → (step s asked).state ≡ s }
{}

/// A request leaves the rows of each table but its own as they were.
pub fn other_tables_stay<A: Allocator>()
    ensures { (request : Request A) (rows : List (Held A)) (table : Text)
        → in_order full_name rows ≡ rows → table_of request ≢ Some table
        → rows_in_table table (rows_after request rows) ≡ rows_in_table table rows }
{}

/// What a user may not see cannot be noticed. Let a user hold SYSTEM at no moment of a run. Then the replies to the user's own
/// requests are the same without those requests of others that are reads, or are refused, or change only rows that the user may
/// never see; so two histories that agree on the rest are told the same, and nothing more is left out a second time.
pub fn two_worlds<A: Allocator>()
    ensures told_the_same { (s : State A) (user : Text) (asked : List (Event A)) → NeverSystem user s asked
        → replies_to user s asked ≡ replies_to user s (keep user s asked) }
    ensures equal_worlds { (s : State A) (user : Text) (one other : List (Event A))
        → NeverSystem user s one → NeverSystem user s other → keep user s one ≡ keep user s other
        → replies_to user s one ≡ replies_to user s other }
    ensures kept_twice { (s : State A) (user : Text) (asked : List (Event A)) → keep user s (keep user s asked) ≡ keep user s asked }
{}
