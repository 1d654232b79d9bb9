//! Laws of short lists.
ghost use Rattle.std.specs.Prelude.{◌≡◌, List};
ghost use Rattle.st_dir.specs.Directory.{Directory};
ghost use Rattle.st_core.specs.State.{State};
ghost use Rattle.st_journal.specs.declared.record.Record.{Record};
ghost use Rattle.st_journal.specs.Replays.{Replays};
ghost use Rattle.st_journal_store.specs.Applying.{Applies};
ghost use Rattle.st_journal_compact.specs.Shortening.{AreNoted, IsFresh, IsShortList, records_of, shortened};
ghost use Rattle.st_journal_compact.specs.Judging.{AreShortOf};
ghost use Rattle.st_journal_compact.specs.Watching.{IsWatched, Watched, Watches};

use std::alloc::Allocator;

/// The short list leads to the same state, directory, rows and audit listing, from one that has neither rows nor a change in its
/// audit listing, as the one that a server begins with.
pub fn one_state<A: Allocator>()
    ensures { (first after : State A) (list : _) → IsFresh first → AreNoted first.directory list
        → Replays Applies first (records_of list) after → Replays Applies first (records_of (shortened list)) after }
{}

/// Whoever makes a state again from records, and puts what `shorten` makes of them in their place, has records that lead to the same
/// state from the one that a server begins with.
pub fn stands_for_the_same()
    ensures whole { (first after : Watched) (records : List Record) → Replays Watches first records after
        → Replays Applies first.state records after.state }
    ensures short { (first after : Watched) (records kept : List Record) → IsFresh first.state → IsWatched first records after
        → AreShortOf after.changes kept → Replays Applies first.state kept after.state }
{}

/// What `shorten` makes of the records that a state was made again from is their short list, by the directory that the state began with.
pub fn is_short_list()
    ensures { (first after : Watched) (records kept : List Record) → IsWatched first records after → AreShortOf after.changes kept
        → IsShortList first.state.directory records kept }
{}

/// Records have one short list.
pub fn one_short_list<A: Allocator>()
    ensures { (d : Directory A) (old short other : List Record) → IsShortList d old short → IsShortList d old other → short ≡ other }
{}
