//! What the definitions say of what a server leaves, whatever the program does.
ghost use Rattle.std.specs.Prelude.{List, ℕ};
ghost use mathlib.Core.List.{IsPrefix};
ghost use Rattle.st_http.specs.First.{First};
ghost use Rattle.st_journal.specs.declared.record.Record.{Record};
ghost use Rattle.st_journal.specs.Replays.{Replays};
ghost use Rattle.st_journal_store.specs.Applying.{Applies};
ghost use Rattle.st_hall.specs.Steps.{Ask, HallState as State};
ghost use Rattle.st_hall.specs.Views.{Post};
ghost use Rattle.st_hall_group_commit.specs.Rolls.{IsPast, LeadPast};
ghost use Rattle.st_hall_station.specs.Posts.{StationRun};
ghost use Rattle.st_hall_station.specs.Standing.{KeptRun, LostRun, OutKept, ServesKept};
ghost use Rattle.st_server_workers.specs.Working.{WorkedEach};
ghost use Rattle.st_server.specs.Attending.{AreNew, HasSynced, ServesWithin};

use st_server_peer::Client;

/// No answer of any worker is taken back. `each`: what is kept in the end has all that was synced when a connection ended. `out`: so
/// it has all that was seen for each answer of a connection, and `lost`: for each answer that is out of one that ended as lost.
/// `found`: the next opening finds the state after a list that goes on what is kept, and begins the one list.
pub fn nothing_is_taken_back<C: Client>()
    ensures each { (start hold kept old new : _) → AreNew old → HasSynced (λ station. station) new kept
        → WorkedEach (ServesKept start hold) C.call old new → WorkedEach (ServesWithin start hold kept) C.call old new }
    ensures out { (start : State) (kept : List Ask) (s t : Post) (items : List First) (answers : List (List ℕ))
        → IsPrefix t.seat.seen kept → StationRun start s items answers t → KeptRun start kept s items answers t }
    ensures lost { (start : State) (kept : List Ask) (lost : LostRun start) → IsPrefix lost.synced.seat.seen kept
        → OutKept start kept lost.before lost.items lost.answers lost.sent }
    ensures found { (first start found : State) (kept list : List Ask) (left : List Record) → LeadPast first start kept list left
        → Replays Applies first left found → IsPast start kept list found }
{}
