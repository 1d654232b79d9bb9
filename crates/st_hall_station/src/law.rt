//! What the definitions say of each station, whatever the program does.
ghost use Rattle.std.specs.Prelude.{◌≡◌, ◌≤◌, List, ℕ, None, Result};
ghost use Rattle.std.specs.declared.alloc.Global.{Global};
ghost use mathlib.Core.List.{IsPrefix};
ghost use Rattle.st_text.specs.Texts.{Text};
ghost use Rattle.st_http.specs.First.{First};
ghost use Rattle.st_connection.specs.Connection.{Served};
ghost use Rattle.st_connection.specs.Streams.{Streams};
ghost use Rattle.st_connection.specs.declared.connection.Ended.{Ended};
ghost use Rattle.st_connection.specs.declared.connection.IoFault.{IoFault};
ghost use Rattle.st_service.specs.Worlds.{ItemAsks, answers_to};
ghost use Rattle.st_hall.specs.Steps.{Ask, HallState};
ghost use Rattle.st_hall.specs.Views.{Post};
ghost use Rattle.st_hall_station.specs.Posts.{StationAnswers, StationRun};
ghost use Rattle.st_hall_station.specs.Sights.{SeatTells, TellsOwn, UnprivilegedRun, sight_of, sights_of};
ghost use Rattle.st_hall_station.specs.Standing.{KeptRun, LostRun, OutKept};

/// What a station has seen it sees still, and its receipts are not fewer, after each connection that it served. What it sees begins
/// with each front that it learnt.
pub fn only_grows()
    ensures seen { (start : HallState) (s t : Post) (streams : Streams) (result : Result Ended IoFault)
        → Served (StationAnswers start) s t streams result → IsPrefix s.seat.seen t.seat.seen }
    ensures made { (start : HallState) (s t : Post) (streams : Streams) (result : Result Ended IoFault)
        → Served (StationAnswers start) s t streams result → s.seat.made ≤ t.seat.made }
    ensures learnt { (start : HallState) (s t : Post) (streams : Streams) (result : Result Ended IoFault)
        → Served (StationAnswers start) s t streams result → IsPrefix s.learnt s.seat.seen → IsPrefix s.learnt t.learnt }
    ensures begins { (start : HallState) (s t : Post) (streams : Streams) (result : Result Ended IoFault)
        → Served (StationAnswers start) s t streams result → IsPrefix s.learnt s.seat.seen → IsPrefix t.learnt t.seat.seen }
{}

/// Where what is seen in the end begins what is kept, so does all that was seen for each answer on the way.
pub fn all_is_kept()
    ensures { (start : HallState) (kept : List Ask) (s t : Post) (items : List First) (texts : List (List ℕ)) → IsPrefix t.seat.seen kept
        → StationRun start s items texts t → KeptRun start kept s items texts t }
{}

/// Of a connection that ended as lost, what is out are answers for which all that was seen begins what is kept, where what was synced
/// there does.
pub fn what_is_out_is_kept()
    ensures { (start : HallState) (kept : List Ask) (lost : LostRun start) → IsPrefix lost.synced.seat.seen kept
        → OutKept start kept lost.before lost.items lost.answers lost.sent }
{}

/// What a user may ever see decides, byte for byte, what stations tell that user. Two seats answer an item of the user by equal bytes
/// where the user holds SYSTEM at no moment of what they see in the end, the same is kept of both, and neither answer is a 503. Both
/// count a receipt for it or neither does: else a change of the token that it is asked with may be accepted at one seat, and be a
/// stranger's at the other, which has seen it. An item that asks nothing is answered alike at any two seats.
pub fn equal_stations()
    ensures own { (start : HallState) (user : Text) (item : First) (one two : TellsOwn user start item)
        → sight_of one ≡ sight_of two → one.seat.answer ≡ two.seat.answer }
    ensures asks_nothing { (start begun : HallState) (item : First) (one : SeatTells start item) (two : SeatTells begun item)
        → ItemAsks {A = Global} item None → one.answer ≡ two.answer }
{}

/// So it is of connections. Two runs of the same items, none of them told a 503, answer the user's items by equal bytes where after
/// each item the same is kept of what both see then, and both have counted as many receipts for it.
pub fn equal_runs()
    ensures { (start : HallState) (user : Text) (items : List First) (one two : UnprivilegedRun user start items)
        → sights_of one ≡ sights_of two → answers_to user items one.texts ≡ answers_to user items two.texts }
{}
