//! What answers the messages of a connection.
ghost use Rattle.std.specs.Prelude.{◌≡◌, ◌⊎◌, ℕ, List, Bool, true, false, OnOk, OnErr};
ghost use Rattle.st_http.specs.First.{First, fault as of_fault};
ghost use Rattle.st_http.specs.declared.fields.Reason.{Reason as Why};
ghost use Rattle.st_http.specs.declared.message.Message.{Message as Request};
ghost use Rattle.st_connection.specs.Connection.{Replied};
ghost use Rattle.st_connection.specs.Render.{fault_text};

use crate::streams::Failed;
use st_http::message::Message;
use std::convert::AsSlice;

/// What answers the messages of a connection, one after another.
pub trait Replies {
    /// The text of one answer.
    type Reply: AsSlice<u8> + Drop;

    // The states that it goes through.
    ghost State: { Type 0 };

    // Its state.
    ghost now: { Self → State };

    // The state that is kept, whatever becomes of it.
    ghost kept: { Self → State };

    // Whether a sync failed.
    ghost has_failed: { Self → Bool };

    // In a state an item may get this answer, and leave that state.
    ghost answers: { State → First → List ℕ → State → Type 0 };

    // In a state a message may get this answer, and leave that state.
    ghost replies: { State → Request → List ℕ → State → Type 0 };

    /// Answers a message.
    fn reply(&mut self, message: &Message<'_>) -> Self::Reply
        requires { has_failed self.old ≡ false }
        ensures answered { replies (now self.old) message.now (Self.Reply.items result) (now self.new) }
        ensures kept { (kept self.new ≡ kept self.old) ⊎ (kept self.new ≡ now self.new) }
        ensures sound { has_failed self.new ≡ false };

    /// Sees that what was answered so far is kept.
    fn sync(&mut self) -> Result<(), Failed>
        requires { has_failed self.old ≡ false }
        ensures now { now self.new ≡ now self.old }
        ensures kept { OnOk result (kept self.new ≡ now self.new) }
        ensures between { (kept self.new ≡ kept self.old) ⊎ (kept self.new ≡ now self.new) }
        ensures ok { OnOk result (has_failed self.new ≡ false) }
        ensures err { OnErr result (has_failed self.new ≡ true) };

    // A message gets an answer of the items that it may be.
    ghost replied: { (old new : State) (m : Request) (answer : List ℕ) → replies old m answer new → Replied answers old m answer new };

    // A fault gets the constant answer, and changes nothing.
    ghost faults: { (s : State) (reason : Why) (bare : Bool) → answers s (of_fault reason bare) (fault_text reason bare) s };
}
