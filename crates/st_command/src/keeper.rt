//! What opens the journal of a store.
ghost use Rattle.std.specs.Prelude.{◌≡◌, ℕ, List, IfOk, IfErr};
ghost use Rattle.st_journal.specs.declared.record.Record.{Record};
ghost use Rattle.st_journal.specs.Replays.{Replays};
ghost use Rattle.st_command.specs.Opening.{IsOfStore};

use st_command_line::Fault;
use st_journal::{Journal, Replay};

/// Opens the journal of a store at a path.
pub trait Keeper<J: Journal + Drop> {
    // What is kept at a path may be read as these changes of a store that was opened so.
    ghost holds: { Self → (path opening : List ℕ) → List Record → Type 0 };

    /// Opens the journal, and applies its records to the state. Where nothing is kept, it begins a journal without a change, which
    /// says `opening`, what the store was opened with. A fault is one of a store, and what is refused is left as it is.
    fn open<R: Replay>(self, path: &str, opening: &str, state: &mut R) -> Result<J, Fault>
        ensures ready { IfOk result J.is_ready }
        ensures found { IfOk result (λ journal. J.misreads journal ≡ 0 → holds self path.now opening.now (J.list journal)) }
        ensures made { IfOk result (λ journal. J.misreads journal ≡ 0
            → Replays R.applies state.old (J.list journal) state.new) }
        ensures fault { IfErr result IsOfStore };
}
