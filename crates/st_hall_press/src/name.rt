//! Which hall it is.
//!
//! A hall is opened under a name that its caller picks. `UnnamedFor::of` cuts the count into shares; the pick is a proof file of
//! the function that opens the hall.
ghost use Rattle.std.specs.Prelude.{◌≡◌, []};
ghost use Rattle.st_hall_press.specs.inner.History.{head_of};

use crate::history::Law;
use logbook::{Seen, Start, Word};
use st_core::Asked;
use st_watermark::Watermark;
use std::marker::Brand;
use std::sync::ledger::{Blank, Ledger};

/// Which hall it is: the state that it opened with, its history, and its watermark. Each call of a program picks it.
pub trait HallName: Ledger {
    ghost use Rattle.std.specs.Prelude.{ℕ};
    ghost use Rattle.logbook.specs.Pages.{Book};
    ghost use Rattle.st_hall_press.specs.Steps.{HallState};

    ghost start: { HallState };

    ghost book: { Book };

    ghost mark: { ℕ };
}

impl HallName for Brand {
    ghost use Rattle.st_core.specs.State.{first_state};
    ghost use Rattle.std.specs.Prelude.{[]};

    ghost start = { first_state [] [] };

    ghost book = { record { number = 0; log_name = 0; cells_name = 0 } };

    ghost mark = { 0 };
}

/// For a hall of two desks: a history that is empty, an empty count, and a watermark at 0, which have no name yet.
#[derive(Drop)]
pub struct Unnamed {
    pub head: Word<Asked, u64, Law>,
    pub seen: Seen<Asked, u64, Law>,
    pub blank: Blank,
    pub mark: Watermark,
    pub ghost empty: { seen.log ≡ [] },
    pub ghost head_is: { head ≡ head_of seen.book },
    pub ghost unmarked: { mark.at ≡ 0 },
    pub ghost two: { blank.parts ≡ 2 },
}

/// For a hall of any number of desks: a history that is empty, an empty count, and a watermark at 0, which have no name yet.
#[derive(Drop)]
pub struct UnnamedFor {
    pub head: Word<Asked, u64, Law>,
    pub seen: Seen<Asked, u64, Law>,
    pub blank: Blank,
    pub mark: Watermark,
    pub ghost empty: { seen.log ≡ [] },
    pub ghost head_is: { head ≡ head_of seen.book },
    pub ghost unmarked: { mark.at ≡ 0 },
}

impl Unnamed {
    /// An empty history, an empty count of two shares, and a watermark at 0.
    pub fn new() -> Unnamed {
        let UnnamedFor {
            head,
            seen,
            blank,
            mark,
        } = UnnamedFor::of(2);
        Unnamed {
            head,
            seen,
            blank,
            mark,
        }
    }
}

impl UnnamedFor {
    /// An empty history, an empty count of as many shares as there are workers, and a watermark at 0.
    pub fn of(workers: u16) -> UnnamedFor
        ensures { result.blank.parts ≡ workers }
    {
        let (seen, mut first, _second) = Seen::open(Start::alone(), 0, 0);
        UnnamedFor {
            head: Word::tracked(0, &mut first),
            seen,
            blank: Blank::new(workers as u64),
            mark: Watermark::new(),
        }
    }
}
