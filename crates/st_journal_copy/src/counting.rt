//! The records of a copy, counted as it is opened.
ghost use Rattle.std.specs.Prelude.{◌≡◌};

use st_journal::{Record, Replay, ReplayError};
use std::marker::Model;

/// How many records were applied. Contracts see the number.
#[derive(Drop)]
pub struct Counting {
    count: u64,
}

impl Model for Counting {
    ghost use Rattle.std.specs.Prelude.{ℕ};

    ghost Value = { ℕ };

    ghost view = { λ c. c.count };
}

impl Counting {
    /// No record yet.
    pub fn new() -> Counting
        ensures { result ≡ 0 }
    {
        Counting { count: 0 }
    }

    /// How many there were.
    pub fn count(&self) -> u64
        ensures { result ≡ self.now }
    {
        self.count
    }
}

impl Replay for Counting {
    ghost use Rattle.std.specs.Prelude.{◌≡◌, ◌+◌};

    ghost applies = { λ before _ after. after ≡ before + 1 };

    fn apply(&mut self, _change: &Record) -> Result<(), ReplayError> {
        match self.count.checked_add(1) {
            Some(count) => {
                self.count = count;
                Ok(())
            }
            None => Err(ReplayError::NoMemory),
        }
    }
}
