//! The history of changes, which exists in proofs alone.
ghost use Rattle.std.specs.Prelude.{◌≡◌};
ghost use Rattle.st_hall_press.specs.inner.History.{head_of};

use crate::name::HallName;
use logbook::{Gain, Plain, Play, Rule, Word};
use st_core::Asked;
use std::marker::PhantomData;

/// The rule of the history.
pub struct Law;

impl Rule<Asked, u64> for Law {
    ghost use Rattle.std.specs.Prelude.{[]};
    ghost use base.Fml.{ftrue};
    ghost use Rattle.st_hall_press.specs.inner.History.{IsKept};

    ghost holds = { λ cells log. IsKept cells log };

    ghost first = { [] };

    ghost hinted = { λ n log. Unit {0} };

    ghost shows = { λ log. [] };

    ghost keeps = { λ names log. ftrue };

    ghost moves = { λ ask before after answer. Unit {0} };
}

pub(crate) struct Nothing;

impl Gain<Asked, u64> for Nothing {
    ghost use base.Fml.{ftrue};

    ghost after = { λ names about answer. ftrue };
}

// A step that adds a change.
pub(crate) struct Add;

impl Play<Asked, u64> for Add {
    ghost use Rattle.st_hall_press.specs.inner.History.{Adds};

    ghost then = { Adds };
}

impl Plain<Asked, Asked, u64> for Add {
    ghost use Rattle.std.specs.Prelude.{None};

    ghost ask = { λ asked. asked };

    ghost state = { λ asked. None };
}

/// The right to add to the history.
#[derive(Drop)]
pub struct Head<H: HallName> {
    pub word: Word<Asked, u64, Law>,
    pub of: PhantomData<H>,
    pub ghost head_is: { word ≡ head_of H.book },
}
