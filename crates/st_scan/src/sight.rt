//! Judging labels by authorizations.
ghost use Rattle.std.specs.Prelude.{◌≡◌};
ghost use Rattle.st_label.specs.Reading.{is_true};
ghost use Rattle.st_text.specs.Texts.{is_among};

use crate::verdicts::verdicts_for;
use st_auth::{Auths, SetVerdicts};
use st_index::Judge;
use st_label::Label;
use std::alloc::Allocator;

// What finds those labels true that some authorizations satisfy.
#[derive(Drop)]
pub(crate) struct Sight<'s, A: Allocator, B: Allocator> {
    verdicts: SetVerdicts<'s, A, B>,
}

impl<'s, A: Allocator + Copy, B: Allocator> Sight<'s, A, B> {
    // The sight of these authorizations.
    pub fn new(alloc: A, auths: &'s Auths<B>) -> Sight<'s, A, B>
        ensures { result.verdicts ≡ auths.now }
    {
        Sight {
            verdicts: verdicts_for(alloc, auths),
        }
    }
}

impl<'s, A: Allocator + Copy, B: Allocator> Judge<A> for Sight<'s, A, B> {
    ghost judges = { λ s label. is_true (is_among s.verdicts) label };

    fn finds_true(&mut self, label: &Label<A>) -> bool {
        self.verdicts.ask(label)
    }
}
