//! A cache of verdicts on labels.
ghost use Rattle.std.specs.Prelude.{◌≡◌, IfOk};
ghost use Rattle.std.specs.NonZero.{non_zero_usize_get};
ghost use Rattle.st_label.specs.Reading.{is_true};
ghost use Rattle.st_text.specs.Texts.{is_among};

use crate::auths::Auths;
use crate::long_labels::LongLabels;
use crate::short_labels::ShortLabels;
use crate::truth::satisfies;
use st_label::Label;
use std::alloc::{AllocError, Allocator, Global};
use std::marker::Model;
use std::num::NonZeroUsize;

/// A cache of the verdicts on labels for one set of authorizations. Asked for another set, it forgets
/// all. When it is full of long labels, it forgets the one that was asked for longest ago. Labels of at
/// most [`st_text::MAX_SHORT`] bytes are cached apart.
#[derive(Drop)]
pub struct Verdicts<A: Allocator = Global> {
    alloc: A,
    auths: Auths<A>,
    short: ShortLabels<A>,
    long: LongLabels<A>,
}

impl<A: Allocator> Model for Verdicts<A> {
    ghost use Rattle.std.specs.Prelude.{ℕ};
    ghost use Rattle.std.specs.NonZero.{non_zero_usize_get};

    ghost Value = { ℕ };

    ghost use Rattle.st_auth.specs.inner.Remembered.{AreHeld, AreKnown, itself, kept_text};

    ghost view = { λ v. non_zero_usize_get v.long.capacity };

    ghost invariant = { λ v. AreHeld v.auths v.long.recent × AreKnown itself v.auths v.short.cache.known.items
        × AreKnown kept_text v.auths v.long.cache.known.items };
}

impl<A: Allocator + Copy> Verdicts<A> {
    /// An empty cache with room for 4,096 long labels, and for `capacity` more. `AllocError` when out of memory.
    pub fn new(alloc: A, capacity: NonZeroUsize) -> Result<Verdicts<A>, AllocError>
        ensures { IfOk result (λ verdicts. verdicts ≡ non_zero_usize_get capacity) }
    {
        Ok(Verdicts {
            alloc,
            auths: Auths::none(alloc),
            short: ShortLabels::new(alloc),
            long: LongLabels::new(alloc, capacity),
        })
    }

    /// Whether the label is true for the set, as [`satisfies`] says. When out of memory
    /// it remembers nothing.
    pub fn ask<B: Allocator, C: Allocator>(&mut self, label: &Label<B>, auths: &Auths<C>) -> bool
        ensures value { result ≡ is_true (is_among auths.now) label.now }
        ensures capacity { self.new ≡ self.old }
    {
        if !self.auths.is_same(auths) {
            let Ok(copy) = auths.copy_in(self.alloc) else {
                return satisfies(label, auths);
            };
            self.short.forget();
            self.long.forget();
            self.auths = copy;
        }
        match self.short.ask(label, &self.auths) {
            Some(verdict) => verdict,
            None => self.long.ask(label, &self.auths),
        }
    }
}
