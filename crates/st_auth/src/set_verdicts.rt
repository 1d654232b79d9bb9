//! A cache of verdicts on labels for one set of authorizations.
//!
//! Each cache has 64 places at first and four times as many once a quarter are taken, up to 32,768. A label without a free place
//! within four behind that of its hash replaces another; long labels that come to a full one go to an `lru` cache.
ghost use Rattle.std.specs.Prelude.{◌≡◌};
ghost use Rattle.st_label.specs.Reading.{is_true};
ghost use Rattle.st_text.specs.Texts.{is_among};

use crate::auths::Auths;
use crate::long_labels::LongLabels;
use crate::short_labels::ShortLabels;
use crate::truth::satisfies;
use st_label::Label;
use std::alloc::{Allocator, Global};
use std::marker::Model;
use std::num::NonZeroUsize;

// So many labels are judged before any is remembered.
const FEW: u8 = 16;

/// A cache of the verdicts on labels for one set of authorizations. Unlike [`crate::Verdicts`] it
/// borrows the set, and never compares it. It remembers nothing of the first 16 labels, so that few labels
/// take no memory.
#[derive(Drop)]
pub struct SetVerdicts<'s, A: Allocator = Global, B: Allocator = Global> {
    auths: &'s Auths<B>,
    // How many labels were judged and not remembered.
    judged: u8,
    short: ShortLabels<A>,
    long: LongLabels<A>,
}

impl<'s, A: Allocator, B: Allocator> Model for SetVerdicts<'s, A, B> {
    ghost use Rattle.std.specs.Prelude.{ℕ, List};

    ghost Value = { List (List ℕ) };

    ghost use Rattle.st_auth.specs.inner.Remembered.{AreHeld, AreKnown, itself, kept_text};

    ghost view = { λ v. v.auths.now };

    ghost invariant = { λ v. AreHeld v.auths.now v.long.recent × AreKnown itself v.auths.now v.short.cache.known.items
        × AreKnown kept_text v.auths.now v.long.cache.known.items };
}

impl<'s, A: Allocator + Copy, B: Allocator> SetVerdicts<'s, A, B> {
    /// An empty cache with room for 4,096 labels longer than [`st_text::MAX_SHORT`] bytes, and for `capacity` more. It
    /// allocates with the seventeenth label that is asked for, or later.
    pub fn new(alloc: A, capacity: NonZeroUsize, auths: &'s Auths<B>) -> SetVerdicts<'s, A, B>
        ensures { result ≡ auths.now }
    {
        SetVerdicts {
            auths,
            judged: 0,
            short: ShortLabels::new(alloc),
            long: LongLabels::new(alloc, capacity),
        }
    }

    /// Whether the label is true for the set, as [`crate::satisfies`] says. When out of
    /// memory it remembers nothing.
    pub fn ask<C: Allocator>(&mut self, label: &Label<C>) -> bool
        ensures value { result ≡ is_true (is_among self.old) label.now }
        ensures set { self.new ≡ self.old }
    {
        if self.judged < FEW {
            self.judged += 1;
            return satisfies(label, self.auths);
        }
        match self.short.ask(label, self.auths) {
            Some(verdict) => verdict,
            None => self.long.ask(label, self.auths),
        }
    }
}
