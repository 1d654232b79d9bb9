//! A cache of verdicts on short labels.
ghost use Rattle.std.specs.Prelude.{◌≡◌, List, IfSome};
ghost use Rattle.st_label.specs.Reading.{is_true};
ghost use Rattle.st_text.specs.Texts.{Text, is_among};
ghost use Rattle.st_auth.specs.inner.Remembered.{AreKnown, itself};

use crate::auths::Auths;
use crate::cache::{Cache, CacheKey};
use crate::truth::satisfies;
use st_label::Label;
use st_text::ShortText;
use std::alloc::Allocator;

// How many labels are known at most.
const MOST: usize = 8_192;

/// A cache of the verdicts on labels of at most [`st_text::MAX_SHORT`] bytes. It allocates with the first label,
/// and grows with how many there are, up to 8,192 labels.
#[derive(Drop)]
pub struct ShortLabels<A: Allocator> {
    cache: Cache<ShortText, A>,
}

impl<A: Allocator + Copy> ShortLabels<A> {
    /// The empty cache.
    pub fn new(alloc: A) -> ShortLabels<A>
        ensures { (names : List Text) → AreKnown itself names result.cache.known.items }
    {
        ShortLabels {
            cache: Cache::new(alloc, MOST),
        }
    }

    /// Forgets all labels.
    pub fn forget(&mut self)
        ensures { (names : List Text) → AreKnown itself names self.new.cache.known.items }
    {
        self.cache.forget();
    }

    /// Whether the label is true for the set, or `None` when its text is not short.
    pub fn ask<B: Allocator, C: Allocator>(
        &mut self,
        label: &Label<B>,
        auths: &Auths<C>,
    ) -> Option<bool>
        requires known { AreKnown itself auths.now self.old.cache.known.items }
        ensures value { IfSome result (λ verdict. verdict ≡ is_true (is_among auths.now) label.now) }
        ensures known { AreKnown itself auths.now self.new.cache.known.items }
    {
        let text = label.as_short()?;
        if let Some(verdict) = self.cache.verdict(text.hash(), label) {
            return Some(verdict);
        }
        let verdict = satisfies(label, auths);
        self.cache.keep(text.copy(), verdict);
        Some(verdict)
    }
}

impl CacheKey for ShortText {
    ghost text = { λ t. t };

    fn hash(&self) -> usize {
        (self.mixed() >> 49) as usize
    }

    fn is<B: Allocator>(&self, label: &Label<B>) -> bool {
        match label.as_short() {
            Some(text) => self.is_same(text),
            None => false,
        }
    }
}
