//! A cache of verdicts on long labels.
ghost use Rattle.std.specs.Prelude.{◌≡◌, List};
ghost use Rattle.std.specs.Map.{lookup};
ghost use Rattle.st_label.specs.Reading.{is_true};
ghost use Rattle.st_text.specs.Texts.{Text, is_among};
ghost use Rattle.st_auth.specs.inner.Remembered.{AreOf, AreHeld, AreKnown, has_text, kept_text};
ghost use Rattle.lru.specs.LruCache.{lru_cache, promoted};

use crate::auths::Auths;
use crate::cache::{Cache, CacheKey};
use crate::long_text::LongText;
use crate::truth::satisfies;
use lru::{DefaultHasher, LruCache};
use st_label::Label;
use std::alloc::Allocator;
use std::num::NonZeroUsize;

// How many labels the first cache knows at most.
const MOST: usize = 4_096;

// The factor of a hash, whose highest bits depend on all bits that are multiplied.
const FACTOR: u64 = 0x9e37_79b9_7f4a_7c15;

type Recent<A> = LruCache<String<A>, bool, DefaultHasher, A>;

/// A cache of the verdicts on labels. The first 4,096 stay. The others are in a second cache that forgets, when it is
/// full, the label that was asked for longest ago. Both allocate with their first label.
#[derive(Drop)]
pub struct LongLabels<A: Allocator> {
    alloc: A,
    pub capacity: NonZeroUsize,
    cache: Cache<LongText<A>, A>,
    recent: Option<Recent<A>>,
}

impl<A: Allocator + Copy> LongLabels<A> {
    /// An empty cache with room for `capacity` labels beyond the first 4,096.
    pub fn new(alloc: A, capacity: NonZeroUsize) -> LongLabels<A>
        ensures capacity { result.capacity ≡ capacity }
        ensures known { (names : List Text) → AreKnown kept_text names result.cache.known.items }
        ensures held { (names : List Text) → AreHeld names result.recent }
    {
        LongLabels {
            alloc,
            capacity,
            cache: Cache::new(alloc, MOST),
            recent: None,
        }
    }

    /// Forgets all labels.
    pub fn forget(&mut self)
        ensures capacity { self.new.capacity ≡ self.old.capacity }
        ensures known { (names : List Text) → AreKnown kept_text names self.new.cache.known.items }
        ensures held { (names : List Text) → AreHeld names self.new.recent }
    {
        self.cache.forget();
        self.recent = None;
    }

    /// Whether the label is true for the set. When out of memory it remembers nothing.
    pub fn ask<B: Allocator, C: Allocator>(&mut self, label: &Label<B>, auths: &Auths<C>) -> bool
        requires known { AreKnown kept_text auths.now self.old.cache.known.items }
        requires held { AreHeld auths.now self.old.recent }
        ensures value { result ≡ is_true (is_among auths.now) label.now }
        ensures known { AreKnown kept_text auths.now self.new.cache.known.items }
        ensures held { AreHeld auths.now self.new.recent }
        ensures capacity { self.new.capacity ≡ self.old.capacity }
    {
        if let Some(verdict) = self.cache.verdict(hash_of(label.text()), label) {
            return verdict;
        }
        if self.cache.is_full() {
            return self.ask_recent(label, auths);
        }
        let verdict = satisfies(label, auths);
        if let Ok(text) = LongText::new(self.alloc, label.text()) {
            self.cache.keep(text, verdict);
        }
        verdict
    }

    // Whether the label, which the first cache has no room for, is true for the set.
    fn ask_recent<B: Allocator, C: Allocator>(&mut self, label: &Label<B>, auths: &Auths<C>) -> bool
        requires held { AreHeld auths.now self.old.recent }
        ensures value { result ≡ is_true (is_among auths.now) label.now }
        ensures held { AreHeld auths.now self.new.recent }
        ensures cache { self.new.cache ≡ self.old.cache }
        ensures capacity { self.new.capacity ≡ self.old.capacity }
    {
        let Some(mut recent) = recent_of(self.alloc, self.capacity, self.recent.take()) else {
            return satisfies(label, auths);
        };
        let verdict = ask_in(self.alloc, &mut recent, label, auths);
        self.recent = Some(recent);
        verdict
    }
}

impl<A: Allocator> CacheKey for LongText<A> {
    ghost text = { kept_text };

    fn hash(&self) -> usize {
        hash_of(self.as_str())
    }

    fn is<B: Allocator>(&self, label: &Label<B>) -> bool {
        self.as_str() == label.text()
    }
}

// A hash of a text, which depends on its length and all its bytes.
fn hash_of(text: &str) -> usize {
    let bytes = text.as_bytes();
    let mut mixed = bytes.len() as u64;
    for number in 0..bytes.len() / 8 {
        mixed = (mixed.rotate_left(29) ^ word_at(bytes, number * 8)).wrapping_mul(FACTOR);
    }
    let last = word_at(bytes, bytes.len().saturating_sub(8));
    ((mixed.rotate_left(29) ^ last).wrapping_mul(FACTOR) >> 49) as usize
}

// The eight bytes from a place on as one number, or 0 where there are fewer.
fn word_at(bytes: &[u8], place: usize) -> u64 {
    match bytes.get(place..) {
        Some([a, b, c, d, e, f, g, h, ..]) => {
            u64::from_le_bytes([*a, *b, *c, *d, *e, *f, *g, *h])
        }
        _ => 0,
    }
}

// The cache, or an empty one when there is none yet. `None` when out of memory.
fn recent_of<A: Allocator + Copy>(
    alloc: A,
    capacity: NonZeroUsize,
    recent: Option<Recent<A>>,
) -> Option<Recent<A>>
    ensures { (names : List Text) → AreHeld names recent → AreHeld names result }
{
    match recent {
        Some(recent) => Some(recent),
        None => match LruCache::new(alloc, capacity) {
            Ok(recent) => Some(recent),
            Err(_) => None,
        },
    }
}

// Whether the label is true for the set, from the cache or computed now.
fn ask_in<A: Allocator + Copy, B: Allocator, C: Allocator>(
    alloc: A,
    recent: &mut Recent<A>,
    label: &Label<B>,
    auths: &Auths<C>,
) -> bool
    requires entries { AreOf auths.now recent.old.entries }
    ensures value { result ≡ is_true (is_among auths.now) label.now }
    ensures entries { AreOf auths.now recent.new.entries }
{
    if let Some(verdict) = recall(recent, label.text()) {
        return verdict;
    }
    let verdict = satisfies(label, auths);
    remember(alloc, recent, label.text(), verdict);
    verdict
}

// The verdict that the cache remembers.
fn recall<A: Allocator + Copy>(recent: &mut Recent<A>, text: &str) -> Option<bool>
    ensures value { result ≡ lookup (has_text text.now) recent.old.entries }
    ensures entries { recent.new ≡ lru_cache (promoted (has_text text.now) recent.old.entries) recent.old.cap }
{
    recent.get(text).copied()
}

// Remembers the verdict. When out of memory the cache is unchanged.
fn remember<A: Allocator + Copy>(alloc: A, recent: &mut Recent<A>, text: &str, verdict: bool)
    ensures { (names : List Text) → verdict ≡ is_true (is_among names) text.now
        → AreOf names recent.old.entries → AreOf names recent.new.entries }
{
    if let Ok(text) = String::from_str(alloc, text) {
        let _kept = recent.put(text, verdict);
    }
}
