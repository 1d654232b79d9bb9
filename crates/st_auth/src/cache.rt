//! A cache of verdicts on labels.
ghost use Rattle.std.specs.Prelude.{◌≡◌, List, IfSome};
ghost use Rattle.st_label.specs.Reading.{is_true};
ghost use Rattle.st_text.specs.Texts.{Text, is_among};
ghost use Rattle.st_auth.specs.inner.Remembered.{AreKnown};

use st_label::Label;
use std::alloc::Allocator;

// How many slots there are at first.
const FEWEST: usize = 64;

// How many slots there are at most.
const MOST_SLOTS: usize = 32_768;

// What stands in a slot of no label.
const FREE: u16 = u16::MAX;

// In how many consecutive slots a label may be.
const STEPS: usize = 4;

/// How a cache remembers a label's text.
pub trait CacheKey: Drop {
    ghost use Rattle.std.specs.Prelude.{◌≡◌, ℕ, List, IsTrue};

    ghost text: { Self → List ℕ };

    /// A hash of the text.
    fn hash(&self) -> usize;

    /// Whether it is the label's text.
    fn is<B: Allocator>(&self, label: &Label<B>) -> bool
        ensures { IsTrue result → text self.now ≡ label.now };
}

// A label's text and whether it is true.
#[derive(Drop)]
struct Known<T: CacheKey> {
    text: T,
    verdict: bool,
}

/// A cache of the verdicts on labels. A label that finds no free slot replaces another. It allocates with the
/// first label, and grows with how many there are.
#[derive(Drop)]
pub struct Cache<T: CacheKey, A: Allocator> {
    // How many labels are known at most.
    most: usize,
    // The index in `known` of each slot's label. A free slot has an index past its end. Their number is a power of two, or 0.
    slots: Vec<u16, A>,
    known: Vec<Known<T>, A>,
}

impl<T: CacheKey, A: Allocator + Copy> Cache<T, A> {
    /// The empty cache, for so many labels.
    pub fn new(alloc: A, most: usize) -> Cache<T, A>
        ensures { (names : List Text) → AreKnown T.text names result.known.items }
    {
        Cache {
            most,
            slots: Vec::new(alloc),
            known: Vec::new(alloc),
        }
    }

    /// Forgets all labels.
    pub fn forget(&mut self)
        ensures { (names : List Text) → AreKnown T.text names self.new.known.items }
    {
        self.slots.clear();
        self.known.clear();
    }

    /// Whether there are as many labels as there may be.
    pub fn is_full(&self) -> bool {
        self.known.len() >= self.most
    }

    /// The verdict on a label of this hash, if it is remembered.
    pub fn verdict<B: Allocator>(&self, hash: usize, label: &Label<B>) -> Option<bool>
        ensures { (names : List Text) → AreKnown T.text names self.now.known.items
            → IfSome result (λ verdict. verdict ≡ is_true (is_among names) label.now) }
    {
        for step in 0..STEPS {
            let number = *self.slots.get(slot_at(&self.slots, hash, step))?;
            let known = self.known.get(number as usize)?;
            if known.text.is(label) {
                return Some(known.verdict);
            }
        }
        None
    }

    /// Remembers the verdict on a label, if memory suffices.
    pub fn keep(&mut self, text: T, verdict: bool)
        ensures { (names : List Text) → verdict ≡ is_true (is_among names) (T.text text)
            → AreKnown T.text names self.old.known.items → AreKnown T.text names self.new.known.items }
    {
        self.grow();
        let count = self.known.len();
        let slot = slot_for(&self.slots, text.hash(), count);
        let Some(place) = self.slots.get_mut(slot) else {
            return;
        };
        let number = *place as usize;
        let known = Known { text, verdict };
        if number < count {
            self.known[number] = known;
        } else if count < self.most && self.known.push(known).is_ok() {
            *place = count as u16;
        }
    }

    // Makes more slots where a quarter of them have a label, if memory suffices.
    fn grow(&mut self)
        ensures { self.new.known ≡ self.old.known }
    {
        if self.known.len() < self.slots.len() / 4 || self.slots.len() >= MOST_SLOTS {
            return;
        }
        let many = (self.slots.len() * 4).max(FEWEST);
        let alloc = *self.known.allocator();
        let Ok(mut slots) = vec![in alloc; FREE; many] else {
            return;
        };
        fill(&mut slots, &self.known);
        self.slots = slots;
    }
}

// Finds each label a slot.
fn fill<T: CacheKey>(slots: &mut [u16], known: &[Known<T>]) {
    for (number, label) in known.iter().enumerate() {
        let slot = slot_for(slots, label.text.hash(), known.len());
        let Some(place) = slots.get_mut(slot) else {
            return;
        };
        *place = u16::try_from(number).unwrap_or(FREE);
    }
}

// The first free slot of those that a label of this hash may have, or the first of them, where so many labels are known.
fn slot_for(slots: &[u16], hash: usize, count: usize) -> usize {
    for step in 0..STEPS {
        let slot = slot_at(slots, hash, step);
        match slots.get(slot) {
            Some(number) if (*number as usize) < count => {}
            _ => return slot,
        }
    }
    slot_at(slots, hash, 0)
}

// The slot that is so many steps behind the first one of a hash.
fn slot_at(slots: &[u16], hash: usize, step: usize) -> usize {
    hash.wrapping_add(step) & slots.len().wrapping_sub(1)
}
