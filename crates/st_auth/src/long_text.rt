//! The text of a long label, as a cache of verdicts keeps it.
ghost use Rattle.std.specs.Prelude.{◌≡◌, IfOk};
ghost use Rattle.st_auth.specs.inner.Remembered.{kept_text};

use st_text::{Text, Words};
use std::alloc::{AllocError, Allocator};

// The greatest length of a text that is stored in the value itself, in bytes.
const MAX_INLINE: usize = 48;

/// The text of a label: in the value itself up to 48 bytes, else on the heap. So a cache of such texts is one block of memory, and
/// not one more for each.
#[derive(Drop)]
pub enum LongText<A: Allocator> {
    Inline(Text<MAX_INLINE>),
    Heap(Words<A>),
}

impl<A: Allocator + Copy> LongText<A> {
    /// A copy of the text. `AllocError` when it is longer than 48 bytes and memory runs out.
    pub fn new(alloc: A, text: &str) -> Result<LongText<A>, AllocError>
        ensures { IfOk result (λ kept. kept_text kept ≡ text.now) }
    {
        match Text::new(text) {
            Some(short) => Ok(LongText::Inline(short)),
            None => Ok(LongText::Heap(Words::new(alloc, text)?)),
        }
    }
}

impl<A: Allocator> LongText<A> {
    /// The text.
    pub fn as_str(&self) -> &str
        ensures { result.now ≡ kept_text self.now }
    {
        match self {
            LongText::Inline(text) => text.as_str(),
            LongText::Heap(text) => text.as_str(),
        }
    }
}
