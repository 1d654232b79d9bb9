//! Texts of any length.
ghost use Rattle.std.specs.Prelude.{◌≡◌, IfOk};
ghost use Rattle.st_text.specs.Texts.{same};

use std::alloc::{AllocError, Allocator, Global};
use std::marker::Model;

/// A text of any length, on the heap.
#[derive(Drop)]
pub struct Words<A: Allocator = Global> {
    text: String<A>,
}

impl<A: Allocator> Model for Words<A> {
    ghost use Rattle.std.specs.Prelude.{ℕ, List, string_bytes};

    ghost Value = { List ℕ };

    ghost view = { λ w. string_bytes w.text };
}

impl<A: Allocator + Copy> Words<A> {
    /// A copy of the text. `AllocError` when out of memory.
    pub fn new(alloc: A, text: &str) -> Result<Words<A>, AllocError>
        ensures { IfOk result (λ words. words ≡ text.now) }
    {
        let text = String::from_str(alloc, text)?;
        Ok(Words { text })
    }

    /// An equal text. `AllocError` when out of memory.
    pub fn copy(&self) -> Result<Words<A>, AllocError>
        ensures { IfOk result (λ words. words ≡ self.now) }
    {
        let text = self.text.clone()?;
        Ok(Words { text })
    }
}

impl<A: Allocator> Words<A> {
    /// The text.
    pub fn as_str(&self) -> &str
        ensures { result.now ≡ self.now }
    {
        self.text.as_str()
    }

    /// Whether this is the text, byte by byte.
    pub fn is(&self, text: &str) -> bool
        ensures { result ≡ same self.now text.now }
    {
        self.text.as_str() == text
    }
}
