//! Ids of rows.
ghost use Rattle.std.specs.Prelude.{◌≡◌, ◌↔◌, IfOk, IfSome, IsSome};
ghost use Rattle.st_index.specs.Texts.{IsId};
ghost use Rattle.st_text.specs.Texts.{same};

use st_text::CompactText;
use std::alloc::{AllocError, Allocator, Global};
use std::marker::Model;

/// The greatest length of an id, in bytes.
pub const MAX_ID: usize = 64;

/// The id of a row: a text of 1 to [`MAX_ID`] bytes. One of at most 14 bytes takes no memory of its own.
#[derive(Drop)]
pub struct Id<A: Allocator = Global> {
    alloc: A,
    text: CompactText<A>,
}

impl<A: Allocator> Model for Id<A> {
    ghost use Rattle.std.specs.Prelude.{ℕ, List};
    ghost use Rattle.st_index.specs.Texts.{IsId};

    ghost Value = { List ℕ };

    ghost view = { λ i. i.text };

    ghost invariant = { λ i. IsId i.text };
}

impl<A: Allocator + Copy> Id<A> {
    /// The id, or `None` where the text is empty or longer than [`MAX_ID`] bytes. An error if memory runs out.
    pub fn new(alloc: A, text: &str) -> Result<Option<Id<A>>, AllocError>
        ensures fits { IfOk result (λ id. IsSome id ↔ IsId text.now) }
        ensures value { IfOk result (λ id. IfSome id (λ i. i ≡ text.now)) }
    {
        if text.is_empty() || text.len() > MAX_ID {
            return Ok(None);
        }
        let text = CompactText::new(alloc, text)?;
        Ok(Some(Id { alloc, text }))
    }

    /// An equal id, or an error if memory runs out.
    pub fn copy(&self) -> Result<Id<A>, AllocError>
        ensures { IfOk result (λ id. id ≡ self.now) }
    {
        let alloc = self.alloc;
        let text = self.text.copy()?;
        Ok(Id { alloc, text })
    }

    // The allocator.
    pub(crate) fn alloc(&self) -> A {
        self.alloc
    }
}

impl<A: Allocator> Id<A> {
    /// The text.
    pub fn as_str(&self) -> &str
        ensures value { result.now ≡ self.now }
        ensures fits { IsId result.now }
    {
        self.text.as_str()
    }

    /// Whether this is the text, byte by byte.
    pub fn is(&self, text: &str) -> bool
        ensures { result ≡ same self.now text.now }
    {
        self.text.is(text)
    }
}
