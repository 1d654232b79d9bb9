//! Texts of any length. Short ones allocate nothing.
ghost use Rattle.std.specs.Prelude.{◌≡◌, IfOk, IfSome};
ghost use Rattle.st_text.specs.Texts.{same};
ghost use Rattle.st_text.specs.inner.Compact.{stored_bytes};

use crate::short::{MAX_SHORT, ShortText};
use crate::text::Text;
use std::alloc::{AllocError, Allocator, Global};
use std::marker::Model;

// The greatest length of a text that lies in one block of the heap, in bytes.
const MAX_MEDIUM: usize = 48;

type MediumText = Text<MAX_MEDIUM>;

const _: () = prove!(size_of::<MediumText>() == 56);

// Where the bytes of a text are stored: in the value itself, in one block, or in a block behind another.
#[derive(Drop)]
enum Storage<A: Allocator> {
    Inline(ShortText),
    Boxed(Box<MediumText, A>),
    Heap(Box<String<A>, A>),
}

/// A text of any length. Up to [`MAX_SHORT`] bytes are stored in the value itself, more on the heap.
/// The value takes 16 bytes when its allocator takes none.
#[derive(Drop)]
pub struct CompactText<A: Allocator = Global> {
    alloc: A,
    storage: Storage<A>,
}

const _: () = prove!(size_of::<CompactText>() == 16);

impl<A: Allocator> Model for CompactText<A> {
    ghost use Rattle.std.specs.Prelude.{ℕ, List};
    ghost use Rattle.st_text.specs.inner.Compact.{stored_bytes};

    ghost Value = { List ℕ };

    ghost view = { λ t. stored_bytes t.storage };
}

impl<A: Allocator + Copy> CompactText<A> {
    /// A copy of the text. `AllocError` when it is longer than [`MAX_SHORT`] bytes and memory runs out.
    pub fn new(alloc: A, text: &str) -> Result<CompactText<A>, AllocError>
        ensures { IfOk result (λ compact. compact ≡ text.now) }
    {
        match ShortText::new(text) {
            Some(short) => Ok(CompactText {
                alloc,
                storage: Storage::Inline(short),
            }),
            None => Ok(CompactText {
                alloc,
                storage: on_heap(alloc, text)?,
            }),
        }
    }

    /// An equal text. `AllocError` when it is longer than [`MAX_SHORT`] bytes and memory runs out.
    pub fn copy(&self) -> Result<CompactText<A>, AllocError>
        ensures { IfOk result (λ compact. compact ≡ self.now) }
    {
        match &self.storage {
            Storage::Inline(short) => Ok(CompactText {
                alloc: self.alloc,
                storage: Storage::Inline(short.copy()),
            }),
            Storage::Boxed(text) => CompactText::new(self.alloc, text.as_str()),
            Storage::Heap(text) => CompactText::new(self.alloc, text.as_str()),
        }
    }
}

impl<A: Allocator> CompactText<A> {
    /// The text.
    pub fn as_str(&self) -> &str
        ensures { result.now ≡ self.now }
    {
        match &self.storage {
            Storage::Inline(short) => short.as_str(),
            Storage::Boxed(text) => text.as_str(),
            Storage::Heap(text) => text.as_str(),
        }
    }

    /// The text as a short one, where it is stored in the value itself.
    pub fn as_short(&self) -> Option<&ShortText>
        ensures value { IfSome result (λ short. short.now ≡ self.now) }
    {
        match &self.storage {
            Storage::Inline(short) => Some(short),
            Storage::Boxed(_) | Storage::Heap(_) => None,
        }
    }

    /// Whether this is the text, byte by byte.
    pub fn is(&self, text: &str) -> bool
        ensures { result ≡ same self.now text.now }
    {
        self.as_str() == text
    }
}

// A text on the heap: in one block where it fits, else in two.
fn on_heap<A: Allocator + Copy>(alloc: A, text: &str) -> Result<Storage<A>, AllocError>
    ensures { IfOk result (λ storage. stored_bytes storage ≡ text.now) }
{
    match MediumText::new(text) {
        Some(medium) => Ok(Storage::Boxed(Box::new(alloc, medium)?)),
        None => Ok(Storage::Heap(Box::new(alloc, String::from_str(alloc, text)?)?)),
    }
}
