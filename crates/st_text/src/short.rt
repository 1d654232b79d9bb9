//! Texts of at most 14 bytes.
//!
//! `ShortText::mixed` has no clause, since each text that it leads to is compared.
ghost use Rattle.std.specs.Prelude.{ℕ, ◌≡◌, ◌≤◌, ◌<◌, ◌++◌, ◌∷◌, [], IsSome, IfSome, IsTrue, ◌↔◌, length, take, drop, slice_index};
ghost use Rattle.st_text.specs.Texts.{same};
ghost use Rattle.st_text.specs.inner.Packed.{word};

use std::marker::Model;
use std::str;

/// The greatest length of a [`ShortText`], in bytes.
pub const MAX_SHORT: usize = 14;

// The factor of a number that is made of a text, whose highest bits depend on all bits that are multiplied.
const FACTOR: u64 = 0x9e37_79b9_7f4a_7c15;

/// A text of at most [`MAX_SHORT`] bytes, stored in the value itself: 15 bytes in all.
#[derive(Drop)]
pub struct ShortText {
    len: u8,
    bytes: [u8; MAX_SHORT],
}

const _: () = prove!(size_of::<ShortText>() == 15);

impl Model for ShortText {
    ghost use Rattle.std.specs.Prelude.{ℕ, ◌≡◌, ◌≤◌, ◌-◌, ◌++◌, List, take, replicate, IsUtf8};
    ghost use Rattle.st_text.specs.declared.short.TheConstants.{MAX_SHORT};

    ghost Value = { List ℕ };

    ghost view = { λ t. take t.len t.bytes };

    // The bytes behind the text are 0, so that equal texts are stored in equal bytes.
    ghost invariant = { λ t. (t.len ≤ MAX_SHORT) × ∥ IsUtf8 (take t.len t.bytes) ∥₁
        × (t.bytes ≡ take t.len t.bytes ++ replicate (MAX_SHORT - t.len) 0) };
}

impl ShortText {
    /// The text, or `None` when it is longer than [`MAX_SHORT`] bytes.
    pub fn new(text: &str) -> Option<ShortText>
        ensures fits { IsSome result ↔ (length text.now ≤ MAX_SHORT) }
        ensures value { IfSome result (λ t. t ≡ text.now) }
    {
        if text.len() > MAX_SHORT {
            return None;
        }
        let mut bytes = [0; MAX_SHORT];
        bytes[..text.len()].copy_from_slice(text.as_bytes());
        Some(ShortText {
            len: text.len() as u8,
            bytes,
        })
    }

    /// An equal text.
    pub fn copy(&self) -> ShortText
        ensures { result ≡ self.now }
    {
        ShortText {
            len: self.len,
            bytes: self.bytes,
        }
    }

    /// The text.
    pub fn as_str(&self) -> &str
        ensures value { result.now ≡ self.now }
        ensures fits { length result.now ≤ MAX_SHORT }
    {
        unsafe { str::from_utf8_unchecked(&self.bytes[..self.len as usize]) }
    }

    /// Whether the two texts are equal. It compares the bytes that they are stored in, and takes a few instructions.
    pub fn is_same(&self, other: &ShortText) -> bool
        ensures { IsTrue result ↔ (self.now ≡ other.now) }
    {
        if self.len != other.len {
            return false;
        }
        let mine = words(&self.bytes);
        let others = words(&other.bytes);
        mine.0 == others.0 && mine.1 == others.1
    }

    /// A number of 64 bits that depends on the length and on all bytes of the text. Equal texts have equal numbers.
    pub fn mixed(&self) -> u64 {
        let (low, high) = words(&self.bytes);
        (low ^ high.rotate_left(29))
            .wrapping_add(self.len as u64)
            .wrapping_mul(FACTOR)
    }

    /// Whether this is the text, byte by byte.
    pub fn is(&self, text: &str) -> bool
        ensures { result ≡ same self.now text.now }
    {
        self.as_str() == text
    }
}

// The bytes as two numbers, which no other bytes have.
fn words(bytes: &[u8; MAX_SHORT]) -> (u64, u64)
    ensures low { result.0 ≡ word (take 8 bytes.now) }
    ensures high { result.1 ≡ word (drop 8 bytes.now ++ 0 ∷ 0 ∷ []) }
    ensures bytes { (i : ℕ) → slice_index bytes.now i < 256 }
{
    let [a, b, c, d, e, f, g, h, i, j, k, l, m, n] = *bytes;
    let low = u64::from_le_bytes([a, b, c, d, e, f, g, h]);
    let high = u64::from_le_bytes([i, j, k, l, m, n, 0, 0]);
    (low, high)
}
