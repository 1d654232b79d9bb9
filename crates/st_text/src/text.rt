//! Texts of a fixed capacity.
ghost use Rattle.std.specs.Prelude.{◌≡◌, ◌↔◌, ◌≤◌, IsSome, IfSome, length};
ghost use Rattle.st_text.specs.Texts.{same};

use arrayvec::ArrayString;
use std::marker::Model;

/// A text of at most `CAP` bytes of UTF-8, stored in the value itself.
#[derive(Debug, Drop)]
pub struct Text<const CAP: usize> {
    bytes: ArrayString<CAP>,
}

impl<const CAP: usize> Model for Text<CAP> {
    ghost use Rattle.std.specs.Prelude.{ℕ, List};

    ghost Value = { List ℕ };

    ghost view = { λ t. t.bytes.bytes };
}

impl<const CAP: usize> Text<CAP> {
    /// The text, or `None` when it has more than `CAP` bytes.
    pub fn new(text: &str) -> Option<Text<CAP>>
        ensures fits { IsSome result ↔ (length text.now ≤ CAP) }
        ensures value { IfSome result (λ t. t ≡ text.now) }
    {
        let mut bytes = ArrayString::new();
        match bytes.try_push_str(text) {
            Ok(()) => Some(Text { bytes }),
            Err(_) => None,
        }
    }

    /// An equal text.
    pub fn copy(&self) -> Text<CAP>
        ensures { result ≡ self.now }
    {
        Text { bytes: self.bytes }
    }

    /// The text.
    pub fn as_str(&self) -> &str
        ensures value { result.now ≡ self.now }
        ensures fits { length result.now ≤ CAP }
    {
        self.bytes.as_str()
    }

    /// Whether this is the text, byte by byte.
    pub fn is(&self, text: &str) -> bool
        ensures { result ≡ same self.now text.now }
    {
        self.bytes.as_str() == text
    }
}
