//! Names of users and of namespaces.
ghost use Rattle.std.specs.Prelude.{◌≡◌, ◌↔◌, IsOk, IsTrue, IfOk};
ghost use Rattle.std.specs.List.{list_all};
ghost use Rattle.st_text.specs.Names.{is_name, is_name_byte};
ghost use Rattle.st_text.specs.Texts.{same};

use st_text::Text;
use std::marker::Model;

/// The text is not a name.
#[derive(Clone, Copy, PartialEq, Eq, Debug)]
pub struct BadName;

/// The name of a user or of a namespace: 1 to 32 bytes of `A-Z a-z 0-9 _`.
#[derive(Debug, Drop)]
pub struct Name {
    text: Text<32>,
}

impl Model for Name {
    ghost use Rattle.std.specs.Prelude.{ℕ, List, IsTrue};
    ghost use Rattle.st_text.specs.Names.{is_name};

    ghost Value = { List ℕ };

    ghost view = { λ n. n.text };

    ghost invariant = { λ n. IsTrue (is_name n.text) };
}

// Whether a name may have this byte.
fn is_byte_of_name(byte: u8) -> bool
    ensures { result ≡ is_name_byte byte }
{
    byte.is_ascii_alphanumeric() || byte == b'_'
}

// Whether a name may have each of these bytes.
fn are_bytes_of_name(text: &[u8]) -> bool
    ensures { result ≡ list_all is_name_byte text.now }
{
    text.iter().all(|byte| is_byte_of_name(*byte))
}

// Whether a text is a name.
pub(crate) fn is_text_of_name(text: &str) -> bool
    ensures { result ≡ is_name text.now }
{
    0 < text.len() && text.len() <= 32 && are_bytes_of_name(text.as_bytes())
}

impl Name {
    /// The name with this text, or `BadName` if the text is not one.
    pub fn new(text: &str) -> Result<Name, BadName>
        ensures named { IsOk result ↔ IsTrue (is_name text.now) }
        ensures value { IfOk result (λ name. name ≡ text.now) }
    {
        if !is_text_of_name(text) {
            return Err(BadName);
        }
        match Text::new(text) {
            Some(text) => Ok(Name { text }),
            None => Err(BadName),
        }
    }

    /// An equal name.
    pub fn copy(&self) -> Name
        ensures { result ≡ self.now }
    {
        Name {
            text: self.text.copy(),
        }
    }

    /// The text of the name.
    pub fn as_str(&self) -> &str
        ensures value { result.now ≡ self.now }
        ensures name { IsTrue (is_name self.now) }
    {
        self.text.as_str()
    }

    /// Whether this is the name's text, byte by byte.
    pub fn is(&self, text: &str) -> bool
        ensures { result ≡ same self.now text.now }
    {
        self.text.is(text)
    }
}
