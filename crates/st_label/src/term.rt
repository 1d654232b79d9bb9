//! Terms of labels, as they are written.
ghost use Rattle.std.specs.Prelude.{◌≡◌, List, ℕ, Bool, false};
ghost use Rattle.std.specs.Cmp.Lexicographic.{slice_cmp};
ghost use Rattle.std.specs.Ordering.{nat_cmp};
ghost use Rattle.st_label.specs.inner.Terms.{unescaped_from};
ghost use Rattle.st_text.specs.Texts.{same};

use std::cmp::Ordering;
use std::marker::Model;

/// A term of a label, which stands for a name.
#[derive(Drop)]
pub struct Term<'a> {
    bytes: &'a [u8],
    quoted: bool,
}

impl<'a> Model for Term<'a> {
    ghost use Rattle.std.specs.Prelude.{ℕ, List};
    ghost use Rattle.st_label.specs.inner.Terms.{term_name};

    ghost Value = { List ℕ };

    ghost view = { λ t. term_name t.quoted t.bytes.now };
}

impl<'a> Term<'a> {
    // A name as it is.
    pub(crate) fn word(bytes: &'a [u8]) -> Term<'a>
        ensures { result ≡ bytes.now }
    {
        Term {
            bytes,
            quoted: false,
        }
    }

    // The bytes between quotes.
    pub(crate) fn quoted(bytes: &'a [u8]) -> Term<'a>
        ensures { result ≡ unescaped_from false bytes.now }
    {
        Term {
            bytes,
            quoted: true,
        }
    }

    /// Compares a name with the one that the term stands for, byte by byte. It allocates nothing.
    pub fn compare(&self, name: &str) -> Ordering
        ensures { result ≡ slice_cmp nat_cmp name.now self.now }
    {
        if self.quoted {
            compare_unescaped(name.as_bytes(), self.bytes)
        } else {
            name.as_bytes().cmp(self.bytes)
        }
    }

    /// Whether the term stands for this name. It allocates nothing.
    pub fn is(&self, name: &str) -> bool
        ensures { result ≡ same self.now name.now }
    {
        if self.quoted {
            compare_unescaped(name.as_bytes(), self.bytes).is_eq()
        } else {
            self.bytes == name.as_bytes()
        }
    }
}

// Compares a name with the bytes between quotes.
fn compare_unescaped(name: &[u8], quoted: &[u8]) -> Ordering
    ensures { result ≡ slice_cmp nat_cmp name.now (unescaped_from false quoted.now) }
{
    let mut rest = name;
    let mut behind = false;
    for b in quoted {
        if !behind && *b == b'\\' {
            behind = true;
        } else {
            behind = false;
            let Some((first, others)) = rest.split_first() else {
                return Ordering::Less;
            };
            match first.cmp(b) {
                Ordering::Equal => rest = others,
                order => return order,
            }
        }
    }
    if rest.is_empty() {
        Ordering::Equal
    } else {
        Ordering::Greater
    }
}

/// A set of names, for which a label is true or false.
pub trait Names {
    ghost among: { Self → List ℕ → Bool };

    /// Whether the term's name is one of them.
    fn has_term(&self, term: &Term<'_>) -> bool
        ensures { result ≡ among self.now term.now };
}

// The set of no names.
#[derive(Drop)]
pub(crate) struct Nobody;

impl Names for Nobody {
    ghost among = { λ _ _. false };

    fn has_term(&self, _term: &Term<'_>) -> bool {
        false
    }
}
