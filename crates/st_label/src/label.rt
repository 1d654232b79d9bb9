//! Labels: their text as written, and what it means.
//!
//! Behind a short text its bytes are 0, so two short texts are compared as two numbers of 64 bits. No clause says which texts lie
//! in the value.
ghost use Rattle.std.specs.Prelude.{◌≡◌, ◌↔◌, ◌≤◌, IfOk, IfErr, IfSome, IsTrue, length, string_bytes};
ghost use Rattle.st_label.specs.Reading.{reading, is_true, IsLabel};
ghost use Rattle.st_label.specs.inner.Views.{tree_view};
ghost use Rattle.st_label.specs.declared.label.LabelFault.TheVariants.{NoMemory};
ghost use Rattle.st_label.specs.Normal.{normal as normal_of, normal_text, tree_text};
ghost use Rattle.st_label.specs.Faults.{RefusesLabel};

use crate::normal::normal;
use crate::print::push_tree;
use crate::reader::{ReadFault, Reader};
use crate::term::{Names, Nobody};
use crate::tree::Tree;
use crate::truth::judge;
use st_text::{CompactText, ShortText};
use std::alloc::{AllocError, Allocator, Global};
use std::marker::Model;
use thiserror::Error;

/// The greatest length of a label's text, in bytes.
pub const MAX_LEN: usize = 256;

/// Why a text is not a label. `at` is an index of a byte of the text.
#[derive(Clone, Copy, PartialEq, Eq, Debug, Error)]
pub enum LabelFault {
    /// The first byte that no label continues with, whatever its depth, or the text's length when the
    /// text begins a label but is not one.
    #[error("an invalid label: it fails at byte {at}")]
    BadLabel { at: usize },
    /// The text is longer than [`MAX_LEN`] bytes.
    #[error("the label is longer than {MAX_LEN} bytes")]
    TooLong,
    /// The parenthesis that opens one level more than allowed.
    #[error("the parenthesis at byte {at} opens too many levels")]
    TooDeep { at: usize },
    /// Out of memory.
    #[error("out of memory")]
    NoMemory,
}

impl From<AllocError> for LabelFault {
    ghost from_gives = { λ _ e. e ≡ NoMemory };

    fn from(_e: AllocError) -> LabelFault {
        LabelFault::NoMemory
    }
}

/// A visibility label: a text of Accumulo's grammar of column visibilities, of at most [`MAX_LEN`]
/// bytes. Labels are equal where their texts are: `A&B` and `B&A` are two labels.
#[derive(Drop)]
pub struct Label<A: Allocator = Global> {
    alloc: A,
    text: CompactText<A>,
}

impl<A: Allocator> Model for Label<A> {
    ghost use Rattle.std.specs.Prelude.{ℕ, List};

    ghost Value = { List ℕ };

    ghost use Rattle.st_label.specs.Reading.{IsLabel};

    ghost view = { λ l. l.text };

    ghost invariant = { λ l. IsLabel l.text };
}

impl<A: Allocator + Copy> Label<A> {
    /// Reads a label. The grammar is that of Accumulo's column visibilities. Between quotes any
    /// character is allowed, with a backslash before a quote and before a backslash. A text of at most
    /// [`st_text::MAX_SHORT`] bytes allocates nothing.
    pub fn parse(alloc: A, text: &str) -> Result<Label<A>, LabelFault>
        ensures text { IfOk result (λ label. label ≡ text.now) }
        ensures label { IfOk result (λ _. IsLabel text.now) }
        ensures fault { IfErr result (λ fault. RefusesLabel text.now fault) }
    {
        if text.len() > MAX_LEN {
            return Err(LabelFault::TooLong);
        }
        if let Err(fault) = judge(text.as_bytes(), &Nobody) {
            return Err(fault);
        }
        let text = CompactText::new(alloc, text)?;
        Ok(Label { alloc, text })
    }

    /// An equal label. `AllocError` when out of memory.
    pub fn copy(&self) -> Result<Label<A>, AllocError>
        ensures { IfOk result (λ other. other ≡ self.now) }
    {
        Ok(Label {
            alloc: self.alloc,
            text: self.text.copy()?,
        })
    }

    /// The label's normal form, which is true for the same names. An operand with the same operator is
    /// replaced by its own operands; operands are sorted by the bytes that they print as, and repeats
    /// dropped; a single operand replaces the whole. A name is in quotes only where it must be.
    /// `AllocError` when out of memory.
    pub fn normal(&self) -> Result<Label<A>, AllocError>
        ensures { IfOk result (λ label. label ≡ normal_text self.now) }
    {
        let text = normal_form(self.alloc, self.text())?;
        Ok(Label {
            alloc: self.alloc,
            text: CompactText::new(self.alloc, text.as_str())?,
        })
    }

    /// Whether the text is its own normal form. `AllocError` when out of memory.
    pub fn is_normal(&self) -> Result<bool, AllocError>
        ensures { IfOk result (λ answer. IsTrue answer ↔ (normal_text self.now ≡ self.now)) }
    {
        let text = normal_form(self.alloc, self.text())?;
        Ok(text.as_str() == self.text())
    }
}

impl<A: Allocator> Label<A> {
    /// The text as written.
    pub fn text(&self) -> &str
        ensures value { result.now ≡ self.now }
        ensures label { IsLabel self.now }
        ensures fits { length result.now ≤ MAX_LEN }
    {
        self.text.as_str()
    }

    /// The text as a short one, where it takes no memory of its own.
    pub fn as_short(&self) -> Option<&ShortText>
        ensures { IfSome result (λ short. short.now ≡ self.now) }
    {
        self.text.as_short()
    }

    /// Whether the labels are equal. Short ones are compared in a few instructions.
    pub fn is_same<B: Allocator>(&self, other: &Label<B>) -> bool
        ensures { IsTrue result ↔ (self.now ≡ other.now) }
    {
        match (self.as_short(), other.as_short()) {
            (Some(one), Some(other)) => one.is_same(other),
            _ => self.text() == other.text(),
        }
    }

    /// Whether the label is true for the names: the empty label is, a term if its name is one of them,
    /// an And if all its operands are, and an Or if one is. It allocates nothing.
    pub fn is_true_for<N: Names>(&self, names: &N) -> bool
        ensures { result ≡ is_true (N.among names.now) self.now }
    {
        match judge(self.text().as_bytes(), names) {
            Ok(truth) => truth,
            Err(_) => unreachable!(),
        }
    }
}

// The text of a label's normal form.
fn normal_form<A: Allocator + Copy>(alloc: A, label: &str) -> Result<String<A>, AllocError>
    requires { IsLabel label.now }
    ensures { IfOk result (λ text. string_bytes text ≡ normal_text label.now) }
{
    let tree = normal_tree(alloc, label)?;
    let text = printed(alloc, &tree);
    drop(tree);
    text
}

// The normal form of a label's tree.
fn normal_tree<A: Allocator + Copy>(alloc: A, label: &str) -> Result<Tree<A>, AllocError>
    requires { IsLabel label.now }
    ensures { IfOk result (λ tree. tree_view tree ≡ normal_of (reading label.now)) }
{
    let tree = tree_of(alloc, label)?;
    let other = normal(alloc, &tree);
    drop(tree);
    other
}

// The text of a tree.
fn printed<A: Allocator + Copy>(alloc: A, tree: &Tree<A>) -> Result<String<A>, AllocError>
    ensures { IfOk result (λ text. string_bytes text ≡ tree_text (tree_view tree.now)) }
{
    let mut text = String::new(alloc);
    push_tree(&mut text, tree)?;
    Ok(text)
}

// A label's tree.
fn tree_of<A: Allocator + Copy>(alloc: A, label: &str) -> Result<Tree<A>, AllocError>
    requires { IsLabel label.now }
    ensures { IfOk result (λ tree. tree_view tree ≡ reading label.now) }
{
    let mut reader = Reader::new(alloc);
    for c in label.chars() {
        reader = match reader.step(c) {
            Ok(next) => next,
            Err(ReadFault::NoMemory) => return Err(AllocError),
            Err(ReadFault::Refused) => unreachable!(),
        };
    }
    match reader.finish() {
        Ok(tree) => Ok(tree),
        Err(ReadFault::NoMemory) => Err(AllocError),
        Err(ReadFault::Refused) => unreachable!(),
    }
}
