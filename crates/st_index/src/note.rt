//! Notes of rows.
ghost use Rattle.std.specs.Prelude.{◌≡◌, ◌↔◌, IfOk, IfSome, IsSome, Some};
ghost use Rattle.st_index.specs.Notes.{lent_bytes};
ghost use Rattle.st_index.specs.inner.Noted.{noted_bytes};
ghost use Rattle.st_index.specs.Texts.{IsNote};
ghost use Rattle.st_text.specs.Texts.{same};

use st_label::Label;
use st_text::Words;
use std::alloc::{AllocError, Allocator, Global};
use std::marker::Model;

/// The greatest length of a note, in bytes.
pub const MAX_NOTE: usize = 4096;

// The text of a note that is not empty. Where the row is alone at its key, its label lies here too, so that its entry takes less.
#[derive(Drop)]
pub struct NoteText<A: Allocator = Global> {
    text: Words<A>,
    label: Option<Label<A>>,
}

impl<A: Allocator> Model for NoteText<A> {
    ghost use Rattle.st_index.specs.Notes.{NoteValue};
    ghost use Rattle.st_index.specs.Texts.{IsNote};

    ghost Value = { NoteValue };

    ghost view = { λ t. record { text = t.text; label = t.label } };

    ghost invariant = { λ t. IsNote t.text };
}

impl<A: Allocator + Copy> NoteText<A> {
    // An equal text with an equal label, or an error if memory runs out.
    pub(crate) fn copy(&self) -> Result<NoteText<A>, AllocError>
        ensures { IfOk result (λ other. other ≡ self.now) }
    {
        Ok(NoteText {
            text: self.text.copy()?,
            label: copy_label(&self.label)?,
        })
    }
}

// An equal label, where there is one.
fn copy_label<A: Allocator + Copy>(label: &Option<Label<A>>) -> Result<Option<Label<A>>, AllocError>
    ensures { IfOk result (λ other. other ≡ label.now) }
{
    match label {
        Some(label) => Ok(Some(label.copy()?)),
        None => Ok(None),
    }
}

impl<A: Allocator> NoteText<A> {
    // The row's label, which lies here.
    pub(crate) fn label(&self) -> &Label<A>
        requires { IsSome self.now.label }
        ensures { self.now.label ≡ Some result.now }
    {
        let Some(label) = &self.label else {
            unreachable!()
        };
        label
    }

    // Takes in the row's label.
    pub(crate) fn put_label(&mut self, label: Label<A>)
        ensures text { self.new.text ≡ self.old.text }
        ensures label { self.new.label ≡ Some label }
    {
        self.label = Some(label);
    }

    // Gives the row's label back.
    pub(crate) fn take_label(&mut self) -> Label<A>
        requires { IsSome self.old.label }
        ensures text { self.new.text ≡ self.old.text }
        ensures label { self.old.label ≡ Some result }
    {
        let Some(label) = self.label.take() else {
            unreachable!()
        };
        label
    }
}

/// The note of a row: a text of at most [`MAX_NOTE`] bytes. The empty one takes no memory of its own.
#[derive(Drop)]
pub struct Note<A: Allocator = Global> {
    alloc: A,
    text: Option<Box<NoteText<A>, A>>,
}

impl<A: Allocator> Model for Note<A> {
    ghost use Rattle.std.specs.Prelude.{ℕ, List};
    ghost use Rattle.st_index.specs.inner.Noted.{noted_bytes};

    ghost Value = { List ℕ };

    ghost view = { λ n. noted_bytes n.text };
}

impl<A: Allocator + Copy> Note<A> {
    /// The note, or `None` where the text is longer than [`MAX_NOTE`] bytes. An error if memory runs out.
    pub fn new(alloc: A, text: &str) -> Result<Option<Note<A>>, AllocError>
        ensures fits { IfOk result (λ note. IsSome note ↔ IsNote text.now) }
        ensures value { IfOk result (λ note. IfSome note (λ n. n ≡ text.now)) }
    {
        if text.len() > MAX_NOTE {
            return Ok(None);
        }
        Ok(Some(Note::fitting(alloc, text)?))
    }

    // The note of a text that is not too long, or an error if memory runs out.
    pub(crate) fn fitting(alloc: A, text: &str) -> Result<Note<A>, AllocError>
        requires { IsNote text.now }
        ensures { IfOk result (λ note. note ≡ text.now) }
    {
        let text = boxed(alloc, text)?;
        Ok(Note { alloc, text })
    }

    /// An equal note, or an error if memory runs out.
    pub fn copy(&self) -> Result<Note<A>, AllocError>
        ensures { IfOk result (λ note. note ≡ self.now) }
    {
        Note::fitting(self.alloc, self.as_str())
    }
}

// A text in memory of its own, but none where it is empty.
fn boxed<A: Allocator + Copy>(
    alloc: A,
    text: &str,
) -> Result<Option<Box<NoteText<A>, A>>, AllocError>
    requires { IsNote text.now }
    ensures { IfOk result (λ boxed. noted_bytes boxed ≡ text.now) }
{
    if text.is_empty() {
        return Ok(None);
    }
    let text = Words::new(alloc, text)?;
    Ok(Some(Box::new(alloc, NoteText { text, label: None })?))
}

// The text that is lent, which is empty where none is.
pub(crate) fn lent_text<'a, A: Allocator>(lent: Option<&'a NoteText<A>>) -> &'a str
    ensures value { result.now ≡ lent_bytes lent.entry }
    ensures fits { IsNote result.now }
{
    match lent {
        Some(text) => text.text.as_str(),
        None => "",
    }
}

impl<A: Allocator> Note<A> {
    // The note of a text that lies in a box. The empty one has none.
    pub(crate) fn of(alloc: A, text: Option<Box<NoteText<A>, A>>) -> Note<A>
        ensures { result ≡ noted_bytes text }
    {
        Note { alloc, text }
    }

    // The box of the text.
    pub(crate) fn into_text(self) -> Option<Box<NoteText<A>, A>>
        ensures { noted_bytes result ≡ self }
    {
        self.text
    }

    // The text, lent where there is any.
    pub(crate) fn lend(&self) -> Option<&NoteText<A>>
        ensures { lent_bytes result ≡ self.now }
    {
        match &self.text {
            Some(text) => Some(text),
            None => None,
        }
    }

    /// The text.
    pub fn as_str(&self) -> &str
        ensures value { result.now ≡ self.now }
        ensures fits { IsNote result.now }
    {
        lent_text(self.lend())
    }

    /// Whether this is the text, byte by byte.
    pub fn is(&self, text: &str) -> bool
        ensures { result ≡ same self.now text.now }
    {
        self.as_str() == text
    }
}
