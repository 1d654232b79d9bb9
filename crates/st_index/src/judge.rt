//! Judgements of labels.
ghost use Rattle.std.specs.Prelude.{◌≡◌, Bool};
ghost use Rattle.st_text.specs.Texts.{Text};

use st_label::Label;
use std::alloc::Allocator;

/// A judgement of labels by their texts. It may remember what it found, and finds the same each time.
pub trait Judge<A: Allocator + Copy> {
    ghost judges: { Self → Text → Bool };

    /// Whether the label is found true.
    fn finds_true(&mut self, label: &Label<A>) -> bool
        ensures value { result ≡ judges self.old label.now }
        ensures same { judges self.new ≡ judges self.old };
}
