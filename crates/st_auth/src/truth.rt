//! Whether a label is true.
ghost use Rattle.std.specs.Prelude.{◌≡◌};
ghost use Rattle.st_label.specs.Reading.{is_true};
ghost use Rattle.st_text.specs.Texts.{is_among};

use crate::auths::Auths;
use st_label::Label;
use std::alloc::Allocator;

/// Whether the label is true for the set: the empty label is, a term where it is in the set, an And
/// where all its operands are, and an Or where one is. It takes no memory.
pub fn satisfies<A: Allocator, B: Allocator>(label: &Label<A>, auths: &Auths<B>) -> bool
    ensures { result ≡ is_true (is_among auths.now) label.now }
{
    label.is_true_for(auths)
}
