//! Trees of labels.
ghost use Rattle.std.specs.Prelude.{◌≡◌};
ghost use Rattle.st_label.specs.Grammar.{sign};
ghost use Rattle.st_label.specs.inner.Views.{op_view};

use std::alloc::Allocator;

/// What joins the operands of a label.
#[derive(Clone, Copy, PartialEq, Eq, Debug)]
pub enum Operator {
    All,
    Any,
}

impl Operator {
    /// The character that it is written as.
    pub fn sign(self) -> char
        ensures { result ≡ sign (op_view self) }
    {
        match self {
            Operator::All => '&',
            Operator::Any => '|',
        }
    }
}

/// What a label says: nothing, a term by its name, all of the operands, or one of them.
#[derive(Drop)]
pub enum Tree<A: Allocator> {
    Empty,
    Term(String<A>),
    And(Vec<Tree<A>, A>),
    Or(Vec<Tree<A>, A>),
}
