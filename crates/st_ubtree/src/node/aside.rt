//! What a node over others keeps beside its children.
ghost use Rattle.std.specs.Prelude.{◌≤◌, length};
ghost use Rattle.st_ubtree.specs.inner.Firsts.{AreFirsts};
ghost use Rattle.st_tally.specs.inner.Marks.{AreMarked};

use super::Node;
use super::firsts::Firsts;
use super::marking::mark_kids;
use st_tally::marks::Marks;
use std::alloc::{Allocator, Global};

/// The first keys of a node's children, and the marks of those that are pages. Pages have neither, so these lie in a block of
/// their own.
#[derive(Drop)]
pub struct Aside<A: Allocator = Global> {
    pub(super) firsts: Firsts<A>,
    pub(super) marks: Marks<A>,
}

impl<A: Allocator + Copy> Aside<A> {
    /// Takes the first keys of some children in their place, without marks.
    pub fn renew(&mut self, kids: &[Node<A>])
        requires few { length kids.now ≤ 33 }
        ensures firsts { AreFirsts self.new.firsts kids.now }
        ensures marks { AreMarked self.new.marks kids.now }
    {
        self.firsts.renew(kids);
        self.marks.clear();
    }

    /// Takes the first keys of some children, and the marks of those that are pages, in their place.
    pub fn fill(&mut self, kids: &[Node<A>])
        requires few { length kids.now ≤ 33 }
        ensures firsts { AreFirsts self.new.firsts kids.now }
        ensures marks { AreMarked self.new.marks kids.now }
    {
        self.firsts.renew(kids);
        self.marks.clear();
        mark_kids(&mut self.marks, kids);
    }
}
