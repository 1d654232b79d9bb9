//! Equal copies of nodes.
ghost use Rattle.std.specs.Prelude.{◌≡◌, ◌≤◌, IfOk, length};
ghost use Rattle.st_ubtree.specs.inner.Firsts.{AreFirsts};
ghost use Rattle.st_tally.specs.inner.Marks.{AreMarked};

use super::aside::Aside;
use super::firsts::Firsts;
use super::{Kids, Node};
use st_index::entries;
use std::alloc::{AllocError, Allocator};

impl<A: Allocator + Copy> Aside<A> {
    // What stands beside equal children.
    fn copy_for(&self, kids: &[Node<A>]) -> Result<Aside<A>, AllocError>
        requires few { length kids.now ≤ 33 }
        ensures firsts { IfOk result (λ other. AreFirsts other.firsts kids.now) }
        ensures marks { IfOk result (λ other. AreMarked self.now.marks kids.now → AreMarked other.marks kids.now) }
    {
        let marks = self.marks.copy()?;
        let mut firsts = Firsts::none();
        firsts.renew(kids);
        Ok(Aside { firsts, marks })
    }
}

impl<A: Allocator + Copy> Node<A> {
    /// An equal node over equal ones. An error if memory runs out.
    pub fn copy(&self) -> Result<Node<A>, AllocError>
        ensures { IfOk result (λ node. node ≡ self.now) }
    {
        match &self.kids {
            Kids::Page(entries) => {
                let copies = entries::copies(*entries.allocator(), entries.as_slice(), 33)?;
                let sum = self.sum.copy()?;
                Ok(Node {
                    first: self.first,
                    height: self.height,
                    sum,
                    kids: Kids::Page(copies),
                })
            }
            Kids::Inner(kids, aside) => {
                let alloc = *kids.allocator();
                let mut copies = Vec::with_capacity(alloc, 33)?;
                for kid in kids.as_slice() {
                    let other = kid.copy()?;
                    copies.push(other)?;
                }
                let beside = aside.copy_for(copies.as_slice())?;
                let beside = Box::new(alloc, beside)?;
                let sum = self.sum.copy()?;
                Ok(Node {
                    first: self.first,
                    height: self.height,
                    sum,
                    kids: Kids::Inner(copies, beside),
                })
            }
        }
    }
}
