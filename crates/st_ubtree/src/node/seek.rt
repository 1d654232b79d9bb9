//! Looking up what holds a key.
ghost use Rattle.std.specs.Prelude.{◌≡◌, ℕ, ◌≤◌, length};
ghost use Rattle.std.specs.List.{All};
ghost use Rattle.st_key.specs.Key.{rank};
ghost use Rattle.st_ubtree.specs.inner.Firsts.{AreFirsts};
ghost use Rattle.st_ubtree.specs.inner.Growing.{IsLeafIn, IsPartIn};
ghost use Rattle.st_ubtree.specs.inner.Kids.{IsKid, pages_of};

use super::firsts::Firsts;
use super::{Kids, Node};
use st_index::{Leaf, order};
use st_key::Key;
use std::alloc::Allocator;

// The child that has the page of the key, and the last key of the child's region, where that of the last child ends at `last`.
fn child_at<'a, A: Allocator + Copy>(
    kids: &'a [Node<A>],
    firsts: &Firsts<A>,
    key: Key,
    last: Key,
) -> (&'a Node<A>, Key)
    requires some { 1 ≤ length kids.now }
    requires firsts { AreFirsts firsts.now kids.now }
    ensures part { (below : ℕ) → All (IsKid below) kids.now
        → IsPartIn (rank key) (pages_of kids.now) (rank last) result.0.now.first (rank result.1) result.0.now.pages }
    ensures lower { (below : ℕ) → All (IsKid below) kids.now → result.0.now.height ≡ below }
{
    let at = firsts.child_for(key);
    let after = at + 1;
    let kid_last = if after < kids.len() {
        order::before(firsts.at(after))
    } else {
        last
    };
    (&kids[at], kid_last)
}

impl<A: Allocator + Copy> Node<A> {
    /// The page that holds the key, where the node's region ends at `last`.
    pub fn leaf_at(&self, key: Key, last: Key) -> Leaf<'_, A>
        ensures { IsLeafIn (rank key) self.now.pages (rank last) (rank result.first) (rank result.last) result.entries.now }
    {
        match &self.kids {
            Kids::Page(entries) => Leaf {
                entries: entries.as_slice(),
                first: self.first,
                last,
            },
            Kids::Inner(kids, aside) => {
                let (kid, kid_last) = child_at(kids.as_slice(), &aside.firsts, key, last);
                kid.leaf_at(key, kid_last)
            }
        }
    }

    /// The node over pages that has the page of the key, or that page where it is the only one; and the last key of the node's
    /// region, where this node's region ends at `last`.
    pub fn lowest_at(&self, key: Key, last: Key) -> (&Node<A>, Key)
        ensures { IsPartIn (rank key) self.now.pages (rank last) result.0.now.first (rank result.1) result.0.now.pages }
    {
        match &self.kids {
            Kids::Inner(kids, aside) if self.height > 1 => {
                let (kid, kid_last) = child_at(kids.as_slice(), &aside.firsts, key, last);
                kid.lowest_at(key, kid_last)
            }
            _ => (self, last),
        }
    }

    /// The first key of the node's region.
    pub fn first(&self) -> Key
        ensures { rank result ≡ self.now.first }
    {
        self.first
    }
}
