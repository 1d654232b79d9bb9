//! Full pages that are evened with those beside them, before they are split.
ghost use Rattle.std.specs.Prelude.{◌+◌, ◌<◌, ◌≤◌, IfSome, IsTrue, Some, length, vec_len, vec_capacity};
ghost use Rattle.std.specs.List.{All};
ghost use Rattle.st_ubtree.specs.inner.Evening.{Evens, HasPairAt, HasRoomAt, KidsEven, SplitsNone};
ghost use Rattle.st_ubtree.specs.inner.Firsts.{AreFirsts};
ghost use Rattle.st_ubtree.specs.inner.Kids.{IsKid};
ghost use Rattle.st_tally.specs.inner.Marks.{AreMarked};
ghost use Rattle.st_ubtree.specs.inner.Shrinking.{Joins, PagesJoin};

use super::aside::Aside;
use super::marking::mark_near;
use super::sums::renew;
use super::{Kids, Node};
use crate::split::halve;
use st_index::Entry;
use st_key::Key;
use std::alloc::Allocator;

// A page with more keys than this takes none from a full one beside it: so few would go over that this is not worth it.
const ROOMY: usize = 20;

impl<A: Allocator + Copy> Node<A> {
    /// Evens the page of the key with one beside it, where it is full and that one has room.
    pub fn even(&mut self, key: Key)
        ensures { Evens self.old self.new }
    {
        let Kids::Inner(kids, aside) = &mut self.kids else {
            return;
        };
        let aside = &mut **aside;
        let at = aside.firsts.child_for(key);
        if self.height == 1 {
            even_at(kids, at, aside);
            return;
        }
        let kid = &mut kids[at];
        kid.even(key);
        aside.marks.clear_page(at);
    }

    /// The same, if it is due.
    pub fn even_if(&mut self, due: bool, key: Key)
        ensures { Evens self.old self.new }
    {
        if !due {
            return;
        }
        self.even(key);
    }

    // Evens the entries of two pages. The second is handed back.
    fn halve(&mut self, right: Node<A>) -> Node<A>
        requires left { IsKid 0 self.old }
        requires right { IsKid 0 right }
        requires both { self.old.width + right.width ≤ 62 }
        ensures joins { Joins 0 self.old right self.new (Some result) }
        ensures left { SplitsNone self.new }
        ensures right { SplitsNone result }
    {
        let Node { kids, .. } = right;
        let right = match (&mut self.kids, kids) {
            (Kids::Page(left), Kids::Page(right)) => halve_pages(left, right),
            _ => unreachable!(),
        };
        renew(&mut self.sum, &self.kids);
        right
    }
}

// Evens the entries of two pages. Those of the second are handed back as a page.
fn halve_pages<A: Allocator + Copy>(
    left: &mut Vec<Entry<A>, A>,
    mut right: Vec<Entry<A>, A>,
) -> Node<A>
    requires both { (32 ≤ vec_len left.old + vec_len right) × (vec_len left.old + vec_len right ≤ 62) }
    requires left_room { 33 ≤ vec_capacity left.old }
    requires right_room { 33 ≤ vec_capacity right }
    ensures joins { PagesJoin left.old.items right.items left.new.items (Some result) }
    ensures left { length left.new.items < 32 }
    ensures right { SplitsNone result }
    ensures room { 33 ≤ vec_capacity left.new }
{
    halve(left, &mut right);
    let least = &right[0];
    let first = least.key();
    Node::page(first, right)
}

// Whether a child has room for entries of another, if there is one at this place.
fn is_roomy<A: Allocator + Copy>(kids: &[Node<A>], at: usize) -> bool
    ensures { IsTrue result → HasRoomAt kids.now at }
{
    if at >= kids.len() {
        return false;
    }
    let kid = &kids[at];
    kid.width() <= ROOMY
}

// The left one of a full child and one beside it that has room.
fn pair_for<A: Allocator + Copy>(kids: &[Node<A>], at: usize) -> Option<usize>
    requires pages { All (IsKid 0) kids.now }
    requires at { at < length kids.now }
    ensures { IfSome result (HasPairAt kids.now) }
{
    let kid = &kids[at];
    if kid.width() < 32 {
        return None;
    }
    if is_roomy(kids, at + 1) {
        return Some(at);
    }
    if at > 0 && is_roomy(kids, at - 1) {
        return Some(at - 1);
    }
    None
}

// Evens a child that is full with one beside it that has room.
fn even_at<A: Allocator + Copy>(kids: &mut Vec<Node<A>, A>, at: usize, aside: &mut Aside<A>)
    requires pages { All (IsKid 0) kids.old.items }
    requires at { at < length kids.old.items }
    requires room { 33 ≤ vec_capacity kids.old }
    requires not_more { length kids.old.items ≤ 32 }
    ensures evens { KidsEven 0 kids.old.items kids.new.items }
    ensures room { 33 ≤ vec_capacity kids.new }
    ensures marks { AreMarked aside.old.marks kids.old.items → AreMarked aside.new.marks kids.new.items }
    ensures firsts { AreFirsts aside.old.firsts kids.old.items → AreFirsts aside.new.firsts kids.new.items }
{
    let Some(left) = pair_for(kids.as_slice(), at) else {
        return;
    };
    let right = kids.remove(left + 1);
    aside.firsts.remove_at(left + 1);
    aside.marks.clear_page(left);
    aside.marks.clear_page(left + 1);
    let kid = &mut kids[left];
    let had = kid.width();
    let right = kid.halve(right);
    aside.marks.shift(left, had, kid.width());
    aside.firsts.insert_at(left + 1, &right);
    let Ok(()) = kids.insert(left + 1, right) else {
        unreachable!()
    };
    mark_near(&mut aside.marks, kids.as_slice(), at);
}
