//! Pages and nodes that are evened with those beside them.
ghost use Rattle.std.specs.Prelude.{◌≡◌, ◌+◌, ◌<◌, ◌≤◌, ◌++◌, ◌⊎◌, ℕ, length, vec_len, vec_capacity};
ghost use Rattle.st_index.specs.inner.Entries.{rows_of};
ghost use Rattle.st_ubtree.specs.inner.Shrinking.{AreWorn, KidsJoin, Mends, PagesJoin};
ghost use Rattle.st_ubtree.specs.inner.Growing.{AreKids};
ghost use Rattle.st_tally.specs.inner.Pages.{rows_of_pages};
ghost use Rattle.st_ubtree.specs.inner.Firsts.{AreFirsts};
ghost use Rattle.st_ubtree.specs.inner.Kids.{pages_of};
ghost use Rattle.st_tally.specs.inner.Marks.{AreMarked};
ghost use Rattle.st_tally.specs.inner.Sums.{Sums};

use super::aside::Aside;
use super::sums::{bounds_of, part};
use super::{Kids, Node};
use crate::split::share;
use st_index::Entry;
use st_tally::summary::Summary;
use std::alloc::Allocator;

// Evens the entries of two pages, and sums up those of the first one. What does not go into it is handed back as a page.
pub(super) fn join_pages<A: Allocator + Copy>(
    sum: &mut Summary<A>,
    left: &mut Vec<Entry<A>, A>,
    mut right: Vec<Entry<A>, A>,
) -> Option<Node<A>>
    requires left { (15 ≤ vec_len left.old) × (vec_len left.old ≤ 32) }
    requires right { (15 ≤ vec_len right) × (vec_len right ≤ 32) }
    requires both { vec_len left.old + vec_len right ≤ 47 }
    requires left_room { 33 ≤ vec_capacity left.old }
    requires right_room { 33 ≤ vec_capacity right }
    ensures joins { PagesJoin left.old.items right.items left.new.items result }
    ensures room { 33 ≤ vec_capacity left.new }
    ensures sum { Sums sum.new (rows_of left.new.items) }
{
    let are_two = share(left, &mut right);
    sum.clear();
    sum.add_entries(left.as_slice());
    if !are_two {
        return None;
    }
    let least = &right[0];
    let first = least.key();
    Some(Node::page(first, right))
}

// Evens the children of two nodes. Those that do not go into the first one are handed back under a node. If all do, it keeps the
// longer one of their lists for marks.
pub(super) fn join_kids<A: Allocator + Copy>(
    sum: &mut Summary<A>,
    left: &mut Vec<Node<A>, A>,
    aside: &mut Aside<A>,
    mut right_sum: Summary<A>,
    mut right: Vec<Node<A>, A>,
    mut other: Box<Aside<A>, A>,
    height: u64,
) -> Option<Node<A>>
    requires kids { AreKids height (left.old.items ++ right.items) }
    requires left { (15 ≤ vec_len left.old) × (vec_len left.old ≤ 32) }
    requires right { (15 ≤ vec_len right) × (vec_len right ≤ 32) }
    requires both { vec_len left.old + vec_len right ≤ 47 }
    requires left_room { 33 ≤ vec_capacity left.old }
    requires right_room { 33 ≤ vec_capacity right }
    requires sum { Sums sum.old (rows_of_pages (pages_of left.old.items)) }
    requires right_sum { Sums right_sum (rows_of_pages (pages_of right.items)) }
    ensures joins { KidsJoin height left.old.items right.items left.new.items result }
    ensures room { 33 ≤ vec_capacity left.new }
    ensures sum { Sums sum.new (rows_of_pages (pages_of left.new.items)) }
    ensures marks { AreMarked aside.new.marks left.new.items }
    ensures firsts { AreFirsts aside.new.firsts left.new.items }
{
    sum.add_all(&right_sum);
    let are_two = share(left, &mut right);
    aside.renew(left.as_slice());
    if !are_two {
        aside.marks.keep_longer(&mut other.marks);
        sum.set_bounds(bounds_of(left.as_slice()));
        return None;
    }
    part(sum, left.as_slice(), &mut right_sum, right.as_slice());
    let least = &right[0];
    let first = least.first;
    other.renew(right.as_slice());
    Some(Node {
        first,
        height,
        sum: right_sum,
        kids: Kids::Inner(right, other),
    })
}

// The left one of a child and the one beside it that has fewer entries or children.
fn pair_of<A: Allocator + Copy>(kids: &[Node<A>], at: usize) -> usize
    requires at { at < length kids.now }
    requires two { 2 ≤ length kids.now }
    ensures within { result + 1 < length kids.now }
    ensures beside { (result ≡ at) ⊎ (result + 1 ≡ at) }
{
    if at == 0 {
        return 0;
    }
    if at + 1 >= kids.len() {
        return at - 1;
    }
    let before = &kids[at - 1];
    let after = &kids[at + 1];
    if before.width() < after.width() {
        return at - 1;
    }
    at
}

// Evens a child that may have 15 entries or children with one beside it. The marks of both are then not known.
pub(super) fn mend<A: Allocator + Copy>(kids: &mut Vec<Node<A>, A>, at: usize, aside: &mut Aside<A>)
    requires worn { (below : ℕ) × AreWorn below at kids.old.items }
    requires two { 2 ≤ length kids.old.items }
    requires room { 33 ≤ vec_capacity kids.old }
    requires not_more { length kids.old.items ≤ 32 }
    ensures mends { (below : ℕ) → AreWorn below at kids.old.items → Mends below kids.old.items kids.new.items }
    ensures room { 33 ≤ vec_capacity kids.new }
    ensures marks { AreMarked aside.old.marks kids.old.items → AreMarked aside.new.marks kids.new.items }
    ensures firsts { AreFirsts aside.old.firsts kids.old.items → AreFirsts aside.new.firsts kids.new.items }
{
    let kid = &kids[at];
    if kid.width() >= 16 {
        return;
    }
    let left = pair_of(kids.as_slice(), at);
    let right = kids.remove(left + 1);
    aside.firsts.remove_at(left + 1);
    aside.marks.clear_page(left);
    let kid = &mut kids[left];
    let had = kid.width();
    let Some(right) = kid.join(right) else {
        aside.marks.close(left + 1);
        return;
    };
    aside.marks.clear_page(left + 1);
    aside.marks.shift(left, had, kid.width());
    aside.firsts.insert_at(left + 1, &right);
    let Ok(()) = kids.insert(left + 1, right) else {
        unreachable!()
    };
}
