//! The marks of pages' entries, which their parents keep.
ghost use Rattle.std.specs.Prelude.{◌≡◌, IfOk, IsFalse, List};
ghost use Rattle.st_index.specs.inner.Changes.{IsChange};
ghost use Rattle.st_tally.specs.inner.Pages.{NodeValue, entries_of_pages};
ghost use Rattle.st_tally.specs.inner.Marks.{AreMarked, DifferAt, HasAt};

use super::{Kids, Node};
use st_index::Row;
use st_index::entries::Change;
use st_tally::marks::Marks;
use std::alloc::Allocator;

impl<A: Allocator + Copy> Node<A> {
    // Marks the entries of a page that is a child of this number.
    fn mark_in(&self, at: usize, marks: &mut Marks<A>)
        ensures { (kids : List (NodeValue A)) → HasAt kids at self.now → AreMarked marks.old kids → AreMarked marks.new kids }
    {
        if let Kids::Page(entries) = &self.kids {
            marks.mark(at, entries.as_slice());
        }
    }

    // Marks the entries of a page in which one changed.
    pub(super) fn mark_change(&self, at: usize, change: Change, marks: &mut Marks<A>)
        ensures { (old new : List (NodeValue A)) (u : NodeValue A) → HasAt old at u → HasAt new at self.now → DifferAt at old new
            → (self.now.height ≡ 0 → IsChange change (entries_of_pages u.pages) (entries_of_pages self.now.pages))
            → AreMarked marks.old old → AreMarked marks.new new }
    {
        match &self.kids {
            Kids::Page(entries) => marks.follow(at, change, entries.as_slice()),
            Kids::Inner(..) => marks.clear_page(at),
        }
    }
}

// Marks the entries of a child in which one changed, if that child is a page.
pub(super) fn mark_changed<A: Allocator + Copy>(
    marks: &mut Marks<A>,
    kids: &Vec<Node<A>, A>,
    at: usize,
    change: Change,
)
    ensures { (old : List (NodeValue A)) (u v : NodeValue A) → HasAt old at u → HasAt kids.now.items at v
        → DifferAt at old kids.now.items
        → (v.height ≡ 0 → IsChange change (entries_of_pages u.pages) (entries_of_pages v.pages))
        → AreMarked marks.old old → AreMarked marks.new kids.now.items }
{
    let kids = kids.as_slice();
    if at >= kids.len() {
        return;
    }
    let kid = &kids[at];
    kid.mark_change(at, change, marks);
}

// Marks the entries of a child in which a row was put in the place of another, if it was.
pub(super) fn mark_swapped<A: Allocator + Copy>(
    out: &Result<Row<A>, Row<A>>,
    at: usize,
    change: Change,
    marks: &mut Marks<A>,
    kids: &Vec<Node<A>, A>,
)
    ensures { (old : List (NodeValue A)) (u v : NodeValue A) → HasAt old at u → HasAt kids.now.items at v
        → DifferAt at old kids.now.items
        → IfOk out.now (λ _. v.height ≡ 0 → IsChange change (entries_of_pages u.pages) (entries_of_pages v.pages))
        → AreMarked marks.old old → AreMarked marks.new kids.now.items }
{
    match out {
        Ok(_) => mark_changed(marks, kids, at, change),
        Err(_) => marks.clear_page(at),
    }
}

// Marks the entries of a child, if there is one at this place.
fn mark_at<A: Allocator + Copy>(marks: &mut Marks<A>, kids: &[Node<A>], at: usize)
    ensures { AreMarked marks.old kids.now → AreMarked marks.new kids.now }
{
    if at >= kids.len() {
        return;
    }
    let kid = &kids[at];
    kid.mark_in(at, marks);
}

// Marks the entries of a child and of those beside it, where they have no marks.
pub(super) fn mark_near<A: Allocator + Copy>(marks: &mut Marks<A>, kids: &[Node<A>], at: usize)
    ensures { AreMarked marks.old kids.now → AreMarked marks.new kids.now }
{
    mark_at(marks, kids, at.saturating_sub(1));
    mark_at(marks, kids, at);
    mark_at(marks, kids, at.saturating_add(1));
}

// Marks the entries of the children that are pages anew.
pub(super) fn mark_all<A: Allocator + Copy>(marks: &mut Marks<A>, kids: &Vec<Node<A>, A>)
    ensures { AreMarked marks.new kids.now.items }
{
    marks.clear();
    mark_kids(marks, kids.as_slice());
}

// Marks the entries of all children anew, if the marks may be those of others, and else those of one and of those beside it
// where they have no marks.
pub(super) fn mark_due<A: Allocator + Copy>(
    all: bool,
    at: usize,
    marks: &mut Marks<A>,
    kids: &Vec<Node<A>, A>,
)
    requires { IsFalse all → AreMarked marks.old kids.now.items }
    ensures { AreMarked marks.new kids.now.items }
{
    if all {
        mark_all(marks, kids);
        return;
    }
    mark_near(marks, kids.as_slice(), at);
}

// Marks the entries of all children that have no marks, if it is time.
pub(super) fn mark_if<A: Allocator + Copy>(due: bool, marks: &mut Marks<A>, kids: &Vec<Node<A>, A>)
    ensures { AreMarked marks.old kids.now.items → AreMarked marks.new kids.now.items }
{
    if !due {
        return;
    }
    mark_kids(marks, kids.as_slice());
}

// Marks the entries of the children that are pages.
pub(super) fn mark_kids<A: Allocator + Copy>(marks: &mut Marks<A>, kids: &[Node<A>])
    ensures { AreMarked marks.old kids.now → AreMarked marks.new kids.now }
{
    for (at, kid) in kids.iter().enumerate() {
        kid.mark_in(at, marks);
    }
}
