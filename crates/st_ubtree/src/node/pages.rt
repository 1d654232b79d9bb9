//! Counting what lies in pages that have marks.
ghost use Rattle.std.specs.Prelude.{◌≡◌, ◌+◌, ◌<◌, ◌≤◌, ◌^◌, List, length, sum};
ghost use Rattle.std.specs.List.{All};
ghost use Rattle.st_index.specs.inner.Counting.{count_of};
ghost use Rattle.st_tally.specs.inner.Pages.{NodeValue, rows_of_pages};
ghost use Rattle.st_ubtree.specs.inner.Kids.{pages_of};
ghost use Rattle.st_tally.specs.inner.Marks.{AreKnown, AreMarked, HasAt, MakeUp};

use super::{Kids, Node};
use st_box::Query;
use st_index::{Judge, counting};
use st_tally::marked::{count_inside, count_marked};
use st_tally::marks::Marks;
use st_tally::numbering::{FEW_NUMBERS, MAX_NUMBERS};
use st_tally::verdicts::Verdicts;
use std::alloc::Allocator;

impl<A: Allocator + Copy> Node<A> {
    // Tallies rows of a page that are inside the query, by the numbers of their labels. How many of the others are inside, and
    // have a label that is found true.
    fn tally_page<J: Judge<A>>(
        &self,
        at: usize,
        marks: &Marks<A>,
        query: &Query,
        judge: &mut J,
        tally: &mut [u64],
    ) -> u64
        requires lowest { self.now.height ≡ 0 }
        requires marked { (kids : List (NodeValue A)) × AreMarked marks.now kids × HasAt kids at self.now }
        requires few { length tally.old ≤ 512 }
        requires fits { sum tally.old + length (rows_of_pages self.now.pages) < 2 ^ 64 }
        ensures count { MakeUp (J.judges judge.old) marks.now.labels.items result
            (count_of query.now (J.judges judge.old) (rows_of_pages self.now.pages)) tally.old tally.new }
        ensures most { sum tally.new ≤ sum tally.old + length (rows_of_pages self.now.pages) }
        ensures same { J.judges judge.new ≡ J.judges judge.old }
    {
        let Kids::Page(entries) = &self.kids else {
            unreachable!()
        };
        let entries = entries.as_slice();
        if !self.sum.meets(query) {
            return 0;
        }
        let Some(page) = marks.page(at) else {
            return counting::count(entries, query, judge);
        };
        if self.sum.lies_in(query) {
            return count_inside(entries, page, query, judge, tally);
        }
        count_marked(entries, page, query, judge, tally)
    }

    // How many rows of a page are inside the query and have a label that is found true, by its marks if it has some.
    pub(super) fn count_page<J: Judge<A>>(
        &self,
        at: usize,
        verdicts: &mut Verdicts<'_, A>,
        query: &Query,
        judge: &mut J,
    ) -> u64
        requires lowest { self.now.height ≡ 0 }
        requires marked { (kids : List (NodeValue A)) × AreMarked verdicts.old.marks.now kids × HasAt kids at self.now }
        requires fits { length (rows_of_pages self.now.pages) < 2 ^ 64 }
        requires known { AreKnown (J.judges judge.old) verdicts.old.marks.now.labels.items verdicts.old.found }
        ensures marks { verdicts.new.marks ≡ verdicts.old.marks }
        ensures known { AreKnown (J.judges judge.old) verdicts.old.marks.now.labels.items verdicts.new.found }
        ensures count { result ≡ count_of query.now (J.judges judge.old) (rows_of_pages self.now.pages) }
        ensures same { J.judges judge.new ≡ J.judges judge.old }
    {
        let mut tally = [0; FEW_NUMBERS];
        let rest = self.tally_page(at, verdicts.marks, query, judge, &mut tally);
        rest + verdicts.total(&tally, judge)
    }
}

// How many rows of some pages are inside the query and have a label that is found true.
pub(super) fn count_pages<A: Allocator + Copy, J: Judge<A>>(
    marks: &Marks<A>,
    kids: &[Node<A>],
    query: &Query,
    judge: &mut J,
) -> u64
    requires lowest { All (λ (v : NodeValue A). v.height ≡ 0) kids.now }
    requires fits { length (rows_of_pages (pages_of kids.now)) < 2 ^ 64 }
    requires marked { AreMarked marks.now kids.now }
    ensures count { result ≡ count_of query.now (J.judges judge.old) (rows_of_pages (pages_of kids.now)) }
    ensures same { J.judges judge.new ≡ J.judges judge.old }
{
    if marks.has_few() {
        let mut tally = [0; FEW_NUMBERS];
        return tally_pages(marks, kids, query, judge, &mut tally);
    }
    let mut tally = [0; MAX_NUMBERS];
    tally_pages(marks, kids, query, judge, &mut tally)
}

// The same, with room for tallies by numbers, none of which is more than 0 yet.
fn tally_pages<A: Allocator + Copy, J: Judge<A>>(
    marks: &Marks<A>,
    kids: &[Node<A>],
    query: &Query,
    judge: &mut J,
    tally: &mut [u64],
) -> u64
    requires lowest { All (λ (v : NodeValue A). v.height ≡ 0) kids.now }
    requires fits { length (rows_of_pages (pages_of kids.now)) < 2 ^ 64 }
    requires marked { AreMarked marks.now kids.now }
    requires few { length tally.old ≤ 512 }
    requires none { sum tally.old ≡ 0 }
    ensures count { result ≡ count_of query.now (J.judges judge.old) (rows_of_pages (pages_of kids.now)) }
    ensures same { J.judges judge.new ≡ J.judges judge.old }
{
    let mut rest = 0;
    for at in 0..kids.len() {
        let kid = &kids[at];
        rest += kid.tally_page(at, marks, query, judge, tally);
    }
    rest + marks.total(tally, judge)
}
