//! The root, as it comes to stand over its halves, or goes.
ghost use Rattle.std.specs.Prelude.{◌≡◌, ◌+◌, ◌<◌, ◌≤◌, ◌++◌, [], ◌^◌, vec_len, vec_capacity};
ghost use Rattle.st_key.specs.Key.{rank};
ghost use Rattle.st_index.specs.inner.Entries.{rank_of};
ghost use Rattle.st_tally.specs.inner.Pages.{entries_of_pages};
ghost use Rattle.st_ubtree.specs.inner.Kids.{GrowsBy, IsKid};
ghost use Rattle.st_ubtree.specs.inner.Growing.{AreAround, AreBlank, IsBlankPage, IsRoomFor};
ghost use Rattle.st_ubtree.specs.inner.Splits.{made_nodes, splits};

use super::sums::add_kids;
use super::{Blank, Kids, Node};
use st_index::entries::Change;
use st_index::{Entry, Row};
use st_key::{Key, Period};
use st_tally::summary::Summary;
use std::alloc::Allocator;
use std::mem;

impl<A: Allocator + Copy> Node<A> {
    /// Puts in a row. Where the node is split, it comes to stand over its halves.
    pub fn put(
        &mut self,
        period: Period,
        key: Key,
        row: Row<A>,
        rows: Vec<Row<A>, A>,
        page: Option<Vec<Entry<A>, A>>,
        mut inners: Vec<Blank<A>, A>,
    )
        requires key { rank key ≡ rank_of period row }
        requires rows { IsRoomFor (rank key) rows.items (vec_capacity rows) (entries_of_pages self.old.pages) }
        requires around { AreAround (rank key) self.old.pages }
        requires page { 1 ≤ splits self.old (rank key) → IsBlankPage page }
        requires blank { AreBlank inners.items }
        requires enough { made_nodes self.old.height (splits self.old (rank key)) ≤ vec_len inners }
        requires wide { 1 ≤ self.old.height → 2 ≤ self.old.width }
        ensures grows { GrowsBy (rank key) row self.old.pages self.new.pages }
        ensures wide { 1 ≤ self.new.height → 2 ≤ self.new.width }
    {
        let mut change = Change::Altered(0);
        let Some(right) = self.insert(period, key, row, rows, page, &mut inners, &mut change) else {
            return;
        };
        let Some(blank) = inners.pop() else {
            unreachable!()
        };
        self.raise(right, blank);
    }

    /// Puts the node, and one beside it, under a node in its place.
    pub fn raise(&mut self, right: Node<A>, blank: Blank<A>)
        requires kids { IsKid self.old.height self.old × IsKid self.old.height right }
        requires empty { blank.kids.items ≡ [] }
        requires room { 33 ≤ vec_capacity blank.kids }
        requires height { self.old.height + 1 < 2 ^ 64 }
        ensures first { self.new.first ≡ self.old.first }
        ensures height { self.new.height ≡ self.old.height + 1 }
        ensures width { self.new.width ≡ 2 }
        ensures pages { self.new.pages ≡ self.old.pages ++ right.pages }
    {
        let Blank {
            kids: mut blank,
            counts,
            mut aside,
            ..
        } = blank;
        let kids = mem::replace(&mut self.kids, Kids::Page(Vec::new(*blank.allocator())));
        let none = Summary::new(counts);
        let sum = mem::replace(&mut self.sum, none);
        let left = Node {
            first: self.first,
            height: self.height,
            sum,
            kids,
        };
        let Ok(()) = blank.push(left) else {
            unreachable!()
        };
        let Ok(()) = blank.push(right) else {
            unreachable!()
        };
        add_kids(&mut self.sum, blank.as_slice());
        aside.fill(blank.as_slice());
        self.kids = Kids::Inner(blank, aside);
        self.height += 1;
    }

    /// Puts the only child of a node in the node's place.
    pub fn lower(&mut self)
        ensures pages { self.new.pages ≡ self.old.pages }
        ensures first { self.new.first ≡ self.old.first }
        ensures wide { 1 ≤ self.new.height → 2 ≤ self.new.width }
        ensures lower { self.new.height ≤ self.old.height }
    {
        if let Kids::Inner(kids, _) = &mut self.kids
            && kids.len() == 1
        {
            let Some(only) = kids.pop() else {
                unreachable!()
            };
            let Node {
                first,
                height,
                sum,
                kids,
            } = only;
            self.first = first;
            self.height = height;
            self.sum = sum;
            self.kids = kids;
        }
    }
}
