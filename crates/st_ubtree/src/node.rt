//! Pages, and the nodes over them.
//!
//! A node over others keeps the first keys of its children side by side, in one block with the head of its marks. A node knows how
//! many nodes the split of each of its pages splits (`chains`), in the definitions alone; with it `prepare` states exactly what it
//! allocates.
ghost use Rattle.std.specs.Prelude.{◌≡◌, ◌+◌, ◌≤◌, IfSome, IfNone, IfOk, OnErr, length, vec_len, vec_capacity};
ghost use Rattle.std.specs.List.{All};
ghost use Rattle.st_key.specs.Key.{rank};
ghost use Rattle.st_index.specs.inner.Entries.{name_of, rank_of};
ghost use Rattle.st_index.specs.inner.Changes.{IsChange};
ghost use Rattle.st_tally.specs.inner.Pages.{IsWide, NodeValue, entries_of_pages, AreFilled, page_node};
ghost use Rattle.st_ubtree.specs.inner.Trading.{Keeps, TradesIn};
ghost use Rattle.st_ubtree.specs.inner.Shrinking.{HasNone, IsWorn, Joins, Shrinks};
ghost use Rattle.st_ubtree.specs.inner.Growing.{AreAround, AreBlank, Grows, IsBlankPage, IsRoomFor};
ghost use Rattle.st_ubtree.specs.inner.Splits.{splits};

mod aside;
mod blank;
mod copies;
mod count;
mod even;
mod fields;
mod firsts;
mod grow;
mod join;
mod marking;
mod needs;
mod pages;
mod root;
mod seek;
mod sums;
mod widening;

use aside::Aside;
pub use blank::Blank;
use grow::{put_in_page, split_if_full};
use join::{join_kids, join_pages, mend};
use marking::{mark_changed, mark_due, mark_if, mark_swapped};
use st_index::entries::{self, Change};
use st_index::{Entry, Row};
use st_key::{Key, Period};
use st_tally::summary::Summary;
use st_text::ShortText;
use std::alloc::{Allocator, Global};
use std::marker::Model;
use sums::{drop_row, renew_if};

/// A page of entries, or a node over others.
#[cycle(node)]
#[derive(Drop)]
pub struct Node<A: Allocator = Global> {
    first: Key,
    height: u64,
    sum: Summary<A>,
    kids: Kids<A>,
}

#[cycle(node)]
#[derive(Drop)]
enum Kids<A: Allocator = Global> {
    Page(Vec<Entry<A>, A>),
    Inner(Vec<Node<A>, A>, Box<Aside<A>, A>),
}

impl<A: Allocator> Model for Node<A> {
    ghost use Rattle.std.specs.Prelude.{◌≡◌};
    ghost use Rattle.st_key.specs.Key.{rank};
    ghost use Rattle.st_tally.specs.inner.Pages.{NodeValue};

    ghost Value = { NodeValue A };

    ghost use Rattle.st_ubtree.specs.inner.Nodes.{node_value, IsNode, rows_under};
    ghost use Rattle.st_tally.specs.inner.Sums.{Sums};
    ghost use Rattle.st_ubtree.specs.inner.Firsts.{AreFirstsUnder};
    ghost use Rattle.st_ubtree.specs.inner.Nodes.{AreMarkedUnder};

    ghost view = { λ n. node_value (rank n.first) n.height n.kids };

    ghost invariant = { λ n. IsNode (rank n.first) n.height n.kids × Sums n.sum (rows_under n.kids) × AreMarkedUnder n.kids
        × AreFirstsUnder n.kids };

    ghost size = { λ v. v.height };

    ghost use Rattle.st_ubtree.specs.inner.Falls.{node-falls};

    ghost size_decreases = { λ a h. node-falls A.Allocator (rank a.first) a.height a.kids h.0 };
}

impl<A: Allocator + Copy> Node<A> {
    /// A page.
    pub fn page(first: Key, entries: Vec<Entry<A>, A>) -> Self
        requires not_more { length entries.items ≤ 32 }
        requires room { 33 ≤ vec_capacity entries }
        ensures { result ≡ page_node (rank first) 0 entries.items }
    {
        let alloc = *entries.allocator();
        let mut sum = Summary::new(Vec::new(alloc));
        sum.add_entries(entries.as_slice());
        Node {
            first,
            height: 0,
            sum,
            kids: Kids::Page(entries),
        }
    }

    /// How far the node stands above the pages.
    pub fn height(&self) -> u64
        ensures { result ≡ self.now.height }
    {
        self.height
    }

    /// Puts in a row. Where the node is full, its upper half is handed back as a node of its own. A page says where.
    pub fn insert(
        &mut self,
        period: Period,
        key: Key,
        row: Row<A>,
        rows: Vec<Row<A>, A>,
        page: Option<Vec<Entry<A>, A>>,
        inners: &mut Vec<Blank<A>, A>,
        change: &mut Change,
    ) -> Option<Node<A>>
        requires key { rank key ≡ rank_of period row }
        requires rows { IsRoomFor (rank key) rows.items (vec_capacity rows) (entries_of_pages self.old.pages) }
        requires around { AreAround (rank key) self.old.pages }
        requires page { 1 ≤ splits self.old (rank key) → IsBlankPage page }
        requires blank { AreBlank inners.old.items }
        requires enough { splits self.old (rank key) ≤ vec_len inners.old + 1 }
        ensures grows { Grows (rank key) row self.old self.new result }
        ensures split { IfSome result (λ _. splits self.old (rank key) ≡ self.old.height + 1) }
        ensures blank { AreBlank inners.new.items }
        ensures left { vec_len inners.old ≤ vec_len inners.new + self.old.height }
        ensures change { IfNone result (self.old.height ≡ 0
            → IsChange change.new (entries_of_pages self.old.pages) (entries_of_pages self.new.pages)) }
    {
        self.sum.add(&row);
        match &mut self.kids {
            Kids::Page(entries) => {
                let split = put_in_page(entries, period, key, row, rows, page, change);
                renew_if(split.is_some(), &mut self.sum, &self.kids);
                return split;
            }
            Kids::Inner(kids, aside) => {
                let aside = &mut **aside;
                let at = aside.firsts.child_for(key);
                let kid = &mut kids[at];
                let Some(right) = kid.insert(period, key, row, rows, page, inners, change) else {
                    mark_changed(&mut aside.marks, kids, at, *change);
                    return None;
                };
                aside.marks.clear_page(at);
                aside.firsts.insert_at(at + 1, &right);
                let Ok(()) = kids.insert(at + 1, right) else {
                    unreachable!()
                };
                aside.marks.open(at + 1);
                let split = split_if_full(kids, self.height, &mut aside.marks, inners);
                aside.firsts.keep(kids.len());
                let parted = split.is_some();
                mark_due(parted, at, &mut aside.marks, kids);
                renew_if(parted, &mut self.sum, &self.kids);
                split
            }
        }
    }

    // How many entries or children the node has.
    fn width(&self) -> usize
        ensures { result ≡ self.now.width }
    {
        match &self.kids {
            Kids::Page(entries) => entries.len(),
            Kids::Inner(kids, _) => kids.len(),
        }
    }

    // Takes over entries or children of the node beside it. What is left of that one is handed back. Neither has marks then.
    fn join(&mut self, right: Node<A>) -> Option<Node<A>>
        requires worn { IsWorn self.old.height self.old }
        requires right { IsWorn self.old.height right }
        requires both { self.old.width + right.width ≤ 47 }
        ensures joins { Joins self.old.height self.old right self.new result }
    {
        let Node {
            height,
            sum,
            kids,
            ..
        } = right;
        match (&mut self.kids, kids) {
            (Kids::Page(left), Kids::Page(right)) => join_pages(&mut self.sum, left, right),
            (Kids::Inner(left, aside), Kids::Inner(right, other)) => {
                join_kids(&mut self.sum, left, aside, sum, right, other, height)
            }
            _ => unreachable!(),
        }
    }

    /// Takes out the row of a key and a name. A page says where it stood.
    pub fn remove(
        &mut self,
        key: Key,
        id: &str,
        label: &str,
        short: &Option<ShortText>,
        change: &mut Change,
    ) -> Option<Row<A>>
        requires wide { 1 ≤ self.old.height → 2 ≤ self.old.width }
        ensures some { IfSome result (λ row. Shrinks (rank key) row self.old self.new) }
        ensures named { IfSome result (λ row. name_of row ≡ record { id = id.now; label = label.now }) }
        ensures none { IfNone result (self.new ≡ self.old) }
        ensures absent { IfNone result (HasNone (rank key) (record { id = id.now; label = label.now }) self.old.pages) }
        ensures change { IfSome result (λ _. self.old.height ≡ 0
            → IsChange change.new (entries_of_pages self.old.pages) (entries_of_pages self.new.pages)) }
    {
        let likely = self.sum.likely_place(short);
        let taken = match &mut self.kids {
            Kids::Page(entries) => entries::take(entries, key, id, label, change),
            Kids::Inner(kids, aside) => {
                let aside = &mut **aside;
                let at = aside.firsts.child_for(key);
                let kid = &mut kids[at];
                let row = kid.remove(key, id, label, short, change)?;
                kids[at].mark_change(at, *change, &mut aside.marks);
                mend(kids, at, aside);
                mark_if(self.sum.is_time(), &mut aside.marks, kids);
                Some(row)
            }
        };
        drop_row(&mut self.sum, &taken, likely);
        renew_if(self.sum.is_due(), &mut self.sum, &self.kids);
        taken
    }

    /// Puts a row in the place of the one of its key and name. Hands the row itself back where there is none. A page says where.
    pub fn replace(
        &mut self,
        period: Period,
        key: Key,
        row: Row<A>,
        change: &mut Change,
    ) -> Result<Row<A>, Row<A>>
        requires { rank key ≡ rank_of period row }
        ensures ok { IfOk result (λ out. TradesIn (rank key) out row self.old.pages self.new.pages) }
        ensures named { IfOk result (λ out. name_of out ≡ name_of row) }
        ensures keeps { Keeps self.old self.new }
        ensures absent { OnErr result (HasNone (rank key) (name_of row) self.old.pages) }
        ensures err { OnErr result (self.new.pages ≡ self.old.pages) }
        ensures change { IfOk result (λ _. self.old.height ≡ 0
            → IsChange change.new (entries_of_pages self.old.pages) (entries_of_pages self.new.pages)) }
    {
        self.sum.widen(&row.point);
        match &mut self.kids {
            Kids::Page(entries) => return entries::swap(entries, period, row, change),
            Kids::Inner(kids, aside) => {
                let aside = &mut **aside;
                let at = aside.firsts.child_for(key);
                let kid = &mut kids[at];
                let out = kid.replace(period, key, row, change);
                mark_swapped(&out, at, *change, &mut aside.marks, kids);
                out
            }
        }
    }

    /// Where the node's memory comes from.
    pub fn allocator(&self) -> A {
        match &self.kids {
            Kids::Page(entries) => *entries.allocator(),
            Kids::Inner(kids, _) => *kids.allocator(),
        }
    }

    /// Shows that the pages hold as many keys as they must, and the nodes as many children.
    pub fn count_keys(&self)
        ensures keys { AreFilled self.now.pages }
        ensures nodes { All IsWide self.now.widths }
        ensures not_more { self.now.width ≤ 32 }
    {
        let _kids = &self.kids;
    }
}
