//! The tree.
ghost use Rattle.std.specs.Prelude.{◌≡◌, ◌+◌, ◌<◌, ◌≤◌, [], length, map, IfOk, None};
ghost use Rattle.std.specs.List.{All};
ghost use Rattle.st_index.specs.inner.Entries.{key_end};
ghost use Rattle.st_ubtree.specs.inner.Growing.{AreBlank, IsBlankPage};
ghost use Rattle.st_tally.specs.inner.Pages.{page_node, IsWide, rows_of_pages, AreFilled};
ghost use Rattle.st_ubtree.specs.inner.Splits.{made_nodes, split_nodes};
ghost use Rattle.st_ubtree.specs.inner.Trees.{regions_of};
ghost use Rattle.st_ubtree.specs.inner.Tree.{HasTreeRoom};
ghost use Rattle.st_ubtree.specs.inner.Ranges.{region_in};

use crate::node::{Blank, Node};
use st_box::Query;
use st_index::entries::{self, Change};
use st_index::{Entry, Fields, Judge, KeyRange, Leaf, Row, RowIndex, order};
use st_key::{Key, Period};
use st_tally::marks::{FEW_PAGES, Room};
use st_text::ShortText;
use std::alloc::{AllocError, Allocator, Global};
use std::marker::Model;

/// A UB-tree: an index whose regions are pages of 16 to 32 keys (the only page may have fewer) under
/// nodes of 16 to 32 children (the root 2 to 32). Looking up, putting in and taking out are logarithmic.
#[derive(Drop)]
pub struct UbTree<A: Allocator = Global> {
    period: Period,
    root: Node<A>,
    len: u64,
}

impl<A: Allocator> Model for UbTree<A> {
    ghost use Rattle.st_ubtree.specs.inner.Trees.{TreeValue};
    ghost use Rattle.st_ubtree.specs.inner.Tree.{IsTree};

    ghost Value = { TreeValue A };

    ghost view = { λ t. record { period = t.period; root = t.root } };

    ghost invariant = { λ t. IsTree t.period t.root t.len };
}

/// The memory that one more row takes in a tree.
#[derive(Drop)]
pub struct UbSpare<A: Allocator = Global> {
    rows: Vec<Row<A>, A>,
    page: Option<Vec<Entry<A>, A>>,
    inners: Vec<Blank<A>, A>,
    room: Option<Room<A>>,
    places: Option<Room<A>>,
}

// A page, where one is split.
fn blank_page<A: Allocator + Copy>(
    alloc: A,
    inners: Option<u64>,
) -> Result<Option<Vec<Entry<A>, A>>, AllocError>
    ensures some { IfOk result (λ page. 1 ≤ split_nodes inners → IsBlankPage page) }
    ensures none { IfOk result (λ page. split_nodes inners ≡ 0 → page ≡ None) }
{
    match inners {
        Some(_) => Ok(Some(Vec::with_capacity(alloc, 33)?)),
        None => Ok(None),
    }
}

// Room for so many labels of a node, where it needs more.
fn blank_room<A: Allocator + Copy>(alloc: A, count: usize) -> Result<Option<Room<A>>, AllocError> {
    match count {
        0 => Ok(None),
        count => Ok(Some(Room::labels(alloc, count)?)),
    }
}

// Room for the marks of so many pages of a node, where it needs more.
fn blank_places<A: Allocator + Copy>(
    alloc: A,
    count: usize,
) -> Result<Option<Room<A>>, AllocError> {
    match count {
        0 => Ok(None),
        count => Ok(Some(Room::pages(alloc, count)?)),
    }
}

// How many nodes are made where the page is split and so many nodes above it, under a root of a height.
fn count_made(inners: Option<u64>, height: u64) -> Result<u64, AllocError>
    ensures { IfOk result (λ count. count ≡ made_nodes height (split_nodes inners)) }
{
    match inners {
        None => Ok(0),
        Some(inners) if inners == height => height.checked_add(1).ok_or(AllocError),
        Some(inners) => Ok(inners),
    }
}

// So many empty lists of children. The last one is for the lowest node, whose children are pages.
fn blank_nodes<A: Allocator + Copy>(alloc: A, count: u64) -> Result<Vec<Blank<A>, A>, AllocError>
    ensures blank { IfOk result (λ blanks. AreBlank blanks.items) }
    ensures count { IfOk result (λ blanks. length blanks.items ≡ count) }
{
    let mut blanks = Vec::new(alloc);
    for at in 0..count {
        let places = if at + 1 == count { FEW_PAGES } else { 0 };
        blanks.push(Blank::new(alloc, places)?)?;
    }
    Ok(blanks)
}

impl<A: Allocator + Copy> UbTree<A> {
    /// A tree of no rows: one empty page, for which it takes memory.
    pub fn new(alloc: A, period: Period) -> Result<Self, AllocError>
        ensures { IfOk result (λ tree. tree ≡ record { period = period; root = page_node 0 0 [] }) }
    {
        let entries = Vec::with_capacity(alloc, 33)?;
        Ok(UbTree {
            period,
            root: Node::page(Key::FIRST, entries),
            len: 0,
        })
    }

    /// The regions of the tree in order: for each page its keys, from the first to the last.
    pub fn regions(&self) -> Result<Vec<KeyRange, A>, AllocError>
        ensures { IfOk result (λ ranges. map region_in ranges.items ≡ regions_of (key_end self.now.period) self.now.root.pages) }
    {
        let mut ranges = Vec::new(self.root.allocator());
        let mut next = Some(Key::FIRST);
        while let Some(key) = next {
            let leaf = self.leaf_at(key);
            let (first, last) = (leaf.first, leaf.last);
            ranges.push(KeyRange { first, last })?;
            next = last.after(self.period);
        }
        Ok(ranges)
    }

    /// Shows the bounds: a page holds at most 32 keys, and at least 16 unless it is the only one; an inner
    /// root has 2 to 32 children, and each node under the root 16 to 32 (keys, where it is a page).
    pub fn count_keys(&self)
        ensures keys { AreFilled self.now.root.pages }
        ensures nodes { All IsWide self.now.root.widths }
        ensures children { 1 ≤ self.now.root.height → 2 ≤ self.now.root.width }
        ensures not_more { self.now.root.width ≤ 32 }
    {
        self.root.count_keys();
    }

    /// How many rows the tree holds.
    pub fn len(&self) -> u64
        ensures { result ≡ length (rows_of_pages self.now.root.pages) }
    {
        self.len // counted as rows come and go
    }
}

impl<A: Allocator + Copy> RowIndex for UbTree<A> {
    type Alloc = A;

    type Row = Row<A>;

    type Spare = UbSpare<A>;

    ghost period_of = { λ t. t.period };

    ghost content = { λ t. rows_of_pages t.root.pages };

    ghost regions = { λ t. regions_of (key_end t.period) t.root.pages };

    ghost has_room = { HasTreeRoom };

    fn period(&self) -> Period {
        self.period
    }

    fn copy(&self) -> Result<UbTree<A>, AllocError> {
        Ok(UbTree {
            period: self.period,
            root: self.root.copy()?,
            len: self.len,
        })
    }

    fn leaf_at(&self, key: Key) -> Leaf<'_, A> {
        self.root.leaf_at(key, Key::last(self.period))
    }

    fn count<J: Judge<A>>(&self, query: &Query, judge: &mut J) -> u64 {
        self.root.count(query, judge)
    }

    fn count_fields<J: Judge<A>, F: Fields>(&self, judge: &mut J, fields: &F, counts: &mut [u64]) {
        self.root.count_fields(judge, fields, counts);
    }

    fn count_fields_at<J: Judge<A>, F: Fields>(
        &self,
        from: Key,
        key: Key,
        judge: &mut J,
        fields: &F,
        counts: &mut [u64],
    ) -> Option<KeyRange> {
        let (node, last) = self.root.lowest_at(key, Key::last(self.period));
        let first = node.first();
        if order::is_before(first, from) {
            return None;
        }
        node.count_fields(judge, fields, counts);
        Some(KeyRange { first, last })
    }

    fn prepare(&self, row: &Row<A>) -> Result<UbSpare<A>, AllocError> {
        if self.len == u64::MAX {
            return Err(AllocError);
        }
        let alloc = self.root.allocator();
        let needs = self.root.needs(row.key(self.period));
        let rows = entries::list_for_more(alloc, needs.rows)?;
        let page = blank_page(alloc, needs.inners)?;
        let made = count_made(needs.inners, self.root.height())?;
        let inners = blank_nodes(alloc, made)?;
        let room = blank_room(alloc, needs.labels)?;
        let places = blank_places(alloc, needs.pages)?;
        Ok(UbSpare {
            rows,
            page,
            inners,
            room,
            places,
        })
    }

    fn insert(&mut self, row: Row<A>, spare: UbSpare<A>) {
        let UbSpare {
            rows,
            page,
            inners,
            room,
            places,
        } = spare;
        let key = row.key(self.period);
        self.root.widen_if(key, places);
        self.root.even_if(page.is_some(), key);
        self.root.put(self.period, key, row, rows, page, inners);
        self.root.widen_if(key, room);
        self.root.count_keys();
        self.len += 1;
    }

    fn remove(&mut self, key: Key, id: &str, label: &str) -> Option<Row<A>> {
        let mut change = Change::Altered(0);
        let short = ShortText::new(label);
        let row = self.root.remove(key, id, label, &short, &mut change)?;
        self.root.lower();
        self.root.count_keys();
        self.len -= 1;
        Some(row)
    }

    fn replace(&mut self, row: Row<A>) -> Row<A> {
        let key = row.key(self.period);
        let mut change = Change::Altered(0);
        let Ok(out) = self.root.replace(self.period, key, row, &mut change) else {
            unreachable!()
        };
        self.root.count_keys();
        out
    }
}
