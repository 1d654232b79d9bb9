//! Pages and nodes that a new row makes too full.
ghost use Rattle.std.specs.Prelude.{◌≡◌, ◌+◌, ◌<◌, ◌≤◌, IfNone, IfSome, length, vec_len, vec_capacity};
ghost use Rattle.st_key.specs.Key.{rank};
ghost use Rattle.st_index.specs.inner.Entries.{rank_of};
ghost use Rattle.st_index.specs.inner.Changes.{IsChange};
ghost use Rattle.st_ubtree.specs.inner.Growing.{AreBlank, AreKids, DoRise, IsBlankPage, IsRoomFor, PageGrows, SplitsIfFull};
ghost use Rattle.st_ubtree.specs.inner.Splits.{splits_page};

use super::sums::add_kids;
use super::{Blank, Kids, Node};
use crate::split::split_at;
use st_index::entries::{self, Change};
use st_index::{Entry, Row};
use st_key::{Key, Period};
use st_tally::marks::Marks;
use st_tally::summary::Summary;
use std::alloc::Allocator;

// Puts a row into a page's entries, and says where. Of 33 entries the upper 17 are handed back as a page of their own.
pub(super) fn put_in_page<A: Allocator + Copy>(
    entries: &mut Vec<Entry<A>, A>,
    period: Period,
    key: Key,
    row: Row<A>,
    rows: Vec<Row<A>, A>,
    page: Option<Vec<Entry<A>, A>>,
    change: &mut Change,
) -> Option<Node<A>>
    requires key { rank key ≡ rank_of period row }
    requires rows { IsRoomFor (rank key) rows.items (vec_capacity rows) entries.old.items }
    requires rising { DoRise entries.old.items }
    requires not_more { length entries.old.items ≤ 32 }
    requires room { 33 ≤ vec_capacity entries.old }
    requires page { 1 ≤ splits_page entries.old.items 1 (rank key) → IsBlankPage page }
    ensures grows { PageGrows (rank key) row entries.old.items entries.new.items result }
    ensures split { IfSome result (λ _. splits_page entries.old.items 1 (rank key) ≡ 1) }
    ensures room { 33 ≤ vec_capacity entries.new }
    ensures change { IfNone result (IsChange change.new entries.old.items entries.new.items) }
{
    *change = entries::put(entries, period, row, rows);
    if entries.len() <= 32 {
        return None;
    }
    let Some(page) = page else { unreachable!() };
    let least = &entries[16];
    let first = least.key();
    let upper = split_at(entries, 16, page);
    Some(Node::page(first, upper))
}

// Of 33 children the upper 17 are handed back under a node of their own. The others' marks then go into a shorter list.
pub(super) fn split_if_full<A: Allocator + Copy>(
    kids: &mut Vec<Node<A>, A>,
    height: u64,
    marks: &mut Marks<A>,
    inners: &mut Vec<Blank<A>, A>,
) -> Option<Node<A>>
    requires kids { AreKids height kids.old.items }
    requires not_more { length kids.old.items ≤ 33 }
    requires blank { AreBlank inners.old.items }
    requires enough { 32 < length kids.old.items → 0 < vec_len inners.old }
    ensures split { SplitsIfFull height kids.old.items kids.new.items result }
    ensures capacity { vec_capacity kids.new ≡ vec_capacity kids.old }
    ensures blank { AreBlank inners.new.items }
    ensures left { vec_len inners.old ≤ vec_len inners.new + 1 }
    ensures marks { IfNone result (marks.new ≡ marks.old) }
{
    if kids.len() <= 32 {
        return None;
    }
    let Some(blank) = inners.pop() else {
        unreachable!()
    };
    let Blank {
        kids: blank,
        counts,
        mut aside,
        pages,
    } = blank;
    marks.renew(pages);
    let least = &kids[16];
    let first = least.first;
    let upper = split_at(kids, 16, blank);
    let mut sum = Summary::new(counts);
    add_kids(&mut sum, upper.as_slice());
    aside.fill(upper.as_slice());
    Some(Node {
        first,
        height,
        sum,
        kids: Kids::Inner(upper, aside),
    })
}
