//! What a new row takes.
ghost use Rattle.std.specs.Prelude.{◌≡◌, ◌+◌, ◌-◌, ◌<◌, ◌≤◌, ◌^◌, length};
ghost use Rattle.std.specs.List.{All};
ghost use Rattle.st_key.specs.Key.{rank};
ghost use Rattle.st_index.specs.inner.Entries.{EntryValue};
ghost use Rattle.st_tally.specs.inner.Pages.{entries_of_pages};
ghost use Rattle.st_ubtree.specs.inner.Growing.{AreAround, DoRise};
ghost use Rattle.st_ubtree.specs.inner.Splits.{split_nodes, splits, splits_page, splits_with};

use super::{Kids, Node};
use st_index::{Entry, entries};
use st_key::Key;
use st_tally::marks::Marks;
use std::alloc::Allocator;

/// What a new row of a key takes: how many rows the key has, and, where its page is to be split, how many
/// nodes above the page are. Where the node over the page has no room for a further label, `labels` says for how many
/// it is to get room; else it is 0. `pages` says the same for the marks of a further page.
#[derive(Clone, Copy)]
pub struct Needs {
    pub rows: usize,
    pub inners: Option<u64>,
    pub labels: usize,
    pub pages: usize,
}

impl<A: Allocator + Copy> Node<A> {
    /// What a new row of the key takes.
    pub fn needs(&self, key: Key) -> Needs
        requires { AreAround (rank key) self.now.pages }
        ensures rows { All (λ (e : EntryValue A). e.at ≡ rank key → length e.rows ≡ result.rows) (entries_of_pages self.now.pages) }
        ensures no_rows { All (λ (e : EntryValue A). e.at ≡ rank key → ⊥) (entries_of_pages self.now.pages) → result.rows ≡ 0 }
        ensures in_range { result.rows + 1 < 2 ^ 64 }
        ensures splits { splits self.now (rank key) ≡ split_nodes result.inners }
    {
        match &self.kids {
            Kids::Page(entries) => page_needs(entries, key),
            Kids::Inner(kids, aside) => {
                let at = aside.firsts.child_for(key);
                let kid = &kids[at];
                let needs = kid.needs(key);
                Needs {
                    rows: needs.rows,
                    inners: count_node(needs.inners, self.height, kids.len()),
                    labels: needs.labels.max(aside.marks.wanted()),
                    pages: needs.pages.max(further_pages(
                        needs.inners,
                        self.height,
                        &aside.marks,
                        kids.len(),
                    )),
                }
            }
        }
    }
}

// What a new row of the key takes in a page.
pub(super) fn page_needs<A: Allocator + Copy>(entries: &[Entry<A>], key: Key) -> Needs
    requires { DoRise entries.now }
    ensures rows { All (λ (e : EntryValue A). e.at ≡ rank key → length e.rows ≡ result.rows) entries.now }
    ensures no_rows { All (λ (e : EntryValue A). e.at ≡ rank key → ⊥) entries.now → result.rows ≡ 0 }
    ensures in_range { result.rows + 1 < 2 ^ 64 }
    ensures splits { splits_page entries.now 1 (rank key) ≡ split_nodes result.inners }
{
    match entries::find(entries, key) {
        Ok(i) => {
            let entry = &entries[i];
            Needs {
                rows: entry.len(),
                inners: None,
                labels: 0,
                pages: 0,
            }
        }
        Err(_) => Needs {
            rows: 0,
            inners: if entries.len() < 32 { None } else { Some(0) },
            labels: 0,
            pages: 0,
        },
    }
}

// For the marks of how many pages a node of this height over so many children is to get room, where so many nodes are split up
// to a child of it. A node that is split itself gets none, since its pages are marked anew.
fn further_pages<A: Allocator + Copy>(
    inners: Option<u64>,
    height: u64,
    marks: &Marks<A>,
    kids: usize,
) -> usize {
    let pages = kids.saturating_add(usize::from(inners.is_some()));
    if height != 1 || pages > 32 {
        return 0;
    }
    marks.wanted_pages(pages)
}

// How many nodes above a page are split, up to a node of this height over so many children, from how many
// are up to the child.
pub(super) fn count_node(inners: Option<u64>, height: u64, width: usize) -> Option<u64>
    requires { 1 ≤ height }
    ensures { split_nodes result ≡ splits_with width (height - 1) (split_nodes inners) }
{
    match inners {
        Some(inners) if inners == height - 1 && width >= 32 => Some(height),
        inners => inners,
    }
}
