//! The UB-tree: where it is cut, and how much memory it takes.

use crate::on_line::{OnLine, Regions, put_at, take_at};
use crate::tabling::row_of;
use refusing_alloc::Refusing;
use st_index::Row;
use st_key::Period;
use st_ubtree::UbTree;
use std::alloc::{Allocator, Global};

// The first addresses of a tree's regions, how many of them there are, and how many rows.
type Cut = ([u64; 4], usize, u64);

// Pages of 16 and 17 keys; of 24 and 25, once the second was full and was evened with the first; of 24, 16 and 17, once it was
// full and the first had no room; and of 24 and 32, once the first row of the second was taken out.
const TWO: Cut = ([0, 4_096, 0, 0], 2, 33);

const EVENED: Cut = ([0, 4_608, 0, 0], 2, 49);

const THREE: Cut = ([0, 4_608, 33_280, 0], 3, 57);

const MERGED: Cut = ([0, 4_608, 0, 0], 2, 56);

// A page of 32 keys, of which one has two rows.
const CROWDED: Cut = ([0; 4], 1, 33);

// How a tree is cut.
fn cut<T: Regions>(tree: &T) -> Option<Cut> {
    let (firsts, count) = tree.regions()?;
    Some((firsts, count, tree.len()))
}

// Puts in a row at each of these places. How the tree is cut then.
fn cut_with<T: OnLine + Regions>(
    alloc: T::Alloc,
    tree: &mut T,
    (from, to): (u64, u64),
) -> Option<Cut> {
    for x in from..to {
        put_at(tree, alloc, x, "a")?;
    }
    cut(tree)
}

// Whether pages are split, evened and merged as rows come, and one goes.
fn is_cut<T: OnLine + Regions>(alloc: T::Alloc, tree: &mut T) -> Option<bool> {
    for (places, wanted) in [((0, 33), TWO), ((33, 49), EVENED), ((49, 57), THREE)] {
        if cut_with(alloc, tree, places)? != wanted {
            return Some(false);
        }
    }
    let was_held = take_at(tree, alloc, 24, "a")?;
    Some(was_held && cut(tree)? == MERGED)
}

// Whether a further row of the first of 32 keys splits no page.
fn is_crowded<T: OnLine + Regions>(alloc: T::Alloc, tree: &mut T) -> Option<bool> {
    cut_with(alloc, tree, (0, 32))?;
    put_at(tree, alloc, 0, "b")?;
    Some(cut(tree)? == CROWDED)
}

// How many growths putting in a row takes, by refusing each in turn.
fn growths<T: OnLine>(heap: &Refusing<Global>, tree: &T, row: &Row<T::Alloc>) -> Option<u64> {
    for n in 1..100u64 {
        heap.arm(n);
        let has_memory = tree.has_memory(row);
        if has_memory != heap.is_armed() {
            return None;
        }
        if has_memory {
            heap.arm(0);
            return Some(n - 1);
        }
    }
    None
}

// Puts a further row into a tree. Gives how many growths it takes.
fn put_counted<T: OnLine>(
    heap: &Refusing<Global>,
    alloc: T::Alloc,
    tree: &mut T,
    (x, id): (u64, &str),
) -> Option<u64> {
    let row = row_of(alloc, (id, "", [x, 0, 0]))?;
    let count = growths(heap, tree, &row)?;
    tree.put(&row)?;
    Some(count)
}

// How many growths the row of this number takes, of 65 that are put in one by one. One at a key of its own takes none but where its
// page is full: the 33rd row splits the only page, and puts a node over the halves, which takes a list for its nodes, one for its
// children, one for their labels' counts, two for their labels and marks, a block for these two and the first keys, and a list for
// the marks that stay where the node splits another; for the 49th, which evens both pages, a page is prepared too; the 57th splits
// the last page.
fn wanted(number: u64) -> u64 {
    match number {
        32 => 8,
        48 | 56 => 1,
        _ => 0,
    }
}

// Whether each row takes as many growths.
fn is_counted<T: OnLine>(heap: &Refusing<Global>, alloc: T::Alloc, tree: &mut T) -> Option<bool> {
    for x in 0..65u64 {
        if put_counted(heap, alloc, tree, (x, "a"))? != wanted(x) {
            return Some(false);
        }
    }
    Some(true)
}

// Whether the first row at a key lies in its entry, and each further one takes a list.
fn is_listed<T: OnLine>(heap: &Refusing<Global>, alloc: T::Alloc, tree: &mut T) -> Option<bool> {
    for (id, wanted) in [("b", 0), ("a", 1), ("c", 1u64)] {
        if put_counted(heap, alloc, tree, (0, id))? != wanted {
            return Some(false);
        }
    }
    Some(true)
}

// Whether memory for a tree of no rows is there.
fn can_be_made<A: Allocator + Copy>(alloc: A) -> bool {
    UbTree::new(alloc, Period::Week).is_ok()
}

// Whether a new tree takes its page, and the list of the regions of a tree of 33 rows itself.
fn is_short<T: OnLine + Regions>(
    heap: &Refusing<Global>,
    alloc: T::Alloc,
    tree: &mut T,
) -> Option<bool> {
    cut_with(alloc, tree, (0, 33))?;
    for (n, is_there) in [(1, false), (2, true)] {
        heap.arm(n);
        if can_be_made(alloc) != is_there || heap.is_armed() != is_there {
            return Some(false);
        }
        heap.arm(n);
        if tree.regions().is_some() != is_there || heap.is_armed() != is_there {
            return Some(false);
        }
    }
    Some(true)
}

// What is asked of a tree.
#[derive(Clone, Copy)]
enum Asked {
    Cut,
    Crowded,
    Counted,
    Listed,
    Short,
}

// Whether it is so.
fn is_so<T: OnLine + Regions>(
    heap: &Refusing<Global>,
    alloc: T::Alloc,
    tree: &mut T,
    asked: Asked,
) -> Option<bool> {
    match asked {
        Asked::Cut => is_cut(alloc, tree),
        Asked::Crowded => is_crowded(alloc, tree),
        Asked::Counted => is_counted(heap, alloc, tree),
        Asked::Listed => is_listed(heap, alloc, tree),
        Asked::Short => is_short(heap, alloc, tree),
    }
}

// Whether it is so of a new tree over an allocator.
fn is_so_of_new<A: Allocator + Copy>(heap: &Refusing<Global>, alloc: A, asked: Asked) -> bool {
    let Ok(mut tree) = UbTree::new(alloc, Period::Week) else {
        return false;
    };
    let is_so = is_so(heap, alloc, &mut tree, asked);
    drop(tree);
    is_so == Some(true)
}

// Whether it is so of a new tree over the heap that refuses.
fn holds(heap: &Refusing<Global>, asked: Asked) -> bool {
    is_so_of_new(heap, heap, asked)
}

#[test]
fn pages_are_split_evened_and_merged(rt: HostRuntime) {
    let heap = Refusing::new(rt.alloc());
    assert!(rt; holds(&heap, Asked::Cut));
}

#[test]
fn rows_of_one_key(rt: HostRuntime) {
    let heap = Refusing::new(rt.alloc());
    assert!(rt; holds(&heap, Asked::Crowded));
}

#[test]
fn each_growth_refused(rt: HostRuntime) {
    let heap = Refusing::new(rt.alloc());
    assert!(rt; holds(&heap, Asked::Counted));
}

#[test]
fn growths_at_one_key(rt: HostRuntime) {
    let heap = Refusing::new(rt.alloc());
    assert!(rt; holds(&heap, Asked::Listed));
}

#[test]
fn growths_of_trees_and_lists(rt: HostRuntime) {
    let heap = Refusing::new(rt.alloc());
    assert!(rt; holds(&heap, Asked::Short));
}
