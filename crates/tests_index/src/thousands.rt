//! Two thousand rows, each of a key of its own, put into a UB-tree and into an index of one region and taken out again: the places
//! that are held are always those from one to another, and both say so.

use crate::on_line::{OnLine, Places, Regions, put_at, take_at};
use st_index::ListIndex;
use st_key::Period;
use st_ubtree::UbTree;
use std::alloc::Allocator;

const COUNT: u64 = 2_000;

const ALL: Places = (0, COUNT);

const MIDDLE: Places = (500, 1_500);

const HALVES: [Places; 2] = [(0, 1_000), (1_000, COUNT)];

// An order of all places.
#[derive(Clone, Copy)]
enum Order {
    Rising,
    Falling,
}

impl Order {
    // The place of this number.
    fn place(self, number: u64) -> u64 {
        match self {
            Order::Rising => number,
            Order::Falling => COUNT.saturating_sub(number).saturating_sub(1),
        }
    }

    // The places up to this number.
    fn so_far(self, number: u64) -> Places {
        match self {
            Order::Rising => (0, number.saturating_add(1)),
            Order::Falling => (self.place(number), COUNT),
        }
    }

    // The places past this number.
    fn left(self, number: u64) -> Places {
        match self {
            Order::Rising => (number.saturating_add(1), COUNT),
            Order::Falling => (0, self.place(number)),
        }
    }
}

// Those of the places that are in a part.
fn common((from, to): Places, (first, end): Places) -> Places {
    (from.max(first), to.min(end))
}

// The box of a part.
fn box_of((first, end): Places) -> [u64; 6] {
    [first, end.saturating_sub(1), 0, 0, 0, 0]
}

// Whether an index counts the rows of these places in a part.
fn counts<I: OnLine>(alloc: I::Alloc, index: &I, places: Places, part: Places) -> Option<bool> {
    let (from, to) = common(places, part);
    let counted = index.counted(alloc, box_of(part))?;
    Some(counted == to.saturating_sub(from))
}

// Whether an index shows the rows of these places in a part.
fn finds<I: OnLine>(alloc: I::Alloc, index: &I, places: Places, part: Places) -> Option<bool> {
    index.finds(alloc, box_of(part), common(places, part))
}

// Whether an index has the rows of these places: by a count of the middle, and one by one.
fn is_full<I: OnLine>(alloc: I::Alloc, index: &I, places: Places) -> Option<bool> {
    let [low, high] = HALVES;
    let is_counted = counts(alloc, index, places, MIDDLE)?;
    let is_low = finds(alloc, index, places, low)?;
    let is_high = finds(alloc, index, places, high)?;
    Some(is_counted && is_low && is_high)
}

// Whether an index has the rows of these places after the step of this number: by a count of all, and each hundredth time closer.
// One whose counts are slow is asked each tenth time.
fn holds<I: OnLine>(
    alloc: I::Alloc,
    index: &I,
    (number, is_slow): (u64, bool),
    places: Places,
) -> Option<bool> {
    if number % 100 == 99 {
        return Some(counts(alloc, index, places, ALL)? && is_full(alloc, index, places)?);
    }
    if is_slow && number % 10 > 0 {
        return Some(true);
    }
    counts(alloc, index, places, ALL)
}

// Puts in a row at each place, in an order. Whether the index has the rows of the places so far after each.
fn put_all<I: OnLine>(alloc: I::Alloc, index: &mut I, order: Order, is_slow: bool) -> Option<bool> {
    for number in 0..COUNT {
        put_at(index, alloc, order.place(number), "a")?;
        if !holds(alloc, index, (number, is_slow), order.so_far(number))? {
            return Some(false);
        }
    }
    Some(true)
}

// Takes out the row of each place, in an order. Whether each was there, and the index has the rows of the places left after each.
fn take_all<I: OnLine>(
    alloc: I::Alloc,
    index: &mut I,
    order: Order,
    is_slow: bool,
) -> Option<bool> {
    for number in 0..COUNT {
        let was_held = take_at(index, alloc, order.place(number), "a")?;
        if !was_held || !holds(alloc, index, (number, is_slow), order.left(number))? {
            return Some(false);
        }
    }
    Some(true)
}

// Whether an index has the right rows throughout, where they are put in by one order and taken out by another.
fn is_right<I: OnLine>(
    alloc: I::Alloc,
    index: &mut I,
    (puts, takes): (Order, Order),
    is_slow: bool,
) -> Option<bool> {
    let is_put = put_all(alloc, index, puts, is_slow)?;
    let is_taken = take_all(alloc, index, takes, is_slow)?;
    Some(is_put && is_taken)
}

// Whether an index of one region has, by both pairs of orders.
fn is_list_right<I: OnLine>(alloc: I::Alloc, list: &mut I) -> Option<bool> {
    let is_risen = is_right(alloc, list, (Order::Rising, Order::Falling), true)?;
    let is_fallen = is_right(alloc, list, (Order::Falling, Order::Rising), true)?;
    Some(is_risen && is_fallen)
}

// Whether a new one has.
fn is_new_list_right<A: Allocator + Copy>(alloc: A) -> Option<bool> {
    is_list_right(alloc, &mut ListIndex::new(alloc, Period::Week))
}

// How many regions a tree has once the rows are put in, and how many regions and rows once they are taken out, if it has the right
// rows throughout.
fn sizes_of<T: OnLine + Regions>(
    alloc: T::Alloc,
    tree: &mut T,
    (puts, takes): (Order, Order),
) -> Option<(usize, usize, u64)> {
    if !put_all(alloc, tree, puts, false)? {
        return None;
    }
    let (_, most) = tree.regions()?;
    if !take_all(alloc, tree, takes, false)? {
        return None;
    }
    let (_, least) = tree.regions()?;
    Some((most, least, tree.len()))
}

// Those of a new tree.
fn sizes<A: Allocator + Copy>(alloc: A, orders: (Order, Order)) -> Option<(usize, usize, u64)> {
    let Ok(mut tree) = UbTree::new(alloc, Period::Week) else {
        return None;
    };
    let sizes = sizes_of(alloc, &mut tree, orders);
    drop(tree);
    sizes
}

// Each page is evened with the one before it once, and splits into 16 and 17 when it is full again. An inner node holds 32.
#[test]
fn put_in_rising_and_taken_out_in_falling_order(rt: HostRuntime) {
    let found = sizes(rt.alloc(), (Order::Rising, Order::Falling));
    assert!(rt; found == Some((83, 1, 0)));
}

// Here it is evened with the one behind it.
#[test]
fn put_in_falling_and_taken_out_in_rising_order(rt: HostRuntime) {
    let found = sizes(rt.alloc(), (Order::Falling, Order::Rising));
    assert!(rt; found == Some((80, 1, 0)));
}

#[test]
fn the_same_of_one_region(rt: HostRuntime) {
    assert!(rt; is_new_list_right(rt.alloc()) == Some(true));
}
