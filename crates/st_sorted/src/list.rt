//! Searches in sorted lists, by halves.
//!
//! A sorted list is tried at its end before it is searched, since names often come in order. `goes_last` has a clause for its yes
//! alone: one that always said no would be slower.
ghost use Rattle.std.specs.Prelude.{◌≡◌, ◌<◌, ◌≤◌, true, false, filter, find, not, length, option_map, slice_index_or, IfSome, IfNone};
ghost use Rattle.std.specs.List.{list_any};
ghost use Rattle.st_sorted.specs.Sorted.{Rises};
ghost use Rattle.st_sorted.specs.inner.Places.{IsPlace, NoneOf, IsAlone};

use crate::wanted::Wanted;
use std::alloc::Allocator;

// Whether the key comes after that of the last item, or there is none.
fn goes_last<T: Drop, W: Wanted<T>>(items: &[T], wanted: &W) -> bool
    requires { Rises W.item_key items.now }
    ensures { result ≡ true → IsPlace W.item_key (W.key wanted.now) items.now (length items.now) }
{
    match items.last() {
        Some(last) => wanted.is_after(last),
        None => true,
    }
}

/// The place of a key in the list: the number of items with a lesser key. It tries the end first, so that items that come in
/// order are put in without a search.
pub fn place_of<T: Drop, W: Wanted<T>>(items: &[T], wanted: &W) -> usize
    requires { Rises W.item_key items.now }
    ensures place { IsPlace W.item_key (W.key wanted.now) items.now result }
    ensures inside { result ≤ length items.now }
    ensures alone { IsAlone (W.test wanted.now) items.now result }
{
    if goes_last(items, wanted) {
        return items.len();
    }
    items.partition_point(|item| wanted.is_after(item))
}

// Whether the item at a place has the key.
fn is_at<T: Drop, W: Wanted<T>>(items: &[T], place: usize, wanted: &W) -> bool
    ensures inside { result ≡ true → place < length items.now }
    ensures yes_at { result ≡ true → (d : T) → W.test wanted.now (slice_index_or items.now place d) ≡ true }
    ensures not_at { result ≡ false → (d : T) → place < length items.now
        → W.test wanted.now (slice_index_or items.now place d) ≡ false }
{
    place < items.len() && wanted.is_key_of(&items[place])
}

/// The place of the item with this key.
pub fn position<T: Drop, W: Wanted<T>>(items: &[T], wanted: &W) -> Option<usize>
    requires { Rises W.item_key items.now }
    ensures some { IfSome result (λ place. place < length items.now) }
    ensures found { IfSome result (λ place. (d : T) → W.test wanted.now (slice_index_or items.now place d) ≡ true) }
    ensures alone { IfSome result (λ place. IsAlone (W.test wanted.now) items.now place) }
    ensures none { IfNone result (NoneOf (W.test wanted.now) items.now) }
{
    let place = place_of(items, wanted);
    if is_at(items, place, wanted) {
        Some(place)
    } else {
        None
    }
}

/// Whether there is an item with this key.
pub fn has<T: Drop, W: Wanted<T>>(items: &[T], wanted: &W) -> bool
    requires { Rises W.item_key items.now }
    ensures { result ≡ list_any (W.test wanted.now) items.now }
{
    let place = place_of(items, wanted);
    is_at(items, place, wanted)
}

/// The item with this key.
pub fn get<'a, T: Drop, W: Wanted<T>>(items: &'a [T], wanted: &W) -> Option<&'a T>
    requires { Rises W.item_key items.now }
    ensures { option_map (λ item. item.now) result ≡ find (W.test wanted.now) items.now }
{
    match position(items, wanted) {
        Some(place) => Some(&items[place]),
        None => None,
    }
}

/// Takes out the item with this key, if there is one.
pub fn remove<T: Drop, W: Wanted<T>, A: Allocator>(items: &mut Vec<T, A>, wanted: &W)
    requires { Rises W.item_key items.old.items }
    ensures items { items.new.items ≡ filter (λ item. not (W.test wanted.now item)) items.old.items }
    ensures sorted { Rises W.item_key items.new.items }
{
    match position(items, wanted) {
        Some(place) => {
            let _ = items.remove(place);
        }
        None => {}
    }
}
