//! Putting in values of any type: into lists that have room for them, and in the place of others.
//!
//! Each put of a further row of a key allocates a list, since `prepare` may not grow one that is held. The rows move into it only
//! if theirs is full.
ghost use Rattle.std.specs.Prelude.{◌≡◌, ◌+◌, ◌<◌, ◌≤◌, [], ◌∷◌, length, vec_len, vec_capacity};
ghost use Rattle.std.specs.List.{insert};

use std::alloc::Allocator;

// Puts an item in at an index. The list takes it without more memory.
pub(crate) fn put<T: Drop, A: Allocator>(items: &mut Vec<T, A>, index: usize, item: T)
    requires index { index ≤ length items.old.items }
    requires room { length items.old.items < vec_capacity items.old }
    ensures items { items.new.items ≡ insert items.old.items index item }
    ensures longer { vec_len items.new ≡ vec_len items.old + 1 }
    ensures capacity { vec_capacity items.old ≤ vec_capacity items.new }
{
    let Ok(()) = items.insert(index, item) else {
        unreachable!()
    };
}

// Moves all items of a list into one that has none, and room for one more.
pub(crate) fn take_over<T: Drop, A: Allocator>(list: &mut Vec<T, A>, from: &mut Vec<T, A>)
    requires empty { list.old.items ≡ [] }
    requires room { length from.old.items < vec_capacity list.old }
    ensures items { list.new.items ≡ from.old.items }
    ensures room { length from.old.items < vec_capacity list.new }
{
    let Ok(()) = list.append(from) else {
        unreachable!()
    };
}

// The items that are held, in a list with room for one more: their own, or the new one where that is full.
pub(crate) fn with_room<T: Drop, A: Allocator>(
    mut held: Vec<T, A>,
    mut list: Vec<T, A>,
) -> Vec<T, A>
    requires empty { list.items ≡ [] }
    requires room { length held.items < vec_capacity list }
    ensures same { result.items ≡ held.items }
    ensures room { length held.items < vec_capacity result }
{
    if held.len() < held.capacity() {
        return held;
    }
    take_over(&mut list, &mut held);
    list
}

// The list of an item at an index and of another that was alone.
pub(crate) fn two<T: Drop, A: Allocator>(
    index: usize,
    item: T,
    held: T,
    mut list: Vec<T, A>,
) -> Vec<T, A>
    requires index { index ≤ 1 }
    requires empty { list.items ≡ [] }
    requires room { 1 < vec_capacity list }
    ensures { result.items ≡ insert (held ∷ []) index item }
{
    put(&mut list, 0, held);
    put(&mut list, index, item);
    list
}

// The list of an item at an index and of those that are held.
pub(crate) fn more<T: Drop, A: Allocator>(
    index: usize,
    item: T,
    held: Vec<T, A>,
    list: Vec<T, A>,
) -> Vec<T, A>
    requires index { index ≤ length held.items }
    requires empty { list.items ≡ [] }
    requires room { length held.items < vec_capacity list }
    ensures { result.items ≡ insert held.items index item }
{
    let mut items = with_room(held, list);
    put(&mut items, index, item);
    items
}

// Overwrites a value; the old one is dropped.
pub(crate) fn overwrite<T: Drop>(at: &mut T, value: T)
    ensures { at.new ≡ value }
{
    *at = value;
}
