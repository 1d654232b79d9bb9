//! Cutting a list in two without more memory.
ghost use Rattle.std.specs.Prelude.{◌≡◌, ◌+◌, ◌-◌, ◌<◌, ◌≤◌, ◌++◌, [], IsTrue, IsFalse, length, min, reverse, take, drop, vec_len};
ghost use Rattle.std.specs.Prelude.{vec_capacity};

use std::alloc::Allocator;

// Moves what stands from an index on into another list, which has room for it.
pub(crate) fn split_at<T: Drop, A: Allocator>(
    from: &mut Vec<T, A>,
    at: usize,
    mut to: Vec<T, A>,
) -> Vec<T, A>
    requires within { at ≤ vec_len from.old }
    requires empty { to.items ≡ [] }
    requires room { vec_len from.old ≤ at + vec_capacity to }
    ensures kept { from.new.items ≡ take at from.old.items }
    ensures moved { result.items ≡ drop at from.old.items }
    ensures capacity { vec_capacity from.new ≡ vec_capacity from.old }
    ensures to_capacity { vec_capacity to ≤ vec_capacity result }
{
    while from.len() > at {
        let Some(last) = from.pop() else {
            unreachable!()
        };
        let Ok(()) = to.push(last) else {
            unreachable!()
        };
    }
    to.reverse();
    to
}

// Evens two lists that stand side by side. Where they have at most 32 items together, all go into the
// left one; else one item goes over, so that both have 16 to 32. Says whether the right one has items.
pub(crate) fn share<T: Drop, A: Allocator>(left: &mut Vec<T, A>, right: &mut Vec<T, A>) -> bool
    requires left { (15 ≤ vec_len left.old) × (vec_len left.old ≤ 32) }
    requires right { (15 ≤ vec_len right.old) × (vec_len right.old ≤ 32) }
    requires both { vec_len left.old + vec_len right.old ≤ 47 }
    requires left_room { 33 ≤ vec_capacity left.old }
    requires right_room { 33 ≤ vec_capacity right.old }
    ensures kept { left.new.items ++ right.new.items ≡ left.old.items ++ right.old.items }
    ensures left { (16 ≤ length left.new.items) × (length left.new.items ≤ 32) }
    ensures some { IsTrue result → (16 ≤ length right.new.items) × (length right.new.items ≤ 32) }
    ensures none { IsFalse result → right.new.items ≡ [] }
    ensures left_room { 33 ≤ vec_capacity left.new }
    ensures right_room { 33 ≤ vec_capacity right.new }
{
    if left.len() + right.len() <= 32 {
        let Ok(()) = left.append(right) else {
            unreachable!()
        };
        return false;
    }
    if left.len() < right.len() {
        let Ok(()) = left.push(right.remove(0)) else {
            unreachable!()
        };
    } else {
        let Some(last) = left.pop() else {
            unreachable!()
        };
        let Ok(()) = right.insert(0, last) else {
            unreachable!()
        };
    }
    true
}

// Moves last items of one of two lists over to the end of the other, until it has at most so many.
fn pour<T: Drop, A: Allocator>(from: &mut Vec<T, A>, to: &mut Vec<T, A>, count: usize)
    requires room { vec_len from.old + vec_len to.old ≤ count + vec_capacity to.old }
    ensures kept { from.new.items ++ reverse to.new.items ≡ from.old.items ++ reverse to.old.items }
    ensures count { length from.new.items ≡ min count (length from.old.items) }
    ensures from_room { vec_capacity from.old ≤ vec_capacity from.new }
    ensures to_room { vec_capacity to.old ≤ vec_capacity to.new }
{
    while from.len() > count {
        let Some(last) = from.pop() else {
            unreachable!()
        };
        let Ok(()) = to.push(last) else {
            unreachable!()
        };
    }
}

// Moves items between two lists that stand side by side, so that both have 16 to 31.
pub(crate) fn halve<T: Drop, A: Allocator>(left: &mut Vec<T, A>, right: &mut Vec<T, A>)
    requires both { (32 ≤ vec_len left.old + vec_len right.old) × (vec_len left.old + vec_len right.old ≤ 62) }
    requires left_room { 33 ≤ vec_capacity left.old }
    requires right_room { 33 ≤ vec_capacity right.old }
    ensures kept { left.new.items ++ right.new.items ≡ left.old.items ++ right.old.items }
    ensures left { (16 ≤ length left.new.items) × (length left.new.items < 32) }
    ensures right { (16 ≤ length right.new.items) × (length right.new.items < 32) }
    ensures left_room { 33 ≤ vec_capacity left.new }
    ensures right_room { 33 ≤ vec_capacity right.new }
{
    let both = left.len() + right.len();
    let half = both / 2;
    right.reverse();
    pour(left, right, half);
    pour(right, left, both - half);
    right.reverse();
}
