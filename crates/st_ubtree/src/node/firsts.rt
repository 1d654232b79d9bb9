//! The first keys of a node's children, which a search reads side by side.
ghost use Rattle.std.specs.Prelude.{◌≡◌, ◌+◌, ◌<◌, ◌≤◌, List, length, take, ltb, true, false, []};
ghost use Rattle.std.specs.List.{insert, position, remove};
ghost use Rattle.std.specs.List.Sorted.{IsPartitionPoint, IsPartitionedBy};
ghost use Rattle.arrayvec.specs.ArrayVec.{array_vec_len};
ghost use Rattle.st_key.specs.Key.{rank};
ghost use Rattle.st_tally.specs.inner.Pages.{NodeValue};
ghost use Rattle.st_ubtree.specs.inner.Firsts.{AreFirsts, begins_by};
ghost use Rattle.st_ubtree.specs.inner.Growing.{IsChosen};
ghost use Rattle.st_tally.specs.inner.Marks.{HasAt};

use super::Node;
use arrayvec::ArrayVec;
use st_index::order;
use st_key::Key;
use std::alloc::{Allocator, Global};
use std::marker::PhantomData;

// The first key of a child. By itself it is the first of all keys.
#[derive(Clone, Copy, Drop)]
struct First {
    key: Key,
}

impl Default for First {
    fn default() -> Self {
        First { key: Key::FIRST }
    }
}

/// The first keys of a node's children, in their order. The children's memory comes from `A`.
#[derive(Drop)]
pub struct Firsts<A: Allocator = Global> {
    keys: ArrayVec<First, 33>,
    memory: PhantomData<A>,
}

// The index of the first key after this one. The keys are looked at one by one: a processor fetches several at once, where a search
// by halves would wait for one after the other.
fn first_after(keys: &[First], key: Key) -> Option<usize>
    ensures { result ≡ position (λ k. ltb (rank key) (rank k.key)) keys.now }
{
    keys.iter()
        .position(|first| order::is_before(key, first.key))
}

impl<A: Allocator + Copy> Firsts<A> {
    /// No first key.
    pub fn none() -> Firsts<A>
        ensures { result.keys.items ≡ [] }
    {
        Firsts {
            keys: ArrayVec::new(),
            memory: PhantomData,
        }
    }

    /// How many children begin at or before the key.
    pub fn count_up_to(&self, key: Key) -> usize
        ensures bound { (kids : List (NodeValue A)) → AreFirsts self.now kids → result ≤ length kids }
        ensures place { (kids : List (NodeValue A)) → AreFirsts self.now kids
            → IsPartitionedBy (begins_by key) kids
            → IsPartitionPoint (λ v. begins_by key v ≡ true) (λ v. begins_by key v ≡ false) kids result }
    {
        let keys = self.keys.as_slice();
        first_after(keys, key).unwrap_or(keys.len())
    }

    /// Where the child stands that a search for the key goes on in: the last that begins at or before it, or else the first.
    pub fn child_for(&self, key: Key) -> usize
        ensures { (kids : List (NodeValue A)) → 1 ≤ length kids → AreFirsts self.now kids → IsChosen (rank key) kids result }
    {
        self.count_up_to(key).max(1) - 1
    }

    /// The first key of a child.
    pub fn at(&self, at: usize) -> Key
        requires { at < array_vec_len self.now.keys }
        ensures { (kids : List (NodeValue A)) (v : NodeValue A) → AreFirsts self.now kids → HasAt kids at v → rank result ≡ v.first }
    {
        self.keys.as_slice()[at].key
    }

    /// Puts in that of a child that comes in at a place.
    pub fn insert_at(&mut self, at: usize, kid: &Node<A>)
        ensures { (kids : List (NodeValue A)) → at ≤ length kids → length kids ≤ 32 → AreFirsts self.old kids
            → AreFirsts self.new (insert kids at kid.now) }
    {
        if at > self.keys.len() {
            return;
        }
        if self.keys.is_full() {
            return;
        }
        self.keys.insert(at, First { key: kid.first });
    }

    /// Lets go of that of a child that is taken out.
    pub fn remove_at(&mut self, at: usize)
        ensures { (kids : List (NodeValue A)) → at < length kids → AreFirsts self.old kids → AreFirsts self.new (remove kids at) }
    {
        if at >= self.keys.len() {
            return;
        }
        let _first = self.keys.remove(at);
    }

    /// Keeps those of so many children.
    pub fn keep(&mut self, count: usize)
        ensures { (kids : List (NodeValue A)) → AreFirsts self.old kids → AreFirsts self.new (take count kids) }
    {
        self.keys.truncate(count);
    }

    /// Takes those of some children in their place.
    pub fn renew(&mut self, kids: &[Node<A>])
        requires few { length kids.now ≤ 33 }
        ensures { AreFirsts self.new kids.now }
    {
        self.keys.clear();
        for kid in kids {
            self.keys.push(First { key: kid.first });
        }
    }
}
