//! Lists that contracts see as their items.
ghost use Rattle.std.specs.Prelude.{◌≡◌, ◌++◌, ◌∷◌, [], OnOk, OnErr, length};

use std::alloc::{AllocError, Allocator, Global};
use std::marker::Model;

/// A list on the heap. Contracts see it as its items.
#[derive(Drop)]
pub struct Items<T: Drop, A: Allocator = Global> {
    items: Vec<T, A>,
}

impl<T: Drop, A: Allocator> Model for Items<T, A> {
    ghost use Rattle.std.specs.Prelude.{List};

    ghost Value = { List T };

    ghost view = { λ v. v.items.items };
}

impl<T: Drop, A: Allocator> Items<T, A> {
    /// The empty list. It allocates nothing.
    pub fn new(alloc: A) -> Items<T, A>
        ensures { result ≡ [] }
    {
        Items {
            items: Vec::new(alloc),
        }
    }

    /// The list of these items.
    pub fn from_vec(items: Vec<T, A>) -> Items<T, A>
        ensures { result ≡ items.items }
    {
        Items { items }
    }

    /// The items, in order.
    pub fn as_slice(&self) -> &[T]
        ensures { result.now ≡ self.now }
    {
        self.items.as_slice()
    }

    /// The number of items.
    pub fn len(&self) -> usize
        ensures { result ≡ length self.now }
    {
        self.items.len()
    }

    /// Appends an item. `AllocError` when out of memory; the list is then unchanged.
    pub fn push(&mut self, item: T) -> Result<(), AllocError>
        ensures ok { OnOk result (self.new ≡ self.old ++ item ∷ []) }
        ensures err { OnErr result (self.new ≡ self.old) }
    {
        self.items.push(item)?;
        Ok(())
    }
}
