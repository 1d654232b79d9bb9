//! An allocator for tests: it passes each call on to another, and refuses one chosen allocation.
#![tactic(auto)]

use std::alloc::{AllocError, Allocator};
use std::cell::Cell;

/// Hands each call on to an inner allocator, but for the one allocation that `arm` chose, which it answers with `AllocError`.
///
/// A `&Refusing<B>` is `Copy` and an allocator itself, so code over `A: Allocator + Copy` is tested with it. Freeing is never refused.
/// It isn't shared between threads.
pub struct Refusing<B: Allocator> {
    inner: B,
    // How many allocations there are up to the refused one, itself included; 0 where none is to be refused.
    left: Cell<u64>,
}

impl<B: Allocator> Refusing<B> {
    /// An allocator that refuses nothing until it is armed.
    pub fn new(inner: B) -> Refusing<B> {
        Refusing {
            inner,
            left: Cell::new(0),
        }
    }

    /// The `n`th allocation from here on is refused, counting from 1, and no later one; with 0, none is.
    pub fn arm(&self, n: u64) {
        self.left.set(n);
    }

    /// Whether the chosen allocation is still to come: then the run since `arm` met no refusal, and a larger `n` meets none either.
    pub fn is_armed(&self) -> bool {
        self.left.get() != 0
    }
}

impl<B: Allocator> Drop for Refusing<B> {
    fn drop(self) {
        let Self { inner: _, left: _ } = self;
    }
}

// Counts one allocation, and says whether it is the one to refuse.
fn refuses(left: &Cell<u64>) -> bool {
    let n = left.get();
    if n > 0 {
        left.set(n - 1);
    }
    n == 1
}

unsafe impl<B: Allocator> Allocator for Refusing<B> {
    ghost dealloc_token = { λ heap ty ptr. B.dealloc_token heap.inner ty ptr };

    fn allocate(&self, size: usize, align: usize) -> Result<*mut u8, AllocError> {
        if refuses(&self.left) {
            return Err(AllocError);
        }
        self.inner.allocate(size, align)
    }

    unsafe fn deallocate(&self, ptr: *mut u8, size: usize, align: usize) {
        self.inner.deallocate(ptr, size, align);
    }
}
