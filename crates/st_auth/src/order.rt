//! The order of names.
//!
//! A set is sorted by the first 8 bytes of each name as one number (`Fronts`), the greatest first; only names that agree in these
//! are compared whole.
ghost use Rattle.std.specs.Prelude.{◌≡◌, IfOk, slice_index};
ghost use Rattle.std.specs.Cmp.Lexicographic.{slice_cmp};
ghost use Rattle.std.specs.Ordering.{nat_cmp};
ghost use Rattle.std.specs.List.{range_with_len};
ghost use Rattle.st_auth.specs.inner.Order.{IsOrder, name_at};
ghost use Rattle.st_auth.specs.inner.Fronts.{AreBytes, front};

use st_text::CompactText;
use std::alloc::{AllocError, Allocator};
use std::cmp::Ordering;
use std::marker::Model;

// Names, and beside them the numbers that their first bytes spell. Most comparisons need only these, which lie in one list.
#[derive(Drop)]
struct Fronts<'n, A: Allocator> {
    names: &'n [CompactText<A>],
    fronts: Vec<u64, A>,
}

impl<'n, A: Allocator> Model for Fronts<'n, A> {
    ghost use Rattle.std.specs.Prelude.{ℕ, List, ◌≡◌, map};
    ghost use Rattle.st_auth.specs.inner.Order.{name_at};
    ghost use Rattle.st_auth.specs.inner.Fronts.{AreBytes, front};

    ghost Value = { List (List ℕ) };

    ghost view = { λ f. f.names.now };

    ghost invariant = { λ f. (f.fronts.items ≡ map front f.names.now) × ((place : ℕ) → AreBytes (name_at f.names.now place)) };
}

impl<'n, A: Allocator + Copy> Fronts<'n, A> {
    // `AllocError` when out of memory.
    fn new(alloc: A, names: &'n [CompactText<A>]) -> Result<Fronts<'n, A>, AllocError>
        ensures { IfOk result (λ fronts. fronts ≡ names.now) }
    {
        let mut fronts = Vec::with_capacity(alloc, names.len())?;
        for name in names {
            fronts.push(front(name.as_str()))?;
        }
        Ok(Fronts { names, fronts })
    }
}

impl<'n, A: Allocator> Fronts<'n, A> {
    // How the names at two indices compare, by bytes.
    fn compare(&self, one: usize, other: usize) -> Ordering
        ensures { result ≡ slice_cmp nat_cmp (name_at self.now one) (name_at self.now other) }
    {
        let (first, second) = (self.front(one), self.front(other));
        if first != second {
            return first.cmp(&second);
        }
        name_or_empty(self.names, one).cmp(name_or_empty(self.names, other))
    }

    // The front of the name at an index, or of the empty text past the end.
    fn front(&self, place: usize) -> u64
        ensures number { result ≡ front (name_at self.now place) }
        ensures bytes { AreBytes (name_at self.now place) }
    {
        match self.fronts.get(place) {
            Some(front) => *front,
            None => 0,
        }
    }
}

// What the first 8 bytes spell, the greatest first. A shorter text counts as followed by zeros.
fn front(text: &str) -> u64
    ensures number { result ≡ front text.now }
    ensures bytes { AreBytes text.now }
{
    let bytes = text.as_bytes();
    u64::from_be_bytes([
        byte_or_zero(bytes, 0),
        byte_or_zero(bytes, 1),
        byte_or_zero(bytes, 2),
        byte_or_zero(bytes, 3),
        byte_or_zero(bytes, 4),
        byte_or_zero(bytes, 5),
        byte_or_zero(bytes, 6),
        byte_or_zero(bytes, 7),
    ])
}

// The byte at a place, or 0 past the end.
fn byte_or_zero(bytes: &[u8], place: usize) -> u8
    ensures { result ≡ slice_index bytes.now place }
{
    match bytes.get(place) {
        Some(byte) => *byte,
        None => 0,
    }
}

// The name at an index, or the empty text past the end.
pub(crate) fn name_or_empty<A: Allocator>(names: &[CompactText<A>], place: usize) -> &str
    ensures { result.now ≡ name_at names.now place }
{
    match names.get(place) {
        Some(name) => name.as_str(),
        None => "",
    }
}

// The numbers below `count`.
fn places<A: Allocator>(alloc: A, count: usize) -> Result<Vec<usize, A>, AllocError>
    ensures { IfOk result (λ list. list.items ≡ range_with_len 0 count) }
{
    let mut list = Vec::with_capacity(alloc, count)?;
    for place in 0..count {
        list.push(place)?;
    }
    Ok(list)
}

// The indices of the names, lesser names first. `AllocError` when out of memory.
pub(crate) fn places_in_order<A: Allocator + Copy>(
    alloc: A,
    names: &[CompactText<A>],
) -> Result<Vec<usize, A>, AllocError>
    ensures { IfOk result (λ order. IsOrder names.now order.items) }
{
    let mut order = places(alloc, names.len())?;
    let fronts = Fronts::new(alloc, names)?;
    order.sort_by(|one, other| fronts.compare(*one, *other))?;
    Ok(order)
}
