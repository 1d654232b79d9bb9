//! Where the rows of a name stand.
//!
//! A key of the map is 32 bits of the id's hash, 15 of the label's and 81 of the key's rank. The last two bytes of an id are added
//! to the hash of the others, so ids that are counted up lie near each other. If the system refuses randomness, the seed is what
//! its call left.
ghost use Rattle.std.specs.Prelude.{◌≡◌, ℕ, ◌+◌, ◌*◌, ◌^◌, ◌<◌, ◌≤◌, IfOk, IfSome, IfNone, OnOk, OnErr, nat_eq, if◌then◌else◌, [], List};
ghost use Rattle.st_key.specs.Key.{rank};
ghost use Rattle.st_table.specs.inner.Places.{AddsNoKeys, KeepsKeys, one_at, one_before, number_at, place_of};

use crate::seed::Seed;
use st_index::order;
use st_key::Key;
use std::alloc::{AllocError, Allocator};
use std::cmp::Ordering;
use std::collections::BTreeMap;
use std::marker::Model;

// How many places a hash has: one for each key.
const PLACES: u128 = 1 << 81;

// How many places an id's hash has: one for each hash of a label and each key.
const PLACES_OF_ID: u128 = 1 << 96;

// A key where rows of a hash stand, and how many.
#[derive(Clone, Copy)]
pub(crate) struct Stand {
    pub key: Key,
    pub number: u16,
}

// The rank of a key.
fn rank_in(key: Key) -> u128
    ensures value { result ≡ rank key }
    ensures in_range { result < 2 ^ 81 }
{
    u128::from(key.bin()) * (1 << 63) + u128::from(key.address())
}

// How many rows have a name of this hash and stand at this key, for each hash and key where any do. The places of one hash lie side
// by side, in the order of the keys, and so do those of one id's hash.
#[derive(Drop)]
pub(crate) struct Places<A: Allocator> {
    alloc: A,
    seed: Seed,
    numbers: BTreeMap<u128, u16, A>,
}

impl<A: Allocator> Model for Places<A> {
    ghost use Rattle.st_table.specs.inner.Places.{PlacesValue, HasNoZero};

    ghost Value = { PlacesValue };

    ghost view = { λ p. record { seed = p.seed; numbers = p.numbers.entries } };

    ghost invariant = { λ p. HasNoZero p.numbers.entries };
}

impl<A: Allocator + Copy> Places<A> {
    /// No rows.
    pub fn new(alloc: A, seed: Seed) -> Places<A>
        ensures seed { result.seed ≡ seed }
        ensures none { (place : ℕ) → number_at result.numbers place ≡ 0 }
    {
        Places {
            alloc,
            seed,
            numbers: BTreeMap::new(alloc),
        }
    }

    /// Equal numbers at equal places. An error if memory runs out.
    pub fn copy(&self) -> Result<Places<A>, AllocError>
        ensures { IfOk result (λ places. places ≡ self.now) }
    {
        Ok(Places {
            alloc: self.alloc,
            seed: self.seed,
            numbers: self.numbers.clone()?,
        })
    }

    /// The allocator.
    pub fn alloc(&self) -> A {
        self.alloc
    }

    /// The seed.
    pub fn seed(&self) -> Seed
        ensures { result ≡ self.now.seed }
    {
        self.seed
    }

    // Another number at a place where rows stand. It takes no memory.
    fn set(&mut self, place: u128, number: u16)
        requires some { 0 < number }
        requires held { 0 < number_at self.old.numbers place }
        ensures seed { self.new.seed ≡ self.old.seed }
        ensures numbers { (other : ℕ) → number_at self.new.numbers other
            ≡ (if nat_eq place other then number else number_at self.old.numbers other) }
    {
        let Ok(_) = self.numbers.insert(place, number) else {
            unreachable!()
        };
    }

    // One row more at a place. If memory runs out, or 65,535 rows stand there, nothing is changed.
    fn add(&mut self, place: u128) -> Result<(), AllocError>
        ensures seed { self.new.seed ≡ self.old.seed }
        ensures ok { OnOk result ((other : ℕ) → number_at self.new.numbers other
            ≡ number_at self.old.numbers other + one_at place other) }
        ensures err { OnErr result ((other : ℕ) → number_at self.new.numbers other ≡ number_at self.old.numbers other) }
    {
        let Ok(before) = self.numbers.insert(place, 1) else {
            return Err(AllocError);
        };
        let Some(number) = before else {
            return Ok(());
        };
        let more = number.checked_add(1);
        self.set(place, more.unwrap_or(number));
        match more {
            Some(_) => Ok(()),
            None => Err(AllocError),
        }
    }

    // How many rows stand at a place.
    fn number(&self, place: u128) -> u16
        ensures { result ≡ number_at self.now.numbers place }
    {
        self.numbers.get(&place).copied().unwrap_or(0)
    }

    // One row less at a place where so many stand. It takes no memory.
    fn take(&mut self, place: u128, number: u16)
        requires held { 0 < number_at self.old.numbers place }
        requires number { number ≡ number_at self.old.numbers place }
        ensures seed { self.new.seed ≡ self.old.seed }
        ensures numbers { (other : ℕ) → number_at self.new.numbers other + one_at place other ≡ number_at self.old.numbers other }
    {
        if number > 1 {
            self.set(place, number - 1);
        } else {
            let _ = self.numbers.remove(&place);
        }
    }

    /// A row of this hash, which stood at the one key if there was one, is put at the other. If memory runs out, nothing is changed.
    pub fn put(&mut self, hash: u64, before: Option<Key>, key: Key) -> Result<(), AllocError>
        requires hash { hash < 2 ^ 47 }
        requires held { IfSome before (λ old. 0 < number_at self.old.numbers (place_of hash (rank old))) }
        ensures seed { self.new.seed ≡ self.old.seed }
        ensures ok { OnOk result ((place : ℕ) → number_at self.new.numbers place + one_before hash before place
            ≡ number_at self.old.numbers place + one_at (place_of hash (rank key)) place) }
        ensures err { OnErr result ((place : ℕ) → number_at self.new.numbers place ≡ number_at self.old.numbers place) }
    {
        let place = u128::from(hash) * PLACES + rank_in(key);
        let Some(old) = before else {
            return self.add(place);
        };
        let left = u128::from(hash) * PLACES + rank_in(old);
        if left == place {
            return Ok(());
        }
        self.add(place)?;
        let number = self.number(left);
        self.take(left, number);
        Ok(())
    }

    /// A row of this hash, which stood there, is taken out. It takes no memory.
    pub fn delete(&mut self, hash: u64, stand: Stand)
        requires hash { hash < 2 ^ 47 }
        requires held { 0 < number_at self.old.numbers (place_of hash (rank stand.key)) }
        requires number { stand.number ≡ number_at self.old.numbers (place_of hash (rank stand.key)) }
        ensures seed { self.new.seed ≡ self.old.seed }
        ensures numbers { (place : ℕ) → number_at self.new.numbers place + one_at (place_of hash (rank stand.key)) place
            ≡ number_at self.old.numbers place }
    {
        self.take(u128::from(hash) * PLACES + rank_in(stand.key), stand.number);
    }

    // The first of so many places, from a number of them on, at which rows stand, as a number, and how many stand there.
    fn next_of(&self, first: u128, many: u128, from: u128) -> Option<(u128, u16)>
        requires { first + many ≤ 2 ^ 128 }
        ensures later { IfSome result (λ found. from ≤ found.0) }
        ensures in_range { IfSome result (λ found. found.0 < many) }
        ensures held { IfSome result (λ found. 0 < number_at self.now.numbers (first + found.0)) }
        ensures number { IfSome result (λ found. found.1 ≡ number_at self.now.numbers (first + found.0)) }
        ensures first { IfSome result (λ found. (n : ℕ) → from ≤ n → n < found.0 → number_at self.now.numbers (first + n) ≡ 0) }
        ensures none { IfNone result ((n : ℕ) → from ≤ n → n < many → number_at self.now.numbers (first + n) ≡ 0) }
    {
        if from >= many {
            return None;
        }
        let Some((place, number)) = self.numbers.range(first + from..).next() else {
            return None;
        };
        let found = *place - first;
        if found < many {
            Some((found, *number))
        } else {
            None
        }
    }

    /// The rank of the first key, from a rank on, at which rows of a hash stand, and how many stand there. It takes no memory.
    pub fn next(&self, hash: u64, from: u128) -> Option<(u128, u16)>
        requires hash { hash < 2 ^ 47 }
        ensures later { IfSome result (λ found. from ≤ found.0) }
        ensures in_range { IfSome result (λ found. found.0 < 2 ^ 81) }
        ensures held { IfSome result (λ found. 0 < number_at self.now.numbers (place_of hash found.0)) }
        ensures number { IfSome result (λ found. found.1 ≡ number_at self.now.numbers (place_of hash found.0)) }
        ensures first { IfSome result (λ found. (n : ℕ) → from ≤ n → n < found.0 → number_at self.now.numbers (place_of hash n) ≡ 0) }
        ensures none { IfNone result ((n : ℕ) → from ≤ n → n < 2 ^ 81 → number_at self.now.numbers (place_of hash n) ≡ 0) }
    {
        self.next_of(u128::from(hash) * PLACES, PLACES, from)
    }

    /// The keys at which rows of an id's hash stand, each once, as the places of the hash 0. An error if memory runs out.
    pub fn keys(&self, hash: u64) -> Result<Places<A>, AllocError>
        requires { hash < 2 ^ 32 }
        ensures all { IfOk result (λ keys. KeepsKeys self.now.numbers keys.numbers hash (2 ^ 96)) }
        ensures no_more { IfOk result (λ keys. AddsNoKeys self.now.numbers keys.numbers hash) }
    {
        let first = u128::from(hash) * PLACES_OF_ID;
        let mut keys = Places::new(self.alloc, self.seed);
        let mut from = 0;
        'places: while let Some((found, _)) = self.next_of(first, PLACES_OF_ID, from) {
            keys.add(found % PLACES)?;
            from = found + 1;
        }
        Ok(keys)
    }
}
