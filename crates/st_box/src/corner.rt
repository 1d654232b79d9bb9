//! Corners of boxes.
ghost use Rattle.std.specs.Prelude.{◌≡◌, ◌↔◌, ◌^◌, ◌<◌, IsTrue};
ghost use Rattle.st_key.specs.Morton.{spread, gather};
ghost use Rattle.st_key.specs.Order.{Spot};
ghost use Rattle.st_box.specs.Corner.{spot_at, IsWithin};
ghost use Rattle.st_box.specs.inner.Corners.{address_at, later_of, earlier_of};

use st_key::spread;
use std::marker::Model;

// Every third bit.
const LANE: u64 = 0x1249_2492_4924_9249;

/// A place, with the bits of each part moved three places apart, as in an address. The order of
/// parts is the same, and none has to be moved back to compare it.
#[derive(Drop)]
pub struct Corner {
    x: u64,
    y: u64,
    offset: u64,
}

impl Model for Corner {
    ghost Value = { Spot };

    ghost view = { λ c. record { x = gather 21 c.x; y = gather 21 c.y; offset = gather 21 c.offset } };

    ghost invariant = { λ c.
        (c.x ≡ spread 21 (gather 21 c.x)) × (c.y ≡ spread 21 (gather 21 c.y)) × (c.offset ≡ spread 21 (gather 21 c.offset)) };
}

impl Corner {
    /// The place at these coordinates, each below 2^21.
    pub fn new(x: u32, y: u32, offset: u32) -> Corner
        requires x_in_range { x < 2 ^ 21 }
        requires y_in_range { y < 2 ^ 21 }
        requires offset_in_range { offset < 2 ^ 21 }
        ensures { result ≡ record { x = x; y = y; offset = offset } }
    {
        Corner {
            x: spread(x),
            y: spread(y),
            offset: spread(offset),
        }
    }

    // The place whose parts these are, each already moved apart.
    pub(crate) fn of_parts(x: u64, y: u64, offset: u64) -> Corner
        requires x_apart { x ≡ spread 21 (gather 21 x) }
        requires y_apart { y ≡ spread 21 (gather 21 y) }
        requires offset_apart { offset ≡ spread 21 (gather 21 offset) }
        ensures { result ≡ record { x = gather 21 x; y = gather 21 y; offset = gather 21 offset } }
    {
        Corner { x, y, offset }
    }

    /// The place of an address.
    pub fn at(address: u64) -> Corner
        ensures { result ≡ spot_at address }
    {
        Corner {
            x: address & LANE,
            y: address >> 1 & LANE,
            offset: address >> 2 & LANE,
        }
    }

    /// The address of the place.
    pub fn address(&self) -> u64
        ensures { result ≡ address_at self.now }
    {
        self.x | self.y << 1 | self.offset << 2
    }

    /// Whether no part is above that of the other.
    pub fn is_within(&self, other: &Corner) -> bool
        ensures { IsTrue result ↔ IsWithin self.now other.now }
    {
        self.x <= other.x && self.y <= other.y && self.offset <= other.offset
    }

    /// The address of the place that has the greater of each part.
    pub fn later_address(&self, other: &Corner) -> u64
        ensures { result ≡ address_at (later_of self.now other.now) }
    {
        self.x.max(other.x) | self.y.max(other.y) << 1 | self.offset.max(other.offset) << 2
    }

    /// The address of the place that has the less of each part.
    pub fn earlier_address(&self, other: &Corner) -> u64
        ensures { result ≡ address_at (earlier_of self.now other.now) }
    {
        self.x.min(other.x) | self.y.min(other.y) << 1 | self.offset.min(other.offset) << 2
    }
}
