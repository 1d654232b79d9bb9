//! Points of space and time.
ghost use Rattle.std.specs.Prelude.{◌≡◌, ◌↔◌, ◌^◌, ◌<◌, ◌≤◌, IsOk, IfOk};

use thiserror::Error;

/// Not a point: a coordinate is above 2,097,151, or a time above 19,818,086,399.
#[derive(Clone, Copy, Debug, PartialEq, Eq, Error)]
#[error("a coordinate or a time is out of range")]
pub struct OutOfRange;

/// A place in a square of 2^21 units a side, and a second: x and y are 0 to 2,097,151, t is 0 to
/// 19,818,086,399, so that each fits in the 21 bits that GeoMesa's Z3 index gives it.
#[derive(Clone, Copy, PartialEq, Eq, Debug)]
pub struct Point {
    pub(crate) x: u32,
    pub(crate) y: u32,
    pub(crate) t: u64,
    pub ghost x_in_range: { x < 2 ^ 21 },
    pub ghost y_in_range: { y < 2 ^ 21 },
    pub ghost t_in_range: { t < 19818086400 },
}

impl Point {
    /// One more than the largest coordinate.
    pub const SIDE: u64 = 1 << 21;

    /// One more than the latest second.
    pub const END: u64 = 19_818_086_400;

    /// The point with these coordinates. `OutOfRange` when one of them is too large.
    pub fn new(x: u64, y: u64, t: u64) -> Result<Point, OutOfRange>
        ensures valid { IsOk result ↔ (x ≤ 2097151) × (y ≤ 2097151) × (t ≤ 19818086399) }
        ensures fields { IfOk result (λ p. (p.x ≡ x) × (p.y ≡ y) × (p.t ≡ t)) }
    {
        if x < Self::SIDE && y < Self::SIDE && t < Self::END {
            Ok(Point {
                x: x as u32,
                y: y as u32,
                t,
            })
        } else {
            Err(OutOfRange)
        }
    }

    /// The first coordinate.
    pub fn x(&self) -> u32
        ensures value { result ≡ self.now.x }
        ensures in_range { result < 2 ^ 21 }
    {
        self.x
    }

    /// The second coordinate.
    pub fn y(&self) -> u32
        ensures value { result ≡ self.now.y }
        ensures in_range { result < 2 ^ 21 }
    {
        self.y
    }

    /// The second, counted from the first.
    pub fn t(&self) -> u64
        ensures value { result ≡ self.now.t }
        ensures in_range { result < 19818086400 }
    {
        self.t
    }
}
