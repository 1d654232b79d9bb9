//! Queries.
ghost use Rattle.std.specs.Prelude.{◌≡◌, ◌↔◌, ◌^◌, ◌<◌, ◌≤◌, ◌/◌, ◌+◌, IsOk, IfOk, IsTrue, map};

use crate::part::Part;
use crate::zbox::ZBox;
use arrayvec::ArrayVec;
use st_key::{Key, Period, Point};
use thiserror::Error;

/// The six numbers are not a query: one is out of range, or a pair is reversed.
#[derive(Clone, Copy, Debug, PartialEq, Eq, Error)]
#[error("a bound of the box is out of range, or a pair of bounds is reversed")]
pub struct BadBox;

/// A box and a span of time, both ends included: x and y are 0 to 2,097,151, t is 0 to
/// 19,818,086,399.
#[derive(Clone, Copy, PartialEq, Eq, Debug)]
pub struct Query {
    x0: u32,
    x1: u32,
    y0: u32,
    y1: u32,
    t0: u64,
    t1: u64,
    pub ghost x_ordered: { x0 ≤ x1 },
    pub ghost y_ordered: { y0 ≤ y1 },
    pub ghost t_ordered: { t0 ≤ t1 },
    pub ghost x_in_range: { x1 < 2 ^ 21 },
    pub ghost y_in_range: { y1 < 2 ^ 21 },
    pub ghost t_in_range: { t1 < 19818086400 },
}

impl Query {
    ghost use Rattle.st_key.specs.Period.{seconds_of};
    ghost use Rattle.st_key.specs.declared.key.Key.{Key};
    ghost use Rattle.st_box.specs.Part.{cut_of, cuts_of};
    ghost use Rattle.st_box.specs.inner.Parts.{HasPart, FollowBins};
    ghost use Rattle.st_box.specs.inner.Edges.{IsEdge, IsMiddle};
    ghost use Rattle.st_box.specs.Query.{Makes, is_inside, HasKey};
    ghost use Rattle.st_box.specs.inner.Bins.{IsBoxIn, first_offset_of, last_offset_of};
    ghost use Rattle.st_box.specs.inner.Edges.{IsFirstOffset, IsLastOffset};
    ghost use Rattle.st_box.specs.inner.Bounds.{HasBounds};

    /// The query with these bounds. `BadBox` when one is out of range or a pair is reversed.
    pub fn new(x0: u64, x1: u64, y0: u64, y1: u64, t0: u64, t1: u64) -> Result<Query, BadBox>
        ensures valid { IsOk result
            ↔ (x0 ≤ x1) × (x1 ≤ 2097151) × (y0 ≤ y1) × (y1 ≤ 2097151) × (t0 ≤ t1) × (t1 ≤ 19818086399) }
        ensures bounds { IfOk result (Makes x0 x1 y0 y1 t0 t1) }
    {
        let in_order = x0 <= x1 && y0 <= y1 && t0 <= t1;
        if in_order && x1 < Point::SIDE && y1 < Point::SIDE && t1 < Point::END {
            Ok(Query {
                x0: x0 as u32,
                x1: x1 as u32,
                y0: y0 as u32,
                y1: y1 as u32,
                t0,
                t1,
            })
        } else {
            Err(BadBox)
        }
    }

    /// Whether the point is in the box and the span.
    pub fn has(&self, point: &Point) -> bool
        ensures { result ≡ is_inside self.now point.now }
    {
        self.x0 <= point.x()
            && point.x() <= self.x1
            && self.y0 <= point.y()
            && point.y() <= self.y1
            && self.t0 <= point.t()
            && point.t() <= self.t1
    }

    /// Whether the key is that of a point inside the query.
    pub fn has_key(&self, key: Key, period: Period) -> bool
        ensures { IsTrue result ↔ HasKey self.now period key }
    {
        match key.point(period) {
            Some(point) => self.has(&point),
            None => false,
        }
    }

    // The first offset of a bin that is in the span.
    fn first_offset(&self, bin: u32, period: Period) -> u32
        requires { self.now.t0 / seconds_of period ≤ bin }
        ensures starts { IsFirstOffset period bin self.now.t0 result }
        ensures value { result ≡ first_offset_of period self.now.t0 bin }
    {
        if u64::from(bin) == self.t0 / period.seconds() {
            (self.t0 % period.seconds()) as u32
        } else {
            0
        }
    }

    // The last offset of a bin that is in the span.
    fn last_offset(&self, bin: u32, period: Period) -> u32
        requires { bin ≤ self.now.t1 / seconds_of period }
        ensures ends { IsLastOffset period bin self.now.t1 result }
        ensures value { result ≡ last_offset_of period self.now.t1 bin }
        ensures in_range { result < seconds_of period }
    {
        if u64::from(bin) == self.t1 / period.seconds() {
            (self.t1 % period.seconds()) as u32
        } else {
            (period.seconds() - 1) as u32
        }
    }

    /// The query in one bin of its span: the addresses of its keys there.
    pub fn box_in(&self, bin: u32, period: Period) -> ZBox
        requires from_first { self.now.t0 / seconds_of period ≤ bin }
        requires to_last { bin ≤ self.now.t1 / seconds_of period }
        ensures keys { IsBoxIn self.now period bin result }
        ensures bounds { HasBounds self.now.x0 self.now.x1 self.now.y0 self.now.y1
            (first_offset_of period self.now.t0 bin) (last_offset_of period self.now.t1 bin) result }
    {
        ZBox {
            x_first: self.x0,
            x_last: self.x1,
            y_first: self.y0,
            y_last: self.y1,
            offset_first: self.first_offset(bin, period),
            offset_last: self.last_offset(bin, period),
        }
    }

    // The query in one bin of its span, as a part.
    fn edge(&self, bin: u32, period: Period) -> Part
        requires from_first { self.now.t0 / seconds_of period ≤ bin }
        requires to_last { bin ≤ self.now.t1 / seconds_of period }
        ensures { IsEdge self.now period bin result }
    {
        Part {
            bin_lo: bin,
            bin_hi: bin,
            zbox: self.box_in(bin, period),
        }
    }

    // The query in the bins between its first and its last.
    fn middle(&self, first: u32, last: u32, period: Period) -> Part
        requires first { first ≡ self.now.t0 / seconds_of period }
        requires last { last ≡ self.now.t1 / seconds_of period }
        requires some { first + 1 < last }
        ensures { IsMiddle self.now period result }
    {
        Part {
            bin_lo: first + 1,
            bin_hi: last - 1,
            zbox: ZBox {
                x_first: self.x0,
                x_last: self.x1,
                y_first: self.y0,
                y_last: self.y1,
                offset_first: 0,
                offset_last: (period.seconds() - 1) as u32,
            },
        }
    }

    /// The query cut at the edges of bins: its first bin, the whole bins between, and its last bin.
    /// No two parts share a key, and together they have all keys of the query.
    pub fn parts(&self, period: Period) -> ArrayVec<Part, 3>
        ensures cuts { map cut_of result.items ≡ cuts_of period self.now }
        ensures whole { (k : Key) → HasPart result.items k ↔ HasKey self.now period k }
        ensures apart { FollowBins (self.now.t0 / seconds_of period) result.items (self.now.t1 / seconds_of period) }
    {
        let first = (self.t0 / period.seconds()) as u32;
        let last = (self.t1 / period.seconds()) as u32;
        let mut parts = ArrayVec::new();
        parts.push(self.edge(first, period));
        if first == last {
            return parts;
        }
        if first + 1 < last {
            parts.push(self.middle(first, last, period));
        }
        parts.push(self.edge(last, period));
        parts
    }

    /// The first of the first coordinates.
    pub fn x0(&self) -> u32
        ensures { result ≡ self.now.x0 }
    {
        self.x0
    }

    /// The last of the first coordinates.
    pub fn x1(&self) -> u32
        ensures { result ≡ self.now.x1 }
    {
        self.x1
    }

    /// The first of the second coordinates.
    pub fn y0(&self) -> u32
        ensures { result ≡ self.now.y0 }
    {
        self.y0
    }

    /// The last of the second coordinates.
    pub fn y1(&self) -> u32
        ensures { result ≡ self.now.y1 }
    {
        self.y1
    }

    /// The first second.
    pub fn t0(&self) -> u64
        ensures { result ≡ self.now.t0 }
    {
        self.t0
    }

    /// The last second.
    pub fn t1(&self) -> u64
        ensures { result ≡ self.now.t1 }
    {
        self.t1
    }
}
