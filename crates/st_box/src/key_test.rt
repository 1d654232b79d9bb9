//! Tests of keys that are not decoded.
ghost use Rattle.std.specs.Prelude.{◌≡◌, ◌↔◌, ◌-◌, ◌/◌, ◌%◌, ◌≤◌, IsTrue};
ghost use Rattle.st_key.specs.Morton.{spread as spread_of};
ghost use Rattle.st_key.specs.Period.{seconds_of};

use crate::corner::Corner;
use crate::query::Query;
use st_key::{Key, Period, spread, spread_in};

/// A test of keys against a query, in a period. The query's corners are spread once, and a key's
/// coordinates are compared with them as they stand in its address.
#[derive(Clone, Copy, PartialEq, Eq, Debug)]
pub struct KeyTest {
    pub query: Query,
    pub period: Period,
    x_first: u64,
    x_last: u64,
    y_first: u64,
    y_last: u64,
    first_bin: u32,
    last_bin: u32,
    first_offset: u64,
    last_offset: u64,
    end_offset: u64,
    pub ghost x_first_is: { x_first ≡ spread_of 21 query.x0 },
    pub ghost x_last_is: { x_last ≡ spread_of 21 query.x1 },
    pub ghost y_first_is: { y_first ≡ spread_of 21 query.y0 },
    pub ghost y_last_is: { y_last ≡ spread_of 21 query.y1 },
    pub ghost first_bin_is: { first_bin ≡ query.t0 / seconds_of period },
    pub ghost last_bin_is: { last_bin ≡ query.t1 / seconds_of period },
    pub ghost first_offset_is: { first_offset ≡ spread_of 21 (query.t0 % seconds_of period) },
    pub ghost last_offset_is: { last_offset ≡ spread_of 21 (query.t1 % seconds_of period) },
    pub ghost end_offset_is: { end_offset ≡ spread_of 21 (seconds_of period - 1) },
}

impl KeyTest {
    ghost use Rattle.st_box.specs.inner.KeyTest.{IsPlaceIn, IsTimeIn};
    ghost use Rattle.st_box.specs.Query.{HasKey};
    ghost use Rattle.st_box.specs.inner.Bins.{first_offset_of, last_offset_of};

    /// The test for a query, in a period.
    pub fn new(query: &Query, period: Period) -> KeyTest
        ensures query { result.query ≡ query.now }
        ensures period { result.period ≡ period }
    {
        let seconds = period.seconds();
        KeyTest {
            query: *query,
            period,
            x_first: spread(query.x0()),
            x_last: spread(query.x1()),
            y_first: spread(query.y0()),
            y_last: spread(query.y1()),
            first_bin: (query.t0() / seconds) as u32,
            last_bin: (query.t1() / seconds) as u32,
            first_offset: spread((query.t0() % seconds) as u32),
            last_offset: spread((query.t1() % seconds) as u32),
            end_offset: spread((seconds - 1) as u32),
        }
    }

    /// Whether the key is that of a point inside the query.
    pub fn has_key(&self, key: Key) -> bool
        ensures { IsTrue result ↔ HasKey self.now.query self.now.period key }
    {
        self.has_place(key.address()) && self.has_time(key.bin(), key.address())
    }

    /// The corners of the query's box in a bin of its span: those of `query.box_in(bin, period)`.
    pub fn corners_in(&self, bin: u32) -> (Corner, Corner)
        ensures first { result.0 ≡ record {
          x = self.now.query.x0;
          y = self.now.query.y0;
          offset = first_offset_of self.now.period self.now.query.t0 bin;
        } }
        ensures last { result.1 ≡ record {
          x = self.now.query.x1;
          y = self.now.query.y1;
          offset = last_offset_of self.now.period self.now.query.t1 bin;
        } }
    {
        (
            Corner::of_parts(self.x_first, self.y_first, self.first_in(bin)),
            Corner::of_parts(self.x_last, self.y_last, self.last_in(bin)),
        )
    }

    /// The first bin of the query's span.
    pub fn first_bin(&self) -> u32
        ensures { result ≡ self.now.query.t0 / seconds_of self.now.period }
    {
        self.first_bin
    }

    /// The last bin of the query's span.
    pub fn last_bin(&self) -> u32
        ensures { result ≡ self.now.query.t1 / seconds_of self.now.period }
    {
        self.last_bin
    }

    // Whether the place of an address is in the query's box.
    fn has_place(&self, address: u64) -> bool
        ensures { IsTrue result ↔ IsPlaceIn self.now.query address }
    {
        is_between(self.x_first, self.x_last, spread_in(address))
            && is_between(self.y_first, self.y_last, spread_in(address >> 1))
    }

    // Whether the second of a bin and an address is in the query's span.
    fn has_time(&self, bin: u32, address: u64) -> bool
        ensures { IsTrue result ↔ IsTimeIn self.now.query self.now.period bin address }
    {
        self.has_bin(bin)
            && is_between(
                self.first_in(bin),
                self.last_in(bin),
                spread_in(address >> 2),
            )
    }

    // Whether the span has a second of the bin.
    fn has_bin(&self, bin: u32) -> bool
        ensures { IsTrue result ↔ (self.now.first_bin ≤ bin) × (bin ≤ self.now.last_bin) }
    {
        self.first_bin <= bin && bin <= self.last_bin
    }

    // The first offset of a bin that is in the span, spread.
    fn first_in(&self, bin: u32) -> u64
        ensures { result ≡ spread_of 21 (first_offset_of self.now.period self.now.query.t0 bin) }
    {
        if bin == self.first_bin {
            self.first_offset
        } else {
            spread(0)
        }
    }

    // The last offset of a bin that is in the span, spread.
    fn last_in(&self, bin: u32) -> u64
        ensures { result ≡ spread_of 21 (last_offset_of self.now.period self.now.query.t1 bin) }
    {
        if bin == self.last_bin {
            self.last_offset
        } else {
            self.end_offset
        }
    }
}

// Whether a number is between two, both included.
fn is_between(first: u64, last: u64, number: u64) -> bool
    ensures { IsTrue result ↔ (first ≤ number) × (number ≤ last) }
{
    first <= number && number <= last
}
