//! Counts of rows that lie in few ranges of keys.
//!
//! A box of 2^55 points or more has keys in more than eight bottom nodes. Before each next node the box is compared with twice the
//! points that the nodes until then had keys for. The two estimates have no clause: they choose between two proved ways.
ghost use Rattle.std.specs.Prelude.{◌≡◌, length, IsTrue};
ghost use Rattle.std.specs.List.{All};
ghost use Rattle.st_index.specs.inner.Fields.{Counts};

use st_bigmin::first_by;
use st_box::{KeyTest, Query};
use st_index::{Fields, Judge, KeyRange, RowIndex};
use st_key::Key;

// In how many ranges of keys rows are counted one after the other, before all are counted from the top of the index.
const FEW: u64 = 8;
// A query with so many points is likely to have keys in more. It is a quarter of the world wide and high, and a quarter of a week
// long, or as large.
const WIDE: u64 = 1 << 55;
// So is one with so many times as many points as each of the ranges until now had keys, on average.
const LARGE: u64 = 2;

// How many points a query has, as far as 64 bits tell.
fn points_in(query: &Query) -> u64 {
    let width = u64::from(query.x1() - query.x0()) + 1;
    let height = u64::from(query.y1() - query.y0()) + 1;
    let seconds = query.t1() - query.t0() + 1;
    width.saturating_mul(height).saturating_mul(seconds)
}

// How many keys a range has. Of one that goes on into another bin it is not told.
fn keys_in(range: &KeyRange) -> u64 {
    let (first, last) = (range.first, range.last);
    if first.bin() == last.bin() {
        last.address()
            .saturating_sub(first.address())
            .saturating_add(1)
    } else {
        u64::MAX
    }
}

// Adds to the number of each field how many rows of an index are in it, inside the query, and have a label that is found
// true, and tells whether it did so, as it does where few ranges of keys have keys of the query.
pub(crate) fn count_few<I: RowIndex, J: Judge<I::Alloc>, F: Fields>(
    index: &I,
    judge: &mut J,
    fields: &F,
    counts: &mut [u64],
) -> bool
    requires long { length counts.old ≡ F.count fields.now }
    requires none { All (λ n. n ≡ 0) counts.old }
    ensures counts { IsTrue result → Counts (F.query fields.now) (J.judges judge.old) (F.field_of fields.now) (I.content index.now)
        counts.old counts.new }
    ensures same { J.judges judge.new ≡ J.judges judge.old }
{
    let query = fields.query();
    let points = points_in(query);
    if points >= WIDE {
        return false;
    }
    let test = KeyTest::new(query, index.period());
    let mut from = Some(Key::FIRST);
    let mut ranges = 0;
    let mut keys = 0u64;
    'keys: while let Some(start) = from {
        let Some(key) = first_by(&test, start) else {
            return true;
        };
        if ranges >= FEW || keys < (points / LARGE).saturating_mul(ranges) {
            return false;
        }
        ranges += 1;
        let Some(range) = index.count_fields_at(start, key, judge, fields, counts) else {
            return false;
        };
        keys = keys.saturating_add(keys_in(&range));
        from = range.last.after(test.period);
    }
    true
}
