//! The first key of a query.
ghost use Rattle.std.specs.Prelude.{◌≤◌, ◌<◌, ◌/◌, IfSome, IfNone};
ghost use Rattle.st_key.specs.Period.{seconds_of};
ghost use Rattle.st_key.specs.Key.{IsBefore};
ghost use Rattle.st_key.specs.declared.key.Key.{Key};
ghost use Rattle.st_box.specs.Query.{HasKey};
ghost use Rattle.st_bigmin.specs.inner.First.{IsFirstFrom, IsFirstIn};

use crate::jump::next_between;
use st_box::{KeyTest, Query};
use st_key::{Key, Period};

// The first key in a bin of the query's span.
fn first_in(test: &KeyTest, bin: u32) -> Key
    requires in_range { bin < 229376 }
    requires from_first { test.now.query.t0 / seconds_of test.now.period ≤ bin }
    requires to_last { bin ≤ test.now.query.t1 / seconds_of test.now.period }
    ensures { IsFirstIn test.now.query test.now.period bin result }
{
    let (first, _) = test.corners_in(bin);
    Key::at(bin, first.address())
}

/// The least key, at or after this one, of a point inside the query.
pub fn first_from(query: &Query, from: Key, period: Period) -> Option<Key>
    ensures some { IfSome result (IsFirstFrom query.now period from) }
    ensures none { IfNone result ((k : Key) → HasKey query.now period k → IsBefore k from) }
{
    first_by(&KeyTest::new(query, period), from)
}

/// The least key, at or after this one, of a point inside the query of a test. It takes less time than `first_from`,
/// as the test has what is the same for all keys.
pub fn first_by(test: &KeyTest, from: Key) -> Option<Key>
    ensures some { IfSome result (IsFirstFrom test.now.query test.now.period from) }
    ensures none { IfNone result ((k : Key) → HasKey test.now.query test.now.period k → IsBefore k from) }
{
    let bin = from.bin();
    if bin < test.first_bin() {
        return Some(first_in(test, test.first_bin()));
    }
    if bin > test.last_bin() {
        return None;
    }
    if test.has_key(from) {
        return Some(from);
    }
    let (first, last) = test.corners_in(bin);
    match next_between(from.address(), &first, &last) {
        Some(address) => Some(Key::at(bin, address)),
        None if bin < test.last_bin() => Some(first_in(test, bin + 1)),
        None => None,
    }
}
