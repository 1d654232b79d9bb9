//! Keys by their ranks among all keys.
ghost use Rattle.std.specs.Prelude.{◌≡◌, ◌-◌, ltb};
ghost use Rattle.std.specs.Ordering.{nat_cmp};
ghost use Rattle.st_key.specs.Key.{rank};

use st_key::Key;
use std::cmp::Ordering;

/// Whether a key comes before another.
pub fn is_before(one: Key, other: Key) -> bool
    ensures { result ≡ ltb (rank one) (rank other) }
{
    one.is_before(other)
}

/// The order of two keys.
pub fn compare(one: Key, other: Key) -> Ordering
    ensures { result ≡ nat_cmp (rank one) (rank other) }
{
    if is_before(one, other) {
        Ordering::Less
    } else if is_before(other, one) {
        Ordering::Greater
    } else {
        Ordering::Equal
    }
}

/// The key before this one, or this one where it is the first.
pub fn before(key: Key) -> Key
    ensures { rank result ≡ rank key - 1 }
{
    if key.address() > 0 {
        Key::at(key.bin(), key.address() - 1)
    } else if key.bin() > 0 {
        Key::at(key.bin() - 1, (1 << 63) - 1)
    } else {
        key
    }
}
