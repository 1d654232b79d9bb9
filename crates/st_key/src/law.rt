//! Laws of the definitions, each the contract of a function that does nothing.
ghost use Rattle.std.specs.Prelude.{◌≡◌, ◌<◌, ◌↔◌, IsTrue};
ghost use Rattle.std.specs.Cmp.Lexicographic.{slice_cmp};
ghost use Rattle.std.specs.Ordering.{nat_cmp, is_lt};
ghost use Rattle.st_key.specs.Key.{IsBefore, IsKeyOf, rank};
ghost use Rattle.st_key.specs.Order.{digits_of};
ghost use Rattle.st_key.specs.inner.Levels.{ComesBefore};
ghost use Rattle.st_key.specs.declared.key.Key.{Key};
ghost use Rattle.st_key.specs.declared.period.Period.{Period};
ghost use Rattle.st_key.specs.declared.point.Point.{Point};

/// Digits come in the order of the bin, and in one bin of the bits at the highest level at which the
/// points differ.
pub fn scan_order()
    ensures { (period : Period) (p q : Point)
        → IsTrue (is_lt (slice_cmp nat_cmp (digits_of period p) (digits_of period q))) ↔ ComesBefore period p q }
{}

/// The order of keys is the order of their points in a scan.
pub fn key_order()
    ensures { (period : Period) (p q : Point) (k l : Key) → IsKeyOf period p k → IsKeyOf period q l
        → IsBefore k l ↔ IsTrue (is_lt (slice_cmp nat_cmp (digits_of period p) (digits_of period q))) }
{}

/// A point has one key, and a key belongs to at most one point.
pub fn one_key()
    ensures key { (period : Period) (p : Point) (k l : Key) → IsKeyOf period p k → IsKeyOf period p l → k ≡ l }
    ensures point { (period : Period) (p q : Point) (k : Key) → IsKeyOf period p k → IsKeyOf period q k → p ≡ q }
{}

/// A key comes before another if and only if fewer keys come before it.
pub fn ranks()
    ensures before { (k l : Key) → IsBefore k l ↔ (rank k < rank l) }
    ensures same { (k l : Key) → rank k ≡ rank l → k ≡ l }
{}

/// Points with the same coordinates are the same point.
pub fn equal_points()
    ensures { (p q : Point) → p.x ≡ q.x → p.y ≡ q.y → p.t ≡ q.t → p ≡ q }
{}
