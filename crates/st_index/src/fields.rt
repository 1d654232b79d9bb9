//! Fields that the box of a query is cut into.
ghost use Rattle.std.specs.Prelude.{◌≡◌, ℕ, ◌<◌, IfSome, IsTrue};
ghost use Rattle.st_key.specs.declared.point.Point.{Point as PointValue};
ghost use Rattle.st_box.specs.declared.query.Query.{Query as QueryValue};
ghost use Rattle.st_box.specs.Query.{is_inside};
ghost use Rattle.st_index.specs.inner.Fields.{IsBetween};

use st_box::Query;
use st_key::Point;

/// Fields that the box of a query is cut into, by numbers from 0 on. Each point inside the query is in one.
pub trait Fields {
    ghost query: { Self → QueryValue };

    ghost field_of: { Self → PointValue → ℕ };

    ghost count: { Self → ℕ };

    /// The query.
    fn query(&self) -> &Query
        ensures { result.now ≡ query self.now };

    /// The number of the field that the point is in.
    fn field(&self, point: &Point) -> usize
        requires { IsTrue (is_inside (query self.now) point.now) }
        ensures value { result ≡ field_of self.now point.now }
        ensures below { result < count self.now };

    /// The one field of all points inside the query whose x and y are between these, if they are found to share one.
    fn one_field(&self, x0: u32, x1: u32, y0: u32, y1: u32) -> Option<usize>
        ensures some { IfSome result (λ field. (p : PointValue) → IsTrue (is_inside (query self.now) p) → IsBetween x0 x1 y0 y1 p
            → field_of self.now p ≡ field) }
        ensures below { IfSome result (λ field. field < count self.now) };
}
