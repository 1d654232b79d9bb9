//! Bounds of points.
ghost use Rattle.std.specs.Prelude.{◌≡◌, ◌<◌, IfSome, IsTrue};
ghost use Rattle.st_key.specs.declared.point.Point.{Point as PointValue};
ghost use Rattle.st_box.specs.Query.{is_inside};
ghost use Rattle.st_tally.specs.inner.Sums.{IsWithin, lies_in, meets};

use st_box::Query;
use st_index::Fields;
use st_key::Point;

/// The least and the greatest coordinates and times of some points. They may be wider than need be.
#[derive(Clone, Copy)]
pub struct Bounds {
    x0: u32,
    x1: u32,
    y0: u32,
    y1: u32,
    t0: u64,
    t1: u64,
}

impl Bounds {
    /// The bounds of no point.
    pub const NONE: Bounds = Bounds {
        x0: u32::MAX,
        x1: 0,
        y0: u32::MAX,
        y1: 0,
        t0: u64::MAX,
        t1: 0,
    };

    /// The bounds of these points and one more.
    pub fn with(self, point: &Point) -> Bounds
        ensures one { IsWithin result point.now }
        ensures others { (p : PointValue) → IsWithin self p → IsWithin result p }
    {
        Bounds {
            x0: self.x0.min(point.x()),
            x1: self.x1.max(point.x()),
            y0: self.y0.min(point.y()),
            y1: self.y1.max(point.y()),
            t0: self.t0.min(point.t()),
            t1: self.t1.max(point.t()),
        }
    }

    /// The bounds of these points and of others.
    pub fn joined(self, other: Bounds) -> Bounds
        ensures own { (p : PointValue) → IsWithin self p → IsWithin result p }
        ensures others { (p : PointValue) → IsWithin other p → IsWithin result p }
    {
        Bounds {
            x0: self.x0.min(other.x0),
            x1: self.x1.max(other.x1),
            y0: self.y0.min(other.y0),
            y1: self.y1.max(other.y1),
            t0: self.t0.min(other.t0),
            t1: self.t1.max(other.t1),
        }
    }

    /// Whether the query and the bounds have a point in common.
    pub fn meets(&self, query: &Query) -> bool
        ensures { result ≡ meets self.now query.now }
    {
        self.x0 <= query.x1()
            && query.x0() <= self.x1
            && self.y0 <= query.y1()
            && query.y0() <= self.y1
            && self.t0 <= query.t1()
            && query.t0() <= self.t1
    }

    /// The one field of all points between the bounds that are inside the query, if they are found to share one.
    pub fn one_field<F: Fields>(&self, fields: &F) -> Option<usize>
        ensures some { IfSome result (λ field. (p : PointValue) → IsTrue (is_inside (F.query fields.now) p) → IsWithin self.now p
            → F.field_of fields.now p ≡ field) }
        ensures below { IfSome result (λ field. field < F.count fields.now) }
    {
        fields.one_field(self.x0, self.x1, self.y0, self.y1)
    }

    /// Whether each point between the bounds is inside the query.
    pub fn lies_in(&self, query: &Query) -> bool
        ensures { result ≡ lies_in self.now query.now }
    {
        query.x0() <= self.x0
            && self.x1 <= query.x1()
            && query.y0() <= self.y0
            && self.y1 <= query.y1()
            && query.t0() <= self.t0
            && self.t1 <= query.t1()
    }
}
