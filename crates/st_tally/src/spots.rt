//! Points near a week, each in 64 bits.
ghost use Rattle.std.specs.Prelude.{◌≡◌, ℕ, ◌+◌, ◌-◌, ◌*◌, ◌/◌, ◌%◌, ◌^◌, ◌<◌, ◌≤◌, ◌⊎◌, IfSome, IfNone};
ghost use Rattle.st_key.specs.declared.point.Point.{Point as PointValue};
ghost use Rattle.st_box.specs.declared.query.Query.{Query as QueryValue};
ghost use Rattle.st_box.specs.Query.{is_inside};
ghost use Rattle.st_tally.specs.inner.Spots.{IsBoxOf, IsSpotOf};

use st_box::Query;
use st_key::Point;

// How many seconds a week has.
const WEEK: u64 = 604_800;

// How many numbers 21 bits tell, as those of a coordinate.
const SIDE: u32 = 1 << 21;

// How many numbers the 11 lower bits of y tell, and how many the 10 upper ones.
const LOWER: u32 = 1 << 11;

const UPPER: u32 = 1 << 10;

// How many seconds from the start of a week on have numbers, almost seven weeks: one fewer than 22 bits tell, so that they tell
// the end too.
const SPAN: u64 = (1 << 22) - 1;

/// A point near a week, in two numbers of 32 bits, since a processor compares four of these at once. `low` is x and the 11 lower
/// bits of y, `high` the 10 upper bits of y and the seconds since the start of the week.
#[derive(Clone, Copy)]
pub struct Spot {
    low: u32,
    high: u32,
}

impl Spot {
    /// That of the first place at the start of a week.
    pub const FIRST: Spot = Spot { low: 0, high: 0 };

    fn x(&self) -> u32
        ensures { result ≡ self.now.low % 2 ^ 21 }
    {
        self.low % SIDE
    }

    fn y(&self) -> u32
        ensures { result ≡ self.now.low / 2 ^ 21 + self.now.high % 2 ^ 10 * 2 ^ 11 }
    {
        self.low / SIDE + self.high % UPPER * LOWER
    }

    fn seconds(&self) -> u32
        ensures { result ≡ self.now.high / 2 ^ 10 }
    {
        self.high / UPPER
    }
}

/// The week of a point.
pub fn week_of(point: &Point) -> u32 {
    (point.t() / WEEK) as u32
}

// The second at which a week starts.
fn start_of(week: u32) -> u64
    ensures { result ≡ week * 604800 }
{
    u64::from(week) * WEEK
}

/// The spot of a point. There is none where the point is before the week, or 2^22 - 1 seconds or more after its start.
pub fn spot_of(point: &Point, week: u32) -> Option<Spot>
    ensures some { IfSome result (λ spot. IsSpotOf week spot point.now) }
    ensures none { IfNone result ((point.now.t < week * 604800) ⊎ (week * 604800 + (2 ^ 22 - 1) ≤ point.now.t)) }
{
    let seconds = point.t().checked_sub(start_of(week))?;
    if seconds >= SPAN {
        return None;
    }
    let y = point.y();
    Some(Spot {
        low: point.x() + y % LOWER * SIDE,
        high: y / LOWER + seconds as u32 * UPPER,
    })
}

/// The bounds of a query, as spots near a week are compared with them: t is in seconds since the start of the week. The sizes are
/// how many numbers there are from the first to the last.
#[derive(Clone, Copy)]
pub struct SpotBox {
    x_first: u32,
    x_size: u32,
    y_first: u32,
    y_size: u32,
    t_first: u32,
    t_size: u32,
}

impl SpotBox {
    /// The bounds of a query near a week.
    pub fn new(query: &Query, week: u32) -> SpotBox
        ensures { IsBoxOf query.now week result }
    {
        let start = start_of(week);
        let t_first = query.t0().saturating_sub(start).min(SPAN);
        let t_end = (query.t1() + 1).saturating_sub(start).min(SPAN);
        SpotBox {
            x_first: query.x0(),
            x_size: query.x1() - query.x0() + 1,
            y_first: query.y0(),
            y_size: query.y1() - query.y0() + 1,
            t_first: t_first as u32,
            t_size: t_end.saturating_sub(t_first) as u32,
        }
    }

    /// Whether the point of a spot is inside the query. All is compared, since to branch at each would take longer.
    pub fn has(&self, spot: &Spot) -> bool
        ensures { (query : QueryValue) (week : ℕ) (point : PointValue) → IsBoxOf query week self.now → IsSpotOf week spot.now point
            → result ≡ is_inside query point }
    {
        (spot.x().wrapping_sub(self.x_first) < self.x_size)
            & (spot.y().wrapping_sub(self.y_first) < self.y_size)
            & (spot.seconds().wrapping_sub(self.t_first) < self.t_size)
    }
}

/// The point of a spot.
pub fn point_at(week: u32, spot: &Spot) -> Point
    requires { (point : PointValue) × IsSpotOf week spot.now point }
    ensures { (point : PointValue) → IsSpotOf week spot.now point → result ≡ point }
{
    let t = start_of(week) + u64::from(spot.seconds());
    let Ok(point) = Point::new(spot.x().into(), spot.y().into(), t) else {
        unreachable!()
    };
    point
}
