//! Points of rows in view.
ghost use Rattle.std.specs.Prelude.{◌≡◌};
ghost use Rattle.st_key.specs.Key.{IsKeyOf};
ghost use Rattle.st_index.specs.KeyPoints.{point_of_key};
ghost use Rattle.st_index.specs.inner.KeyPoints.{IsKey, IsPointKey};

use st_key::{Key, Period, Point};

// The parts of the key of a point, in a period.
#[derive(Clone, Copy)]
pub struct KeyPoint {
    period: Period,
    bin: u32,
    address: u64,
    pub ghost key: { IsKey bin address },
    pub ghost point: { IsPointKey period bin address },
}

/// A point that is given, or the parts of its key, from which it is computed only when it is asked for.
#[derive(Clone, Copy)]
pub enum RowPoint {
    Given(Point),
    Keyed(KeyPoint),
}

const _: () = prove!(size_of::<RowPoint>() == 24);

impl KeyPoint {
    // The point that has the key.
    fn point(self) -> Point
        ensures { result ≡ point_of_key self.period self.bin self.address }
    {
        let Some(point) = Key::at(self.bin, self.address).point(self.period) else {
            unreachable!()
        };
        point
    }

    // The key.
    fn key(self) -> Key
        ensures { IsKeyOf self.period (point_of_key self.period self.bin self.address) result }
    {
        Key::at(self.bin, self.address)
    }
}

impl RowPoint {
    ghost use Rattle.st_index.specs.RowViews.{point_in};

    // The point that the parts of a key tell.
    pub(crate) fn keyed(period: Period, bin: u32, address: u64) -> RowPoint
        requires key { IsKey bin address }
        requires point { IsPointKey period bin address }
        ensures { point_in result ≡ point_of_key period bin address }
    {
        RowPoint::Keyed(KeyPoint {
            period,
            bin,
            address,
        })
    }

    // The point.
    pub(crate) fn point(self) -> Point
        ensures { result ≡ point_in self }
    {
        match self {
            RowPoint::Given(point) => point,
            RowPoint::Keyed(key) => key.point(),
        }
    }

    // Its key in a period. The key of the period that it is kept by is not computed.
    pub(crate) fn key(self, period: Period) -> Key
        ensures { IsKeyOf period (point_in self) result }
    {
        match self {
            RowPoint::Keyed(key) if key.period == period => key.key(),
            _ => Key::of(&self.point(), period),
        }
    }
}
