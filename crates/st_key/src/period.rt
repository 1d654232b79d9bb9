//! How long a bin of time is.
ghost use Rattle.std.specs.Prelude.{◌≡◌};

/// The length of a table's time bins, as in GeoMesa's Z3 index.
#[derive(Clone, Copy, PartialEq, Eq, Debug)]
pub enum Period {
    Day,
    Week,
}

impl Period {
    ghost use Rattle.st_key.specs.Period.{seconds_of, bins_of};

    /// How many seconds a bin has.
    pub fn seconds(self) -> u64
        ensures { result ≡ seconds_of self }
    {
        match self {
            Period::Day => 86_400,
            Period::Week => 604_800,
        }
    }

    /// How many bins there are.
    pub fn bins(self) -> u32
        ensures { result ≡ bins_of self }
    {
        match self {
            Period::Day => 229_376,
            Period::Week => 32_768,
        }
    }
}
