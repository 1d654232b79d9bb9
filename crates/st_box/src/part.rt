//! Parts of a query.
ghost use Rattle.std.specs.Prelude.{◌≤◌, ◌<◌};

use crate::zbox::ZBox;

/// Consecutive bins, and the box of the query in each of them.
#[derive(Clone, Copy, PartialEq, Eq, Debug)]
pub struct Part {
    pub bin_lo: u32,
    pub bin_hi: u32,
    pub zbox: ZBox,
    pub ghost bins_ordered: { bin_lo ≤ bin_hi },
    pub ghost bins_in_range: { bin_hi < 229376 },
}

impl Default for Part {
    /// The first bin, and the box of the first address.
    fn default() -> Part {
        Part {
            bin_lo: 0,
            bin_hi: 0,
            zbox: ZBox::default(),
        }
    }
}
