//! What was read back of a hall's list.
use st_hall::{HallName, KeptFront};
use st_journal::Record;

/// Records that were read back from the journal of a hall.
#[derive(Drop)]
pub struct Reading<H: HallName> {
    /// The records, in order.
    pub records: Vec<Record>,
    /// All that was kept then, of which they are.
    pub kept: KeptFront<H>,
}
