//! A change that was answered and is not kept yet.
use st_core::Judged;
use st_journal::Record;

/// A change that was answered and is not kept yet: its record, and how the store before it judged it.
#[derive(Drop)]
pub struct Pending {
    pub note: Record,
    pub judged: Judged,
}
