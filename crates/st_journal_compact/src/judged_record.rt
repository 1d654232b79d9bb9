//! Records of changes beside what the policy said.
use st_journal::Record;

/// The record of a change, and whether it was accepted.
#[derive(Drop)]
pub struct JudgedRecord {
    pub note: Record,
    pub accepted: bool,
}
