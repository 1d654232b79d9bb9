//! How far an opening is.

// After how many changes it is reported again.
const STEP: u64 = 100_000;

/// Hears how far an opening is.
pub trait Progress {
    /// So many changes of so many are applied.
    fn report(&self, count: u64, of: u64);
}

/// Reports to nobody.
#[derive(Drop)]
pub struct Silent;

impl Progress for Silent {
    fn report(&self, _count: u64, _of: u64) {}
}

// Reports that so many changes of so many are applied, after every hundred thousand.
pub(crate) fn report_at_step<P: Progress>(progress: &P, count: u64, of: u64) {
    if count > 0 && count % STEP == 0 {
        progress.report(count, of);
    }
}
