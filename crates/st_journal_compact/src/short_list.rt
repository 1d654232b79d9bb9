//! The short list of the records of a journal.
ghost use Rattle.std.specs.Prelude.{◌≤◌, ◌^◌, length, IfOk};
ghost use Rattle.st_journal_compact.specs.Judging.{AreShortOf};

use crate::judged_record::JudgedRecord;
use crate::sieve::Sieve;
use st_journal::{Record, ReplayError};
use std::alloc::Global;

/// The records of a list that stands for the same state, made of those of all changes: a change that was refused or that a later one
/// undoes is left out, unless the audit listing shows it. `Invalid` comes where a record makes no request.
pub fn shorten(alloc: Global, mut changes: Vec<JudgedRecord>) -> Result<Vec<Record>, ReplayError>
    ensures { IfOk result (λ kept. AreShortOf changes.items kept.items) }
{
    let mut sieve = Sieve::new(alloc);
    while let Some(it) = changes.pop() {
        sieve.take(it)?;
    }
    Ok(sieve.into_kept())
}
