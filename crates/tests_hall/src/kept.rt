//! Halls whose changes a journal keeps, in which clients put rows.
ghost use Rattle.std.specs.Prelude.{◌≡◌, ◌<◌};

use crate::halls::stores;
use crate::journals::SlowJournal;
use crate::puts::{Sending, id_of, letter_of, made_by_all, served_by_all};
use crate::stations::{Always, Visit};
use st_core::Store;
use st_hall::{Hall, HallName, UnnamedFor};
use st_hall_group_commit::DurableHall;
use st_journal::Record;
use st_journal_store::Beginning;
use std::alloc::Global;
use std::marker::Brand;
use std::sync::Wait;
use std::thread::Threads;
use std::time::Clock;

/// What is found after the puts.
#[derive(Drop)]
pub struct Findings {
    /// What the client at each desk was told.
    pub told: Vec<Option<Visit>>,
    /// How many puts of each client are kept at least, in order.
    pub in_order: u8,
    /// How many records there are.
    pub kept: u64,
    pub appends: u64,
}

impl Findings {
    /// How many puts the clients were told to be made.
    pub fn made(&self) -> u64 {
        made_by_all(self.told.as_slice())
    }
}

// How many of the records, from the first on, are puts of a client's rows in order.
fn in_order(records: &[Record], letter: u8) -> u8 {
    let mut next = 0u8;
    for record in records {
        let id = id_of(letter, next);
        let body = record.body.as_str().as_bytes();
        if body.get(7..11) == Some(&id) {
            next = next.saturating_add(1);
        }
    }
    next
}

// The least number of the records that are puts of one of so many clients in order.
fn least_in_order(records: &[Record], workers: u16) -> u8 {
    let mut least = u8::MAX;
    for place in 0..workers {
        least = least.min(in_order(records, letter_of(place as u64)));
    }
    least
}

// What a journal holds after so many clients were told this.
fn found_in<C: Clock>(
    journal: &SlowJournal<'_, C>,
    workers: u16,
    told: Vec<Option<Visit>>,
) -> Findings {
    let records = journal.records();
    Findings {
        told,
        in_order: least_in_order(records, workers),
        kept: records.len() as u64,
        appends: journal.appends(),
    }
}

// What is found in a new hall with so many desks, and a client at each, and a journal whose appends fail after so many.
fn found_by<
    B: Beginning + Send + Sync,
    H: HallName + Send + Sync,
    R: Threads + Wait + Clock + Sync,
>(
    rt: &R,
    alloc: Global,
    name: UnnamedFor,
    both: (Store, Store),
    workers: u16,
    limit: u64,
    sending: Sending,
) -> Option<Findings>
    requires named { (name.seen.book ≡ H.book) × (name.blank.name ≡ H.name) × (name.mark.name ≡ H.mark) }
    requires workers { (name.blank.parts ≡ workers) × (H.parts ≡ workers) × (0 < workers) }
    requires alike { (both.0 ≡ H.start) × (both.1 ≡ H.start) × (B.first ≡ H.start) }
{
    let (clerk, desks) = Hall::<H>::open_for(rt, alloc, name, both.0, both.1, workers).ok()?;
    let journal = SlowJournal::new(rt, alloc, limit);
    let hall: DurableHall<B, H, &R, SlowJournal<'_, R>> = DurableHall::new(
        alloc, rt, clerk, journal,
    );
    let told = served_by_all(rt, alloc, &hall, &Always, desks, sending);
    let (draft, publisher) = hall.apart();
    drop(draft);
    let found = match told {
        Some(told) => Some(found_in(publisher.journal(), workers, told)),
        None => None,
    };
    drop(publisher);
    found
}

/// What is found in a hall with so many desks, and a client at each, and a journal whose appends fail after so many.
pub fn found<R: Threads + Wait + Clock + Sync>(
    rt: &R,
    alloc: Global,
    workers: u16,
    limit: u64,
    sending: Sending,
) -> Option<Findings>
    requires { 0 < workers }
{
    let both = stores(alloc)?;
    let name = UnnamedFor::of(workers);
    found_by::<Brand, Brand, _>(rt, alloc, name, both, workers, limit, sending)
}
