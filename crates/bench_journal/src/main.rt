//! `bench_journal FILE BATCH ROUNDS` appends so many batches of records to a journal in a new SQLite file, and writes to standard
//! error how many microseconds that took. `bench/durable.py` runs it beside SQLite's own commits.
#![tactic(auto)]

use sqlite_std_file::Unknown;
use st_journal::{Journal, Record, Replay, ReplayError};
use st_journal_file::{FileJournal, Silent};
use st_text::Words;
use std::alloc::{AllocError, Global};
use std::time::Instant;
use std::{env, io};

// A state of no records.
#[derive(Drop)]
struct Nothing;

impl Replay for Nothing {
    ghost use Rattle.std.specs.Prelude.{⊤};

    ghost applies = { λ _ _ _. ⊤ };

    fn apply(&mut self, _change: &Record) -> Result<(), ReplayError> {
        Ok(())
    }
}

// The record of a put.
fn put(alloc: Global) -> Result<Record, AllocError> {
    let body =
        "{\"id\": \"w1100000\", \"label\": \"\", \"note\": \"\", \"point\": [100000, 700000, 100000]}";
    Ok(Record {
        time: 1_700_000_000_000,
        user: Words::new(alloc, "root")?,
        request: Words::new(alloc, "put")?,
        name: Words::new(alloc, "points")?,
        body: Words::new(alloc, body)?,
        result: Words::new(alloc, "{\"ok\":true}")?,
    })
}

fn batch_of(alloc: Global, count: u64) -> Result<Vec<Record>, AllocError> {
    let mut records = Vec::new(alloc);
    for _ in 0..count {
        records.push(put(alloc)?)?;
    }
    Ok(records)
}

// Appends a batch so many times, as long as it is kept. Says whether it was.
fn append_all<J: Journal + Drop>(mut journal: J, batch: &[Record], rounds: u64) -> bool
    requires { J.is_ready journal }
{
    for _ in 0..rounds {
        if journal.append(batch).is_err() {
            return false;
        }
    }
    true
}

fn number(text: Option<String>) -> u64 {
    match text {
        Some(text) => text.parse().unwrap_or(0),
        None => 0,
    }
}

fn run(rt: &HostRuntime) -> io::Result<bool> {
    let mut words = env::args(rt)?;
    let _program = words.next();
    let Some(path) = words.next() else {
        return Ok(false);
    };
    let batch = batch_of(rt.alloc(), number(words.next()))?;
    let rounds = number(words.next());
    let opened = FileJournal::open(
        rt,
        path.as_str(),
        "bench",
        0,
        &mut Nothing,
        &Silent,
        Unknown,
    );
    let Ok(journal) = opened else {
        return Ok(false);
    };
    let start = Instant::now(rt)?;
    let kept = append_all(journal, batch.as_slice(), rounds);
    let took = start.elapsed(rt)?.as_micros();
    eprintln!(rt; "{took}")?;
    Ok(kept)
}

fn main(rt: HostRuntime) -> io::Result<()> {
    match run(&rt)? {
        true => Ok(()),
        false => Err(io::Error::from(io::ErrorKind::Other)),
    }
}
