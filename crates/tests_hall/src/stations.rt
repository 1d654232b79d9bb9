//! What stations answer connections.
ghost use Rattle.std.specs.Prelude.{◌≡◌, None, false};

use st_connection::{Attend, Ended, Failed, FromWrite, Source};
use st_hall::{Commits, Desk, Gate, HallName};
use st_hall_station::Station;
use std::alloc::Global;
use std::sync::Wait;

// The answer where memory ran out.
const BUSY: &[u8] =
    b"HTTP/1.1 503 Service Unavailable\r\nContent-Type: application/json\r\nContent-Length: 18\r\n\r\n{\"error\":\"memory\"}";

/// Lets each read pass.
#[derive(Drop)]
pub struct Always;

impl Gate for Always {
    fn may_pass(&self, _worker: u64, _call: u64) -> bool {
        true
    }

    fn answered(&self, _worker: u64, _call: u64) {}

    fn gave_up(&self, _worker: u64, _call: u64) {}
}

/// What came of a connection.
#[derive(Drop)]
pub struct Visit {
    /// How it ended.
    pub ended: Ended,
    /// What was written.
    pub written: Vec<u8>,
    /// How many receipts the station then had.
    pub made: u64,
}

// A reader that gives a text in pieces of so many bytes. Each is answered before the next one is read.
#[derive(Drop)]
struct Reader<'a> {
    rest: &'a [u8],
    piece: usize,
    reads: u64,
    ended: bool,
}

impl Source for Reader<'_> {
    ghost left = { λ _. None };

    ghost reads = { λ s. s.reads };

    ghost has_ended = { λ s. s.ended };

    ghost has_failed = { λ _. false };

    fn read(&mut self, buffer: &mut [u8]) -> Result<usize, Failed> {
        self.reads = self.reads.saturating_add(1);
        let count = self.rest.len().min(buffer.len()).min(self.piece);
        let (given, rest) = self.rest.split_at(count);
        buffer[..count].copy_from_slice(given);
        self.ended = count == 0 && !buffer.is_empty();
        self.rest = rest;
        Ok(count)
    }
}

// How a connection ends whose client sends a text in pieces of so many bytes, and what is written.
fn served<S: Attend>(
    alloc: Global,
    station: &mut S,
    (text, piece): (&[u8], usize),
) -> Option<(Ended, Vec<u8>)> {
    let mut reader = Reader {
        rest: text,
        piece,
        reads: 0,
        ended: false,
    };
    let mut writer = FromWrite::new(Vec::new(alloc));
    let ended = station.serve(&mut reader, &mut writer);
    match ended {
        Ok(ended) => Some((ended, writer.into_inner())),
        Err(_) => None,
    }
}

// The same, where the text is sent once more if memory ran out.
fn served_at_last<S: Attend>(
    alloc: Global,
    station: &mut S,
    sent: (&[u8], usize),
) -> Option<(Ended, Vec<u8>)> {
    let (ended, written) = served(alloc, station, sent)?;
    if written.as_slice() != BUSY {
        return Some((ended, written));
    }
    drop(written);
    served(alloc, station, sent)
}

/// What comes of a connection at a new station of this number and gate, whose client sends a text in pieces of so many bytes, and
/// sends it once more where it is told that memory ran out.
pub fn answered<H: HallName, M: Commits<H>, G: Gate, W: Wait>(
    rt: &W,
    alloc: Global,
    hall: &M,
    desk: Desk<H>,
    (number, gate): (u64, &G),
    sent: (&[u8], usize),
) -> Option<Visit> {
    let Some(kept) = hall.find_kept(rt, &desk.front()) else {
        drop(desk);
        return None;
    };
    let mut station = Station::new(rt, alloc, number, desk, kept, hall, gate).ok()?;
    let served = served_at_last(alloc, &mut station, sent);
    let made = station.made();
    drop(station);
    let (ended, written) = served?;
    Some(Visit {
        ended,
        written,
        made,
    })
}
