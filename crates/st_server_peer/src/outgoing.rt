//! What the server sends to a client.
ghost use Rattle.std.specs.Prelude.{◌≡◌, ◌+◌, ◌*◌, ◌/◌, min};
ghost use Rattle.std.specs.Duration.{as_nanos};
ghost use Rattle.std.specs.Io.{WritesAtMost};

use std::io::{self, ErrorKind, Write};
use std::net::TcpStream;
use std::time::{Clock, Duration};

// How long a client may take nothing of a reply, in milliseconds.
const GRACE: u64 = 5_000;

// How many bytes of a reply a client must take in each millisecond beyond that.
const RATE: u64 = 256;

// The most bytes that are handed to a socket at once: a Unix socket takes as many without a second wait.
const PIECE: usize = 32_768;

// How long the sending of a reply may have lasted before more than so many bytes of it are taken.
fn time_for(taken: usize, limit: Duration) -> Duration
    ensures { as_nanos result ≡ min ((5000 + taken / 256) * 1000000) (as_nanos limit) }
{
    Duration::from_millis(GRACE + taken as u64 / RATE).min(limit)
}

/// A stream whose client must take each reply in time: 256 bytes a millisecond beyond 5 seconds, and all of it within a limit. A
/// write that took a part of a reply has waited for as long as it may: it says how much it took, and the next write fails.
#[derive(Drop)]
pub struct Outgoing<'a, C> {
    stream: &'a TcpStream,
    clock: &'a C,
    limit: Duration,
    // How long a write of the stream waits (`SO_SNDTIMEO` in socket(7)).
    wait: Duration,
    is_late: bool,
}

impl<'a, C: Clock> Outgoing<'a, C> {
    /// Sends without delay, and gives no reply longer than the limit.
    pub fn new(
        clock: &'a C,
        stream: &'a TcpStream,
        limit: Duration,
    ) -> io::Result<Outgoing<'a, C>> {
        let wait = time_for(0, limit);
        stream.set_write_timeout(Some(wait))?;
        // A Unix socket has no such option, and never delays.
        let _set = stream.set_nodelay(true);
        Ok(Outgoing {
            stream,
            clock,
            limit,
            wait,
            is_late: false,
        })
    }

    // How long the next write may wait, when so many bytes of a reply are taken. Where the clock fails, no time is left.
    fn time_left(&self, began: Duration, taken: usize) -> Duration {
        match self.clock.monotonic() {
            Ok(now) => began
                .saturating_add(time_for(taken, self.limit))
                .saturating_sub(now),
            Err(_error) => Duration::ZERO,
        }
    }

    // Sends a part of a piece, and waits for so long at most. Where no time is left, this fails.
    fn send_piece(&mut self, piece: &[u8], wait: Duration) -> io::Result<usize>
        ensures { WritesAtMost result piece.now }
    {
        if wait != self.wait {
            self.stream.set_write_timeout(Some(wait))?;
            self.wait = wait;
        }
        self.stream.write(piece)
    }

    // Sends as much of a reply as is taken in time.
    fn send(&mut self, reply: &[u8]) -> io::Result<usize>
        ensures { WritesAtMost result reply.now }
    {
        let began = self.clock.monotonic()?;
        let mut wait = time_for(0, self.limit);
        let mut taken = 0;
        while taken < reply.len() {
            let rest = &reply[taken..];
            match self.send_piece(&rest[..rest.len().min(PIECE)], wait) {
                Ok(0) => return Ok(taken),
                Ok(count) => taken += count,
                Err(error) => return if taken == 0 { Err(error) } else { Ok(taken) },
            }
            wait = self.time_left(began, taken);
        }
        Ok(taken)
    }
}

impl<C: Clock> Write for Outgoing<'_, C> {
    fn write(&mut self, bytes: &[u8]) -> io::Result<usize> {
        if self.is_late {
            return Err(ErrorKind::TimedOut.into());
        }
        let taken = self.send(bytes)?;
        self.is_late = taken < bytes.len();
        Ok(taken)
    }

    fn flush(&mut self) -> io::Result<()> {
        self.stream.flush()
    }
}
