//! What the server reads from a client.
//!
//! A message that comes whole in one read costs no reading of the clock while both limits are equal. The loop notifies its source
//! of what is left unanswered (`Source::answered`), which changes nothing that a contract sees. A socket's own limit is for one
//! read (`SO_RCVTIMEO`).
ghost use Rattle.std.specs.Prelude.{◌≡◌, ◌↔◌, ◌<◌, ◌≤◌, false, None, IfOk, IsTrue};

use crate::watching::{Crowd, Watch};
use st_connection::{Failed, FromRead, Source};
use std::io;
use std::net::TcpStream;
use std::time::{Clock, Duration};

// Whether a message of which `rest` bytes were read began with the last `came` of them.
fn has_just_begun(rest: usize, came: usize) -> bool
    ensures { IsTrue result ↔ (0 < rest) × (rest ≤ came) }
{
    0 < rest && rest <= came
}

/// A stream whose client must send each message whole within a limit, and the first byte of the next one within another.
#[derive(Drop)]
pub struct Incoming<'a, C> {
    source: FromRead<&'a TcpStream>,
    stream: &'a TcpStream,
    clock: &'a C,
    limit: Duration,
    idle: Duration,
    // How long the first byte of the next message may take.
    pause: Duration,
    // When the message that has begun must be whole, by the clock.
    until: Option<Duration>,
    // How many bytes the last read gave.
    came: usize,
    // How long a read of the stream waits.
    wait: Duration,
    watch: Watch<'a>,
}

impl<'a, C: Clock> Incoming<'a, C> {
    /// Gives each message `limit` from the read that brings its first byte to its last byte, the first byte of a connection `limit`
    /// too, and that of each later message `idle` from the answer to the one before it. A read for which no time is left fails. Of
    /// the connections that are answered at the same time this is one.
    pub fn new(
        clock: &'a C,
        stream: &'a TcpStream,
        limit: Duration,
        idle: Duration,
        crowd: &'a Crowd,
    ) -> io::Result<Incoming<'a, C>>
        ensures sound { IfOk result (λ incoming. ⟦<Incoming<'a, C> as Source>⟧.has_failed incoming ≡ false) }
        ensures unknown { IfOk result (λ incoming. ⟦<Incoming<'a, C> as Source>⟧.left incoming ≡ None) }
    {
        stream.set_read_timeout(Some(limit))?;
        Ok(Incoming {
            source: FromRead::new(stream),
            stream,
            clock,
            limit,
            idle,
            pause: limit,
            until: None,
            came: 0,
            wait: limit,
            watch: Watch::new(crowd),
        })
    }

    // When a message that begins now must be whole: at once, where the clock fails.
    fn deadline(&self) -> Duration {
        match self.clock.monotonic() {
            Ok(now) => now.saturating_add(self.limit),
            Err(_error) => Duration::ZERO,
        }
    }

    // How long the next read may wait.
    fn time_left(&self) -> io::Result<Duration> {
        match self.until {
            Some(until) => Ok(until.saturating_sub(self.clock.monotonic()?)),
            None => Ok(self.pause),
        }
    }

    // Lets the next read wait as long as it may. Where no time is left, this fails.
    fn limit_wait(&mut self) -> io::Result<()>
        ensures { self.new.source ≡ self.old.source }
    {
        let wait = self.time_left()?;
        if wait != self.wait {
            self.stream.set_read_timeout(Some(wait))?;
            self.wait = wait;
        }
        Ok(())
    }
}

impl<'a, C: Clock> Source for Incoming<'a, C> {
    ghost left = { λ s. ⟦<FromRead<&'a TcpStream> as Source>⟧.left s.source };

    ghost reads = { λ s. ⟦<FromRead<&'a TcpStream> as Source>⟧.reads s.source };

    ghost has_ended = { λ s. ⟦<FromRead<&'a TcpStream> as Source>⟧.has_ended s.source };

    ghost has_failed = { λ s. ⟦<FromRead<&'a TcpStream> as Source>⟧.has_failed s.source };

    fn read(&mut self, buffer: &mut [u8]) -> Result<usize, Failed> {
        if self.until.is_none() {
            self.watch.wait(self.stream);
        }
        match self.limit_wait() {
            Ok(()) => {
                let count = self.source.read(buffer)?;
                self.came = count;
                Ok(count)
            }
            Err(_error) => Err(self.source.give_up()),
        }
    }

    fn answered(&mut self, rest: usize) {
        self.pause = self.idle;
        if rest == 0 {
            self.until = None;
        } else if has_just_begun(rest, self.came) {
            self.until = Some(self.deadline());
        }
    }
}
