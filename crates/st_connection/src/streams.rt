//! Where bytes come from and go to.
ghost use Rattle.std.specs.Prelude.{◌≡◌, ◌+◌, ◌-◌, ◌^◌, ◌<◌, ◌≤◌, ◌↔◌, ℕ, Bool, List, Option, Ok, true, false, IsTrue};
ghost use Rattle.std.specs.Prelude.{min, length, IfOk, OnErr, OnOk};
ghost use Rattle.std.specs.Io.{ReadsAtMost, WritesAtMost};
ghost use Rattle.std.specs.Io.KnownBytes.{WriteAppends, ReadConsumes};

use std::io::{self, ErrorKind, Read, Write};
use thiserror::Error;

/// A read or a write did not succeed. It moved no byte.
#[derive(Clone, Copy, Debug, PartialEq, Eq, Error)]
#[error("read or write failed")]
pub struct Failed;

/// Where bytes come from.
pub trait Source {
    // The bytes that are left, where they are known.
    ghost left: { Self → Option (List ℕ) };

    // How many reads were made so far, which stops at 2^64 - 1.
    ghost reads: { Self → ℕ };

    // Whether the last read gave no byte, though there was room for one.
    ghost has_ended: { Self → Bool };

    // Whether a read failed.
    ghost has_failed: { Self → Bool };

    /// Reads some of the bytes that are left into the front of `buffer`, and says how many these are. They are none only where
    /// `buffer` is empty or nothing is left.
    fn read(&mut self, buffer: &mut [u8]) -> Result<usize, Failed>
        ensures room { IfOk result (λ n. n ≤ length buffer.new) }
        ensures bytes { ReadConsumes (left self.old) (left self.new) result buffer.new }
        ensures counted { reads self.new ≡ min (reads self.old + 1) (2 ^ 64 - 1) }
        ensures ended { IsTrue (has_ended self.new) ↔ (result ≡ Ok 0) × (0 < length buffer.new) }
        ensures ok { OnOk result (has_failed self.new ≡ has_failed self.old) }
        ensures err { OnErr result (has_failed self.new ≡ true) };

    /// Hears that each whole message of what was read is answered, and that of the next one `rest` bytes were read.
    fn answered(&mut self, _rest: usize)
        ensures bytes { left self.new ≡ left self.old }
        ensures counted { reads self.new ≡ reads self.old }
        ensures ended { has_ended self.new ≡ has_ended self.old }
        ensures failed { has_failed self.new ≡ has_failed self.old }
    {}
}

/// Where bytes go to.
pub trait Sink {
    // The bytes that were taken, where they are known.
    ghost held: { Self → Option (List ℕ) };

    // Whether a write failed, or took none of the bytes that it was handed.
    ghost has_failed: { Self → Bool };

    /// Takes some of the first bytes of `bytes`, and says how many these are.
    fn write(&mut self, bytes: &[u8]) -> Result<usize, Failed>
        ensures room { IfOk result (λ n. n ≤ length bytes.now) }
        ensures bytes { WriteAppends (held self.old) (held self.new) result bytes.now }
        ensures ok { IfOk result (λ n. 0 < n → has_failed self.new ≡ has_failed self.old) }
        ensures none_taken { result ≡ Ok 0 → 0 < length bytes.now → has_failed self.new ≡ true }
        ensures err { OnErr result (has_failed self.new ≡ true) };
}

// One read, tried again where a signal interrupts it.
fn read_again<R: Read>(reader: &mut R, buffer: &mut [u8]) -> io::Result<usize>
    ensures bound { ReadsAtMost result buffer.new }
    ensures bytes { ReadConsumes (R.remaining reader.old) (R.remaining reader.new) result buffer.new }
{
    for _ in 0..u64::MAX {
        match reader.read(buffer) {
            Err(error) if error.kind() == ErrorKind::Interrupted => {}
            result => return result,
        }
    }
    Err(ErrorKind::Interrupted.into())
}

// One write, tried again where a signal interrupts it.
fn write_again<W: Write>(writer: &mut W, bytes: &[u8]) -> io::Result<usize>
    ensures bound { WritesAtMost result bytes.now }
    ensures bytes { WriteAppends (W.contents writer.old) (W.contents writer.new) result bytes.now }
{
    for _ in 0..u64::MAX {
        match writer.write(bytes) {
            Err(error) if error.kind() == ErrorKind::Interrupted => {}
            result => return result,
        }
    }
    Err(ErrorKind::Interrupted.into())
}

/// A reader of std as a `Source`. A read that a signal interrupts is made again.
#[derive(Drop)]
pub struct FromRead<R> {
    inner: R,
    reads: u64,
    ended: bool,
    failed: bool,
}

impl<R: Read> FromRead<R> {
    /// A source of the bytes of `inner`, of which none was read yet.
    pub fn new(inner: R) -> Self
        ensures left { ⟦<FromRead<R> as Source>⟧.left result ≡ R.remaining inner }
        ensures reads { ⟦<FromRead<R> as Source>⟧.reads result ≡ 0 }
        ensures not_ended { ⟦<FromRead<R> as Source>⟧.has_ended result ≡ false }
        ensures sound { ⟦<FromRead<R> as Source>⟧.has_failed result ≡ false }
    {
        FromRead {
            inner,
            reads: 0,
            ended: false,
            failed: false,
        }
    }

    /// Counts a read that fails before it is made.
    pub fn give_up(&mut self) -> Failed
        ensures bytes { ⟦<FromRead<R> as Source>⟧.left self.new ≡ ⟦<FromRead<R> as Source>⟧.left self.old }
        ensures counted { ⟦<FromRead<R> as Source>⟧.reads self.new ≡ min (⟦<FromRead<R> as Source>⟧.reads self.old + 1) (2 ^ 64 - 1) }
        ensures not_ended { ⟦<FromRead<R> as Source>⟧.has_ended self.new ≡ false }
        ensures failed { ⟦<FromRead<R> as Source>⟧.has_failed self.new ≡ true }
    {
        self.reads = self.reads.saturating_add(1);
        self.ended = false;
        self.failed = true;
        Failed
    }
}

impl<R: Read> Source for FromRead<R> {
    ghost left = { λ s. R.remaining s.inner };

    ghost reads = { λ s. s.reads };

    ghost has_ended = { λ s. s.ended };

    ghost has_failed = { λ s. s.failed };

    fn read(&mut self, buffer: &mut [u8]) -> Result<usize, Failed> {
        self.reads = self.reads.saturating_add(1);
        match read_again(&mut self.inner, buffer) {
            Ok(n) => {
                self.ended = n == 0 && !buffer.is_empty();
                Ok(n)
            }
            Err(_error) => {
                self.ended = false;
                self.failed = true;
                Err(Failed)
            }
        }
    }
}

/// A writer of std as a `Sink`. A write that a signal interrupts is made again.
#[derive(Drop)]
pub struct FromWrite<W> {
    inner: W,
    failed: bool,
}

impl<W: Write> FromWrite<W> {
    /// A sink that hands its bytes to `inner`.
    pub fn new(inner: W) -> Self
        ensures held { ⟦<FromWrite<W> as Sink>⟧.held result ≡ W.contents inner }
        ensures sound { ⟦<FromWrite<W> as Sink>⟧.has_failed result ≡ false }
    {
        FromWrite {
            inner,
            failed: false,
        }
    }

    /// The writer, after what it took.
    pub fn into_inner(self) -> W
        ensures { W.contents result ≡ ⟦<FromWrite<W> as Sink>⟧.held self }
    {
        self.inner
    }
}

impl<W: Write> Sink for FromWrite<W> {
    ghost held = { λ s. W.contents s.inner };

    ghost has_failed = { λ s. s.failed };

    fn write(&mut self, bytes: &[u8]) -> Result<usize, Failed> {
        match write_again(&mut self.inner, bytes) {
            Ok(n) => {
                if n == 0 && !bytes.is_empty() {
                    self.failed = true;
                }
                Ok(n)
            }
            Err(_error) => {
                self.failed = true;
                Err(Failed)
            }
        }
    }
}
