//! One connection, from its first byte to its end.
ghost use Rattle.std.specs.Prelude.{◌≡◌, ◌≢◌, ◌+◌, ◌*◌, ◌^◌, ◌<◌, ◌≤◌, Err, true, false, length, take};
ghost use Rattle.st_connection.specs.Connection.{EndsOn, KeptUnlessLost, ServedWithin, WithInterim};
ghost use Rattle.st_connection.specs.Streams.{streams};
ghost use Rattle.st_connection.specs.inner.Stages.{Answered, AnsweredNext};

use crate::constant::fault_text;
use crate::expecting::answer_text;
use crate::replies::Replies;
use crate::sending::{Stopped, flush, pass};
use crate::streams::{Sink, Source};
use st_http::message::Take;
use st_http::routes::Routes;
use std::convert::AsSlice;
use thiserror::Error;

/// How a connection ended.
#[derive(Clone, Copy, Debug, PartialEq, Eq)]
pub enum Ended {
    /// The input ended between messages.
    Clean,
    /// An answer closed the connection.
    Closed,
    /// The input ended inside a message.
    Cut,
    /// None of these after `MAX_READS` reads.
    TurnsSpent,
    /// What was answered could not be synced.
    Lost,
}

/// A read or a write failed.
#[derive(Clone, Copy, Debug, PartialEq, Eq, Error)]
#[error("a read or a write failed after {written} bytes were written")]
pub struct IoFault {
    /// How many bytes were written before.
    pub written: u128,
}

/// The most reads that one call makes.
pub const MAX_READS: u32 = 1_000_000;

/// The most bytes that one read takes.
pub const PIECE: usize = 65_536;

/// The least length of a connection's buffer, in bytes: the longest head and the longest body (8,192 and 65,536), and one more read.
pub const ROOM: usize = 139_264;

// What was done about the first item of a text.
pub(crate) enum Next {
    // Nothing: it is not whole yet, or its client is to be told first that its body is awaited, as the flag says.
    Waits(bool),
    // A message of so many bytes was answered, and the connection stays.
    Open(usize),
    // The connection is closed.
    Closed,
}

// How the items of a text end.
pub(crate) enum Stop {
    // After so many bytes. The flag says whether the client of the next item is told that its body is awaited.
    Waits(usize, bool),
    // The connection is closed.
    Closed,
}

// Answers the first item of a text, unless its client is to be told first that its body is awaited.
fn answer_next<X: Replies, W: Sink>(
    answerer: &mut X,
    routes: &Routes,
    text: &[u8],
    block: &mut [u8],
    held: &mut usize,
    writer: &mut W,
    written: &mut u128,
) -> Result<Next, Stopped>
    requires room { written.old + 2 * 2 ^ 64 < 2 ^ 128 }
    requires within { held.old ≤ length block.old }
    requires sound { X.has_failed answerer.old ≡ false }
    ensures answered { AnsweredNext (WithInterim X.answers) false (X.now answerer.old) (X.now answerer.new)
        (X.kept answerer.old) (X.kept answerer.new) text.now
        (W.held writer.old) (W.held writer.new) written.old written.new (take held.old block.old)
        (take held.new block.new) result }
    ensures unwritten { result ≡ Err Stopped.Unwritten → W.has_failed writer.new ≡ true }
    ensures synced { result ≡ Err Stopped.Unwritten → X.kept answerer.new ≡ X.now answerer.new }
    ensures lost { result ≡ Err Stopped.Lost → X.has_failed answerer.new ≡ true }
    ensures not_lost { result ≢ Err Stopped.Lost → X.has_failed answerer.new ≡ false }
    ensures ok { result ≢ Err Stopped.Unwritten → W.has_failed writer.new ≡ W.has_failed writer.old }
    ensures room_stays { length block.new ≡ length block.old }
    ensures within_stays { held.new ≤ length block.old }
{
    if text.is_empty() {
        return Ok(Next::Waits(false));
    }
    let taken = routes.take(text);
    if taken.expects() {
        return Ok(Next::Waits(true));
    }
    match taken {
        Take::More(_) => Ok(Next::Waits(false)),
        Take::Fault(fault) => {
            let answer = fault_text(fault.reason, fault.bare);
            if let Err(why) = pass(answerer, answer, block, held, writer, written) {
                return Err(why);
            }
            Ok(Next::Closed)
        }
        Take::Message(message, used) => {
            let reply = answerer.reply(&message);
            if let Err(why) = pass(answerer, reply.as_slice(), block, held, writer, written) {
                return Err(why);
            }
            Ok(if message.close {
                Next::Closed
            } else {
                Next::Open(used)
            })
        }
    }
}

// Answers the items of a text, up to one whose client is to be told that its body is awaited.
pub(crate) fn answer_all<X: Replies, W: Sink>(
    answerer: &mut X,
    routes: &Routes,
    text: &[u8],
    block: &mut [u8],
    writer: &mut W,
    written: &mut u128,
) -> Result<Stop, Stopped>
    requires room { written.old + 2 ^ 65 * (length text.now + 3) < 2 ^ 128 }
    requires synced { X.kept answerer.old ≡ X.now answerer.old }
    requires sound { X.has_failed answerer.old ≡ false }
    ensures answered { Answered (WithInterim X.answers) (length block.old) (X.now answerer.old) (X.now answerer.new)
        (X.kept answerer.new) text.now
        (W.held writer.old) (W.held writer.new) written.old written.new result }
    ensures synced { result ≢ Err Stopped.Lost → X.kept answerer.new ≡ X.now answerer.new }
    ensures lost { result ≡ Err Stopped.Lost → X.has_failed answerer.new ≡ true }
    ensures not_lost { result ≢ Err Stopped.Lost → X.has_failed answerer.new ≡ false }
    ensures unwritten { result ≡ Err Stopped.Unwritten → W.has_failed writer.new ≡ true }
    ensures ok { result ≢ Err Stopped.Unwritten → W.has_failed writer.new ≡ W.has_failed writer.old }
    ensures room_stays { length block.new ≡ length block.old }
{
    let mut held = 0;
    let mut used = 0;
    'items: loop {
        match answer_next(
            answerer,
            routes,
            &text[used..],
            block,
            &mut held,
            writer,
            written,
        ) {
            Err(why) => return Err(why),
            Ok(Next::Open(count)) => used += count,
            Ok(Next::Waits(due)) => {
                return match flush(answerer, &block[..held], writer, written) {
                    Ok(()) => Ok(Stop::Waits(used, due)),
                    Err(why) => Err(why),
                };
            }
            Ok(Next::Closed) => {
                return match flush(answerer, &block[..held], writer, written) {
                    Ok(()) => Ok(Stop::Closed),
                    Err(why) => Err(why),
                };
            }
        }
    }
}

/// Serves a connection: answers each item that the reader gives, in order, before it reads on. Answers are held back while
/// `block` has room for them and a further item was read, and are synced before a byte of them is written. A client that may wait
/// with a body is told once that it is awaited, before its answer.
pub fn serve_connection<X: Replies, R: Source, W: Sink>(
    answerer: &mut X,
    routes: &Routes,
    buffer: &mut [u8],
    block: &mut [u8],
    reader: &mut R,
    writer: &mut W,
) -> Result<Ended, IoFault>
    requires room { ROOM ≤ length buffer.old }
    requires answerer_synced { X.kept answerer.old ≡ X.now answerer.old }
    requires answerer_sound { X.has_failed answerer.old ≡ false }
    requires reader_sound { R.has_failed reader.old ≡ false }
    requires writer_sound { W.has_failed writer.old ≡ false }
    ensures served { ServedWithin X.answers (length block.old) (X.now answerer.old) (X.now answerer.new) (X.kept answerer.new)
        (streams R.Source W.Sink reader.old reader.new writer.old writer.new) result }
    ensures kept { KeptUnlessLost (X.kept answerer.new) (X.now answerer.new) (X.has_failed answerer.new) result }
    ensures ends { EndsOn MAX_READS (streams R.Source W.Sink reader.old reader.new writer.old writer.new) result }
{
    let mut written: u128 = 0;
    let mut filled = 0;
    let mut told = false;
    'reads: for turn in 0..MAX_READS {
        let Ok(count) = reader.read(&mut buffer[filled..filled + PIECE]) else {
            return Err(IoFault { written });
        };
        if count == 0 {
            return Ok(if filled == 0 {
                Ended::Clean
            } else {
                Ended::Cut
            });
        }
        filled += count;
        match answer_text(
            answerer,
            routes,
            &buffer[..filled],
            told,
            block,
            writer,
            &mut written,
        ) {
            Err(Stopped::Unwritten) => return Err(IoFault { written }),
            Err(Stopped::Lost) => return Ok(Ended::Lost),
            Ok(Stop::Closed) => return Ok(Ended::Closed),
            Ok(Stop::Waits(used, ahead)) => {
                buffer.copy_within(used..filled, 0);
                filled -= used;
                told = ahead;
                reader.answered(filled);
            }
        }
    }
    Ok(Ended::TurnsSpent)
}
