//! Clients that may wait with a body until they are told that it is awaited (RFC 9110, "Expect").
ghost use Rattle.std.specs.Prelude.{◌≡◌, ◌≢◌, ◌+◌, ◌*◌, ◌^◌, ◌<◌, ◌≤◌, ℕ, Err, List, Option, true, false, length};
ghost use Rattle.std.specs.Io.KnownBytes.{Appends};
ghost use Rattle.st_http.specs.First.{First, IsFirst, expects};
ghost use Rattle.st_connection.specs.Connection.{WithInterim};
ghost use Rattle.st_connection.specs.Render.{interim};
ghost use Rattle.st_connection.specs.inner.Stages.{AnsweredOn, AnsweredText, AnsweredExpecting};

use crate::connection::{Next, Stop, answer_all};
use crate::constant::continue_text;
use crate::replies::Replies;
use crate::sending::{Stopped, flush, write_all};
use crate::streams::{Failed, Sink};
use st_http::message::Take;
use st_http::routes::Routes;
use std::convert::AsSlice;

// Answers the first item of a text at once, where its client was told that its body is awaited.
fn answer_expecting<X: Replies, W: Sink>(
    answerer: &mut X,
    routes: &Routes,
    text: &[u8],
    told: bool,
    writer: &mut W,
    written: &mut u128,
) -> Result<Next, Stopped>
    requires room { written.old + 2 ^ 65 < 2 ^ 128 }
    requires counted { length (interim told) ≤ written.old }
    requires expected { told ≡ true → (item : First) → IsFirst text.now item → expects item ≡ true }
    requires synced { X.kept answerer.old ≡ X.now answerer.old }
    requires sound { X.has_failed answerer.old ≡ false }
    ensures answered { (hold : ℕ) (held : Option (List ℕ)) (before : ℕ) → Appends held (W.held writer.old) (interim told)
        → written.old ≡ before + length (interim told)
        → AnsweredExpecting (WithInterim X.answers) hold told (X.now answerer.old) (X.now answerer.new) (X.kept answerer.new) text.now
        held (W.held writer.new) before written.new result }
    ensures synced { result ≢ Err Stopped.Lost → X.kept answerer.new ≡ X.now answerer.new }
    ensures unwritten { result ≡ Err Stopped.Unwritten → W.has_failed writer.new ≡ true }
    ensures lost { result ≡ Err Stopped.Lost → X.has_failed answerer.new ≡ true }
    ensures not_lost { result ≢ Err Stopped.Lost → X.has_failed answerer.new ≡ false }
    ensures ok { result ≢ Err Stopped.Unwritten → W.has_failed writer.new ≡ W.has_failed writer.old }
{
    if !told {
        return Ok(Next::Open(0));
    }
    match routes.take(text) {
        Take::More(_) => Ok(Next::Waits(false)),
        Take::Fault(_) => unreachable!(),
        Take::Message(message, used) => {
            let reply = answerer.reply(&message);
            if let Err(why) = flush(answerer, reply.as_slice(), writer, written) {
                return Err(why);
            }
            Ok(if message.close {
                Next::Closed
            } else {
                Next::Open(used)
            })
        }
    }
}

// Answers the items of a text up to one whose client is to be told that its body is awaited, and tells it.
fn answer_on<X: Replies, W: Sink>(
    answerer: &mut X,
    routes: &Routes,
    text: &[u8],
    block: &mut [u8],
    writer: &mut W,
    written: &mut u128,
) -> Result<Stop, Stopped>
    requires room { written.old + 2 ^ 65 * (length text.now + 3) < 2 ^ 128 }
    requires synced { X.kept answerer.old ≡ X.now answerer.old }
    requires sound { X.has_failed answerer.old ≡ false }
    ensures answered { AnsweredOn (WithInterim X.answers) (length block.old) (X.now answerer.old) (X.now answerer.new) (X.kept answerer.new)
        text.now (W.held writer.old) (W.held writer.new) written.old written.new result }
    ensures synced { result ≢ Err Stopped.Lost → X.kept answerer.new ≡ X.now answerer.new }
    ensures lost { result ≡ Err Stopped.Lost → X.has_failed answerer.new ≡ true }
    ensures not_lost { result ≢ Err Stopped.Lost → X.has_failed answerer.new ≡ false }
    ensures unwritten { result ≡ Err Stopped.Unwritten → W.has_failed writer.new ≡ true }
    ensures ok { result ≢ Err Stopped.Unwritten → W.has_failed writer.new ≡ W.has_failed writer.old }
    ensures room_stays { length block.new ≡ length block.old }
{
    match answer_all(answerer, routes, text, block, writer, written) {
        Err(why) => Err(why),
        Ok(Stop::Closed) => Ok(Stop::Closed),
        Ok(Stop::Waits(used, due)) => {
            if !due {
                return Ok(Stop::Waits(used, false));
            }
            match write_all(writer, continue_text(), written) {
                Ok(()) => Ok(Stop::Waits(used, true)),
                Err(Failed) => Err(Stopped::Unwritten),
            }
        }
    }
}

// Answers the items of a text, of which the client of the first may have been told already that its body is awaited.
pub(crate) fn answer_text<X: Replies, W: Sink>(
    answerer: &mut X,
    routes: &Routes,
    text: &[u8],
    was_told: bool,
    block: &mut [u8],
    writer: &mut W,
    written: &mut u128,
) -> Result<Stop, Stopped>
    requires room { written.old + 2 ^ 65 * (length text.now + 5) < 2 ^ 128 }
    requires counted { length (interim was_told) ≤ written.old }
    requires expected { was_told ≡ true → (item : First) → IsFirst text.now item → expects item ≡ true }
    requires synced { X.kept answerer.old ≡ X.now answerer.old }
    requires sound { X.has_failed answerer.old ≡ false }
    ensures answered { (held : Option (List ℕ)) (before : ℕ) → Appends held (W.held writer.old) (interim was_told)
        → written.old ≡ before + length (interim was_told)
        → AnsweredText (WithInterim X.answers) (length block.old) (X.now answerer.old) (X.now answerer.new) (X.kept answerer.new) text.now
        held (W.held writer.new) before written.new result }
    ensures synced { result ≢ Err Stopped.Lost → X.kept answerer.new ≡ X.now answerer.new }
    ensures lost { result ≡ Err Stopped.Lost → X.has_failed answerer.new ≡ true }
    ensures not_lost { result ≢ Err Stopped.Lost → X.has_failed answerer.new ≡ false }
    ensures unwritten { result ≡ Err Stopped.Unwritten → W.has_failed writer.new ≡ true }
    ensures ok { result ≢ Err Stopped.Unwritten → W.has_failed writer.new ≡ W.has_failed writer.old }
    ensures room_stays { length block.new ≡ length block.old }
{
    let mut told = was_told;
    let mut used = 0;
    'items: loop {
        match answer_expecting(answerer, routes, &text[used..], told, writer, written) {
            Err(why) => return Err(why),
            Ok(Next::Waits(_)) => return Ok(Stop::Waits(used, true)),
            Ok(Next::Closed) => return Ok(Stop::Closed),
            Ok(Next::Open(count)) => used += count,
        }
        match answer_on(answerer, routes, &text[used..], block, writer, written) {
            Err(why) => return Err(why),
            Ok(Stop::Closed) => return Ok(Stop::Closed),
            Ok(Stop::Waits(count, due)) => {
                used += count;
                if !due {
                    return Ok(Stop::Waits(used, false));
                }
            }
        }
        told = true;
    }
}
