//! What is written of the answers: synced first, and in blocks.
ghost use Rattle.std.specs.Prelude.{◌≡◌, ◌≢◌, ◌+◌, ◌*◌, ◌^◌, ◌<◌, ◌≤◌, ◌++◌, [], Err, true, false, length, take, OnErr, OnOk, is_ok};
ghost use Rattle.st_connection.specs.inner.Stages.{Passed, Sent};

use crate::replies::Replies;
use crate::streams::{Failed, Sink};

// Why answering stopped.
pub(crate) enum Stopped {
    // A write failed.
    Unwritten,
    // The answers could not be synced.
    Lost,
}

// Writes the bytes, as far as the writer takes them.
pub(crate) fn write_all<W: Sink>(
    writer: &mut W,
    bytes: &[u8],
    written: &mut u128,
) -> Result<(), Failed>
    requires { written.old + length bytes.now < 2 ^ 128 }
    ensures sent { Sent (W.held writer.old) (W.held writer.new) written.old written.new bytes.now (is_ok result) }
    ensures failed { OnErr result (W.has_failed writer.new ≡ true) }
    ensures ok { OnOk result (W.has_failed writer.new ≡ W.has_failed writer.old) }
{
    let mut done = 0;
    while done < bytes.len() {
        let taken = writer.write(&bytes[done..])?;
        if taken == 0 {
            return Err(Failed);
        }
        done += taken;
        *written += taken as u128;
    }
    Ok(())
}

// Syncs, and writes the block.
pub(crate) fn flush<X: Replies, W: Sink>(
    answerer: &mut X,
    block: &[u8],
    writer: &mut W,
    written: &mut u128,
) -> Result<(), Stopped>
    requires room { written.old + 2 ^ 64 < 2 ^ 128 }
    requires sound { X.has_failed answerer.old ≡ false }
    ensures passed { Passed (X.now answerer.old) (X.kept answerer.old) (X.kept answerer.new)
        (W.held writer.old) (W.held writer.new) written.old written.new block.now [] result }
    ensures now { X.now answerer.new ≡ X.now answerer.old }
    ensures synced { result ≢ Err Stopped.Lost → X.kept answerer.new ≡ X.now answerer.old }
    ensures unwritten { result ≡ Err Stopped.Unwritten → W.has_failed writer.new ≡ true }
    ensures lost { result ≡ Err Stopped.Lost → X.has_failed answerer.new ≡ true }
    ensures not_lost { result ≢ Err Stopped.Lost → X.has_failed answerer.new ≡ false }
    ensures ok { result ≢ Err Stopped.Unwritten → W.has_failed writer.new ≡ W.has_failed writer.old }
{
    if let Err(Failed) = answerer.sync() {
        return Err(Stopped::Lost);
    }
    match write_all(writer, block, written) {
        Ok(()) => Ok(()),
        Err(Failed) => Err(Stopped::Unwritten),
    }
}

// Puts an answer behind those of the block. Where it has no room there, all are synced and written.
pub(crate) fn pass<X: Replies, W: Sink>(
    answerer: &mut X,
    answer: &[u8],
    block: &mut [u8],
    held: &mut usize,
    writer: &mut W,
    written: &mut u128,
) -> Result<(), Stopped>
    requires room { written.old + 2 * 2 ^ 64 < 2 ^ 128 }
    requires within { held.old ≤ length block.old }
    requires sound { X.has_failed answerer.old ≡ false }
    ensures passed { Passed (X.now answerer.old) (X.kept answerer.old) (X.kept answerer.new)
        (W.held writer.old) (W.held writer.new) written.old written.new
        (take held.old block.old ++ answer.now) (take held.new block.new) result }
    ensures now { X.now answerer.new ≡ X.now answerer.old }
    ensures unwritten { result ≡ Err Stopped.Unwritten → W.has_failed writer.new ≡ true }
    ensures synced { result ≡ Err Stopped.Unwritten → X.kept answerer.new ≡ X.now answerer.old }
    ensures lost { result ≡ Err Stopped.Lost → X.has_failed answerer.new ≡ true }
    ensures not_lost { result ≢ Err Stopped.Lost → X.has_failed answerer.new ≡ false }
    ensures ok { result ≢ Err Stopped.Unwritten → W.has_failed writer.new ≡ W.has_failed writer.old }
    ensures room_stays { length block.new ≡ length block.old }
    ensures within_stays { held.new ≤ length block.old }
{
    let filled = *held;
    if answer.len() < block.len() - filled {
        block[filled..filled + answer.len()].copy_from_slice(answer);
        *held = filled + answer.len();
        return Ok(());
    }
    *held = 0;
    flush(answerer, &block[..filled], writer, written)?;
    match write_all(writer, answer, written) {
        Ok(()) => Ok(()),
        Err(Failed) => Err(Stopped::Unwritten),
    }
}
