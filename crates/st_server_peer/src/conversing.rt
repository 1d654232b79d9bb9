//! One connection.
ghost use Rattle.std.specs.Prelude.{◌≡◌, ◌≢◌, ◌⊎◌, Bool, true, false, None, Ok};
ghost use Rattle.st_connection.specs.Connection.{EndsOn};
ghost use Rattle.st_connection.specs.Streams.{streams};
ghost use Rattle.st_connection.specs.declared.connection.Ended.TheVariants.{Clean, Cut};
ghost use Rattle.st_server_peer.specs.Meeting.{Call, MeetsClient};

use crate::incoming::Incoming;
use crate::outgoing::Outgoing;
use crate::parting::part;
use crate::watching::Crowd;
use st_connection::Attend;
use st_connection::connection::{Ended, IoFault, MAX_READS};
use st_connection::streams::{FromWrite, Sink, Source};
use std::net::TcpStream;
use std::time::{Clock, Duration};

/// How long a client may take.
#[derive(Clone, Copy)]
pub struct Limits {
    /// For a message, from its first byte to its last, and for a reply at most.
    pub message: Duration,
    /// From an answer to the first byte of the next message.
    pub idle: Duration,
}

/// Where the server says that it has ended a connection.
pub trait Hangup {
    // It was said that no more comes.
    ghost is_over: { Self → Bool };

    /// Says that no more comes.
    fn hang_up(&mut self)
        ensures { is_over self.new ≡ true };
}

// A connection from the server's side, and the clock by which it is parted from.
#[derive(Drop)]
struct Parting<'a, R> {
    stream: &'a TcpStream,
    clock: &'a R,
    is_over: bool,
}

impl<R: Clock> Hangup for Parting<'_, R> {
    ghost is_over = { λ p. p.is_over };

    fn hang_up(&mut self) {
        part(self.clock, self.stream);
        self.is_over = true;
    }
}

/// Answers the requests of a stream until it ends. Where its client has not ended it, it is told so.
pub fn answer_stream<T: Attend, R: Source, S: Sink, E: Hangup>(
    attendant: &mut T,
    reader: &mut R,
    writer: &mut S,
    stream: &mut E,
) -> Result<Ended, IoFault>
    requires reader_sound { R.has_failed reader.old ≡ false }
    requires writer_sound { S.has_failed writer.old ≡ false }
    ensures served { T.serves attendant.old attendant.new (streams R.Source S.Sink reader.old reader.new writer.old writer.new) result }
    ensures grows { T.grows attendant.old attendant.new }
    ensures ends { EndsOn MAX_READS (streams R.Source S.Sink reader.old reader.new writer.old writer.new) result }
    ensures told { result ≢ Ok Clean → result ≢ Ok Cut → E.is_over stream.new ≡ true }
    ensures untold { (result ≡ Ok Clean) ⊎ (result ≡ Ok Cut) → stream.new ≡ stream.old }
{
    let ended = attendant.serve(reader, writer);
    if !matches!(ended, Ok(Ended::Clean | Ended::Cut)) {
        stream.hang_up();
    }
    ended
}

/// A client at the other end of a connection that was accepted.
pub trait Client {
    // The connection as it was accepted.
    ghost call: { Self → Call };

    /// Has the requests of the client answered until the connection ends, and counts it among those that are answered meanwhile: how it
    /// ended, or none where it failed before a byte was read.
    fn meet<T: Attend, R: Clock>(
        self,
        rt: &R,
        attendant: &mut T,
        limits: Limits,
        crowd: &Crowd,
    ) -> Option<Result<Ended, IoFault>>
        ensures met { MeetsClient T.serves attendant.old (call self) result attendant.new }
        ensures grows { T.grows attendant.old attendant.new };
}

// Answers the requests of one connection of a crowd until it ends.
fn converse<T: Attend, R: Clock>(
    rt: &R,
    attendant: &mut T,
    stream: TcpStream,
    limits: Limits,
    crowd: &Crowd,
) -> Option<Result<Ended, IoFault>>
    ensures met { MeetsClient T.serves attendant.old (record { sends = None; held = None; may_fail = true }) result attendant.new }
    ensures grows { T.grows attendant.old attendant.new }
{
    let Ok(mut reader) = Incoming::new(rt, &stream, limits.message, limits.idle, crowd) else {
        return None;
    };
    let Ok(outgoing) = Outgoing::new(rt, &stream, limits.message) else {
        return None;
    };
    let mut writer = FromWrite::new(outgoing);
    let mut parting = Parting {
        stream: &stream,
        clock: rt,
        is_over: false,
    };
    Some(answer_stream(attendant, &mut reader, &mut writer, &mut parting))
}

impl Client for TcpStream {
    // What comes over a network is not known before.
    ghost call = { λ _. record { sends = None; held = None; may_fail = true } };

    fn meet<T: Attend, R: Clock>(
        self,
        rt: &R,
        attendant: &mut T,
        limits: Limits,
        crowd: &Crowd,
    ) -> Option<Result<Ended, IoFault>> {
        crowd.join();
        let ended = converse(rt, attendant, self, limits, crowd);
        crowd.leave();
        ended
    }
}
