//! The one owner of the serving loop.
ghost use Rattle.std.specs.Prelude.{◌≡◌, ◌≤◌, false, length, IfOk};
ghost use Rattle.st_connection.specs.Connection.{EndsOn, KeptUnlessLost, ServedWithin};
ghost use Rattle.st_connection.specs.Streams.{streams};
ghost use Rattle.st_connection.specs.declared.connection.TheConstants.{ROOM};

use crate::connection::{Ended, IoFault, MAX_READS, ROOM, serve_connection};
use crate::replies::Replies;
use crate::streams::{Sink, Source};
use st_http::message::Message;
use st_http::routes::Routes;
use std::alloc::{AllocError, Allocator, Global};
use std::marker::Model;

/// A server of connections, one after another: the table of routes, the input buffer of one connection, and what answers the
/// messages. Contracts see it as what answers.
#[derive(Drop)]
pub struct Server<X: Replies + Drop, A: Allocator + Copy = Global> {
    routes: Routes,
    buffer: Vec<u8, A>,
    answerer: X,
}

impl<X: Replies + Drop, A: Allocator + Copy> Model for Server<X, A> {
    ghost Value = { X };

    ghost view = { λ s. s.answerer };

    ghost invariant = { λ s. ROOM ≤ length s.buffer.items };
}

impl<X: Replies + Drop, A: Allocator + Copy> Server<X, A> {
    /// A server by this answerer. The routes take memory of `global`, the buffer of `alloc`.
    pub fn new(alloc: A, global: Global, answerer: X) -> Result<Server<X, A>, AllocError>
        ensures { IfOk result (λ server. server ≡ answerer) }
    {
        Ok(Server {
            routes: Routes::new(global)?,
            buffer: vec![in alloc; 0u8; ROOM]?,
            answerer,
        })
    }

    /// What answers the messages.
    pub fn answerer(&self) -> &X
        ensures { result.now ≡ self.now }
    {
        &self.answerer
    }

    /// Answers one message.
    pub fn reply_to(&mut self, message: &Message<'_>) -> X::Reply
        requires sound { X.has_failed self.old ≡ false }
        ensures replied { X.replies (X.now self.old) message.now (X.Reply.items result) (X.now self.new) }
        ensures sound { X.has_failed self.new ≡ false }
    {
        self.answerer.reply(message)
    }

    /// Serves a connection: answers each message that the reader gives, in order, before it reads on, writes each answer at once,
    /// and says how the connection ended. An `IoFault` comes only where a read failed, or a write failed or took no byte.
    pub fn serve<R: Source, W: Sink>(
        &mut self,
        reader: &mut R,
        writer: &mut W,
    ) -> Result<Ended, IoFault>
        requires synced { X.kept self.old ≡ X.now self.old }
        requires sound { X.has_failed self.old ≡ false }
        requires reader_sound { R.has_failed reader.old ≡ false }
        requires writer_sound { W.has_failed writer.old ≡ false }
        ensures served { ServedWithin X.answers 0 (X.now self.old) (X.now self.new) (X.kept self.new)
            (streams R.Source W.Sink reader.old reader.new writer.old writer.new) result }
        ensures kept { KeptUnlessLost (X.kept self.new) (X.now self.new) (X.has_failed self.new) result }
        ensures ends { EndsOn MAX_READS (streams R.Source W.Sink reader.old reader.new writer.old writer.new) result }
    {
        serve_connection(
            &mut self.answerer,
            &self.routes,
            self.buffer.as_mut_slice(),
            &mut [],
            reader,
            writer,
        )
    }
}
