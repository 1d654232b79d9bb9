//! A service: a store that is asked over connections, one after another.
ghost use Rattle.std.specs.Prelude.{◌≡◌, false, IfOk};
ghost use Rattle.st_service.specs.Answers.{Answers, RepliesTo};
ghost use Rattle.st_service.specs.Bytes.{bytes_of};
ghost use Rattle.st_connection.specs.Connection.{EndsOn, Served};
ghost use Rattle.st_connection.specs.Streams.{streams};

use crate::answer::Answer;
use crate::answerer::Answerer;
use st_connection::Server;
use st_connection::connection::{Ended, IoFault, MAX_READS};
use st_connection::streams::{Sink, Source};
use st_core::Store;
use st_http::message::Message;
use std::alloc::{AllocError, Allocator, Global};
use std::marker::Model;

/// A store that is asked over connections, one after another. Contracts see it as the store's state.
pub struct Service<A: Allocator + Copy = Global> {
    server: Server<Answerer<A>, A>,
}

// Written out, and not derived: a derived drop is proved anew in each crate that owns a service.
impl<A: Allocator + Copy> Drop for Service<A> {
    fn drop(self) {
        let Self { server: _server } = self;
    }
}

impl<A: Allocator + Copy> Model for Service<A> {
    ghost use Rattle.st_core.specs.State.{State};

    ghost Value = { State A };

    ghost view = { λ s. s.server };
}

impl<A: Allocator + Copy> Service<A> {
    /// A service over a store. Its routes and the reading of bodies take memory of `global`, all else of `alloc`.
    pub fn new(alloc: A, global: Global, store: Store<A>) -> Result<Service<A>, AllocError>
        ensures { IfOk result (λ service. service ≡ store) }
    {
        let server = Server::new(alloc, global, Answerer::new(alloc, global, store))?;
        Ok(Service { server })
    }

    /// Answers one message. When out of memory the answer is a 503. A 503 never follows an accepted change, and changes nothing but
    /// that the audit listing keeps the entry of a refused change.
    pub fn reply_to(&mut self, message: &Message<'_>) -> Answer<A>
        ensures { RepliesTo self.old message.now (bytes_of result) self.new }
    {
        self.server.reply_to(message)
    }

    /// Serves a connection: answers each message that the reader gives, in order, before it reads on, and says how the connection
    /// ended. An `IoFault` comes only where a read failed, or a write failed or took no byte.
    pub fn serve<R: Source, W: Sink>(
        &mut self,
        reader: &mut R,
        writer: &mut W,
    ) -> Result<Ended, IoFault>
        requires reader_sound { R.has_failed reader.old ≡ false }
        requires writer_sound { W.has_failed writer.old ≡ false }
        ensures served { Served Answers self.old self.new (streams R.Source W.Sink reader.old reader.new writer.old writer.new) result }
        ensures ends { EndsOn MAX_READS (streams R.Source W.Sink reader.old reader.new writer.old writer.new) result }
    {
        self.server.serve(reader, writer)
    }
}
