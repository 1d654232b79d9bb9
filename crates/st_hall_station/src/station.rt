//! A station: a worker who answers the messages of connections.
//!
//! A station keeps its handle, since what answers a connection (`Replies`) is handed a message alone. Each message is one call,
//! also one without a route; the gate hears `answered` once the text is made.
ghost use Rattle.std.specs.Prelude.{◌≡◌, true, false, refl, option_map, Ok, None, IfOk, IfSome, OnErr, OnOk};
ghost use Rattle.st_connection.specs.Connection.{EndsOn, Served};
ghost use Rattle.st_connection.specs.Streams.{streams};
ghost use Rattle.st_connection.specs.Render.{busy_text};
ghost use Rattle.st_hall.specs.Views.{Learns};
ghost use Rattle.st_service.specs.Answers.{IsFound, RendersOrBusy, parsed_in, token_from, token_in};
ghost use Rattle.st_service.specs.Bytes.{bytes_of};
ghost use Rattle.st_service.specs.inner.Represented.{is_replied};
ghost use Rattle.st_hall_station.specs.Posts.{PostAnswers, StationAnswers, StationReplies};
ghost use Rattle.st_hall_station.specs.Seats.{IsStrange, Moves, SeatAnswers, no_token};
ghost use Rattle.st_hall_station.specs.Standing.{ServesKept};

use st_connection::Failed;
use st_connection::connection::{Ended, IoFault, MAX_READS, ROOM, serve_connection};
use st_connection::replies::Replies;
use st_connection::streams::{Sink, Source};
use st_core::{Reply, Token, copy_token};
use st_hall::{Clerk, Commits, Desk, Gate, HallName, KeptFront, Lost, Undecided, Worker};
use st_http::message::Message;
use st_http::routes::Routes;
use st_service::{Answer, asked_with, is_long, to_stranger, token_of};
use std::alloc::{AllocError, Global};
use std::marker::Model;
use std::sync::{Mutex, Wait};

// What answers messages by a worker.
struct WorkerAnswerer<'a, H: HallName, M: Commits<H>, G: Gate, W: Wait> {
    alloc: Global,
    worker: Worker<'a, H, M, G>,
    rt: &'a W,
}

// Written out, and not derived, as that of a station is.
impl<'a, H: HallName, M: Commits<H>, G: Gate, W: Wait> Drop for WorkerAnswerer<'a, H, M, G, W> {
    fn drop(self) {
        let Self {
            alloc: _alloc,
            worker: _worker,
            rt: _rt,
        } = self;
    }
}

impl<'a, H: HallName, M: Commits<H>, G: Gate, W: Wait> Model for WorkerAnswerer<'a, H, M, G, W> {
    ghost use Rattle.st_hall.specs.Decisions.{Standing};

    ghost Value = { Standing };

    ghost view = { λ a. a.worker };
}

// The answer that has a reply.
fn say(alloc: Global, message: &Message<'_>, reply: Reply) -> Answer
    ensures { RendersOrBusy reply message.now.close message.now.bare (bytes_of result) }
{
    let told = Ok(reply);
    let answer = Answer::of(alloc, &told, message.close, message.bare);
    drop(told);
    answer
}

// The answer for which there is no memory.
fn busy(message: &Message<'_>) -> Answer
    ensures { bytes_of result ≡ busy_text message.now.close message.now.bare }
{
    Answer::Busy {
        close: message.close,
        bare: message.bare,
    }
}

// The answer to what a message asked.
fn answer_of(alloc: Global, message: &Message<'_>, told: Result<Option<Reply>, Undecided>) -> Answer
    ensures ok { IfOk told (λ t. IfSome t (λ reply. RendersOrBusy reply message.now.close message.now.bare (bytes_of result))) }
    ensures stranger { told ≡ Ok None → RendersOrBusy no_token message.now.close message.now.bare (bytes_of result) }
    ensures busy { OnErr told (bytes_of result ≡ busy_text message.now.close message.now.bare) }
{
    match told {
        Ok(Some(reply)) => say(alloc, message, reply),
        Ok(None) => to_stranger(alloc, message),
        Err(_) => busy(message),
    }
}

impl<'a, H: HallName, M: Commits<H>, G: Gate, W: Wait> WorkerAnswerer<'a, H, M, G, W> {
    // How many receipts were got at the desk.
    fn made(&self) -> u64
        ensures { result ≡ self.now.post.seat.made }
    {
        self.worker.made()
    }

    // Ends the answerer. Returns the desk, and the token of what the desk had seen at the last sync.
    fn apart(self) -> (Desk<H>, KeptFront<H>)
        ensures desk { result.0 ≡ self.entry.post.seat }
        ensures synced { result.1 ≡ self.entry.synced.seat.seen }
    {
        let Self {
            alloc: _alloc,
            worker,
            rt: _rt,
        } = self;
        worker.apart()
    }

    // Whether a sync failed.
    fn has_failed(&self) -> bool
        ensures is { result ≡ self.now.has_failed }
        ensures lost { self.now.has_failed ≡ true → M.may_lose }
    {
        self.worker.has_failed()
    }

    // Sees that all that was seen so far is kept.
    fn keep(&mut self) -> Result<(), Lost>
        ensures post { self.new.post ≡ self.old.post }
        ensures ok { OnOk result ((self.new.synced ≡ self.new.post) × (self.new.has_failed ≡ self.old.has_failed)) }
        ensures err { OnErr result ((self.new.synced ≡ self.old.synced) × (self.new.has_failed ≡ true)) }
        ensures lost { OnErr result M.may_lose }
    {
        self.worker.sync(self.rt)
    }

    // Whether a message is refused before its body is read: the body is long, and the token does not hold after the changes that are
    // then seen. When out of memory the body is read.
    fn is_stranger(&mut self, message: &Message<'_>, token: &Option<Token>) -> bool
        ensures same { (self.new.synced ≡ self.old.synced) × (self.new.has_failed ≡ self.old.has_failed) }
        ensures number { self.new.post.number ≡ self.old.post.number }
        ensures calls { self.new.post.calls ≡ self.old.post.calls }
        ensures learnt { self.new.post.learnt ≡ self.old.post.learnt }
        ensures moves { Moves 0 self.old.post.seat self.new.post.seat }
        ensures stranger { result ≡ true → IsStrange H.start self.new.post.seat.seen token.now }
    {
        if !is_long(message) {
            return false;
        }
        match self.worker.knows(copy_token(token)) {
            Ok(holds) => !holds,
            Err(AllocError) => false,
        }
    }

    // Answers a message whose route is an endpoint, by what it asks, in the call that began last.
    fn answer_asked(&mut self, message: &Message<'_>, token: Option<Token>) -> Answer
        requires found { IsFound message.now }
        requires token { token ≡ option_map token_from (token_in message.now) }
        ensures same { (self.new.synced ≡ self.old.synced) × (self.new.has_failed ≡ self.old.has_failed) }
        ensures number { self.new.post.number ≡ self.old.post.number }
        ensures calls { self.new.post.calls ≡ self.old.post.calls }
        ensures learns { Learns self.old.post self.new.post }
        ensures seat { SeatAnswers H.start self.old.post.seat (parsed_in message.now) (bytes_of result) self.new.post.seat }
    {
        let Ok(asked) = asked_with(self.alloc, self.alloc, message, token) else {
            return busy(message);
        };
        let told = self.worker.ask(self.rt, message, &asked);
        drop(asked);
        answer_of(self.alloc, message, told)
    }

    // Answers a message whose route is an endpoint, in the call that began last.
    fn answer_found(&mut self, message: &Message<'_>) -> Answer
        requires { IsFound message.now }
        ensures same { (self.new.synced ≡ self.old.synced) × (self.new.has_failed ≡ self.old.has_failed) }
        ensures number { self.new.post.number ≡ self.old.post.number }
        ensures calls { self.new.post.calls ≡ self.old.post.calls }
        ensures learns { Learns self.old.post self.new.post }
        ensures seat { SeatAnswers H.start self.old.post.seat (parsed_in message.now) (bytes_of result) self.new.post.seat }
    {
        let token = token_of(message);
        if self.is_stranger(message, &token) {
            return to_stranger(self.alloc, message);
        }
        self.answer_asked(message, token)
    }

    // Answers a message, in the call that began last. Once nothing more is kept no request is answered: no answer goes out then.
    fn answer(&mut self, message: &Message<'_>) -> Answer
        ensures same { (self.new.synced ≡ self.old.synced) × (self.new.has_failed ≡ self.old.has_failed) }
        ensures number { self.new.post.number ≡ self.old.post.number }
        ensures calls { self.new.post.calls ≡ self.old.post.calls }
        ensures learns { Learns self.old.post self.new.post }
        ensures seat { SeatAnswers H.start self.old.post.seat (parsed_in message.now) (bytes_of result) self.new.post.seat }
    {
        if self.worker.is_lost() {
            return busy(message);
        }
        match Answer::of_unrouted(self.alloc, message) {
            Some(answer) => answer,
            None => self.answer_found(message),
        }
    }
}

impl<'a, H: HallName, M: Commits<H>, G: Gate, W: Wait> Replies for WorkerAnswerer<'a, H, M, G, W> {
    ghost use Rattle.st_hall.specs.Views.{Post};

    type Reply = Answer;

    ghost State = { Post };

    ghost now = { λ a. a.post };

    ghost kept = { λ a. a.synced };

    ghost has_failed = { λ a. a.has_failed };

    ghost answers = { StationAnswers H.start };

    ghost replies = { StationReplies H.start };

    ghost replied = { is_replied (PostAnswers H.start) };

    ghost faults = { λ s reason bare. (refl, refl) };

    fn reply(&mut self, message: &Message<'_>) -> Answer {
        self.worker.begin();
        let answer = self.answer(message);
        self.worker.end();
        answer
    }

    fn sync(&mut self) -> Result<(), Failed> {
        match self.keep() {
            Ok(()) => Ok(()),
            Err(Lost) => Err(Failed),
        }
    }
}

impl<'a, H: HallName, C: Wait + Drop, G: Gate, W: Wait> WorkerAnswerer<
    'a,
    H,
    Mutex<Clerk<H, C>>,
    G,
    W,
> {
    // A hall in memory loses nothing.
    fn is_sound(&self)
        ensures { self.now.has_failed ≡ false }
    {
        if self.has_failed() {
            unreachable!()
        }
    }

    // Nor does a sync fail there.
    fn rest(&mut self)
        ensures post { self.new.post ≡ self.old.post }
        ensures synced { self.new.synced ≡ self.new.post }
        ensures sound { self.new.has_failed ≡ self.old.has_failed }
    {
        if self.keep().is_err() {
            unreachable!()
        }
    }
}

/// A worker who serves connections, one after another. Contracts see it as its post (its number, how many messages it was asked, the
/// longest front that it learnt, and its desk), the same at its last sync, and whether a sync failed.
pub struct Station<'a, H: HallName, M: Commits<H>, G: Gate, W: Wait> {
    answerer: WorkerAnswerer<'a, H, M, G, W>,
    routes: Routes,
    buffer: Vec<u8>,
    block: Vec<u8>,
}

// Written out, and not derived: a derived drop is proved anew in each crate that owns a station.
impl<'a, H: HallName, M: Commits<H>, G: Gate, W: Wait> Drop for Station<'a, H, M, G, W> {
    fn drop(self) {
        let Self {
            answerer: _answerer,
            routes: _routes,
            buffer: _buffer,
            block: _block,
        } = self;
    }
}

impl<'a, H: HallName, M: Commits<H>, G: Gate, W: Wait> Model for Station<'a, H, M, G, W> {
    ghost use Rattle.std.specs.Prelude.{◌≡◌, ◌≤◌, false, length};
    ghost use Rattle.st_connection.specs.declared.connection.TheConstants.{ROOM};
    ghost use Rattle.st_hall.specs.Decisions.{Standing};

    ghost Value = { Standing };

    ghost view = { λ s. s.answerer };

    ghost invariant = { λ s. (ROOM ≤ length s.buffer.items) × (length s.block.items ≡ M.HOLD)
        × (s.answerer.has_failed ≡ false → s.answerer.synced ≡ s.answerer.post) };
}

impl<'a, H: HallName, M: Commits<H>, G: Gate, W: Wait> Station<'a, H, M, G, W> {
    /// A station of this number over a desk, of which all that it has seen is kept.
    pub fn new(
        rt: &'a W,
        alloc: Global,
        number: u64,
        desk: Desk<H>,
        kept: KeptFront<H>,
        hall: &'a M,
        gate: &'a G,
    ) -> Result<Station<'a, H, M, G, W>, AllocError>
        requires { kept ≡ desk.seen }
        ensures post { IfOk result (λ station. station.post ≡ record { number = number; calls = 0; learnt = desk.seen; seat = desk }) }
        ensures synced { IfOk result (λ station. (station.synced ≡ station.post) × (station.has_failed ≡ false)) }
    {
        let worker = Worker::new(number, desk, kept, hall, gate);
        let routes = Routes::new(alloc)?;
        let buffer = vec![in alloc; 0u8; ROOM]?;
        let block = vec![in alloc; 0u8; M::HOLD]?;
        Ok(Station {
            answerer: WorkerAnswerer { alloc, worker, rt },
            routes,
            buffer,
            block,
        })
    }

    /// How many receipts were got at its desk.
    pub fn made(&self) -> u64
        ensures { result ≡ self.now.post.seat.made }
    {
        self.answerer.made()
    }

    /// Its desk, and what had been seen there when it was last synced, which is kept, once it serves no more.
    pub fn apart(self) -> (Desk<H>, KeptFront<H>)
        ensures desk { result.0 ≡ self.entry.post.seat }
        ensures synced { result.1 ≡ self.entry.synced.seat.seen }
    {
        let Self {
            answerer,
            routes: _routes,
            buffer: _buffer,
            block: _block,
        } = self;
        answerer.apart()
    }

    /// Serves a connection, as `Service::serve` does by a service. All that was seen for an answer is kept before a byte of it is
    /// written, and changes that a client sends together are kept together. `Lost` comes where nothing more is kept: what is not
    /// written may be kept, which only the next opening can tell, and the station takes no more connections: at each it does nothing.
    pub fn serve<S: Source, K: Sink>(
        &mut self,
        reader: &mut S,
        writer: &mut K,
    ) -> Result<Ended, IoFault>
        requires reader_sound { S.has_failed reader.old ≡ false }
        requires writer_sound { K.has_failed writer.old ≡ false }
        ensures served { ServesKept H.start M.HOLD self.old self.new
            (streams S.Source K.Sink reader.old reader.new writer.old writer.new) result }
        ensures lost { self.new.has_failed ≡ true → M.may_lose }
        ensures ends { EndsOn MAX_READS (streams S.Source K.Sink reader.old reader.new writer.old writer.new) result }
    {
        if self.answerer.has_failed() {
            return Ok(Ended::Lost);
        }
        let ended = serve_connection(
            &mut self.answerer,
            &self.routes,
            self.buffer.as_mut_slice(),
            self.block.as_mut_slice(),
            reader,
            writer,
        );
        let _failed = self.answerer.has_failed();
        ended
    }
}

impl<'a, H: HallName, C: Wait + Drop, G: Gate, W: Wait> Station<'a, H, Mutex<Clerk<H, C>>, G, W> {
    /// Answers one message, which is one call, also where its route is no endpoint. The gate is told of the answer when its text is
    /// made. When out of memory the answer is a 503, which never follows an accepted change.
    pub fn reply_to(&mut self, message: &Message<'_>) -> Answer
        ensures { StationReplies H.start self.old.post message.now (bytes_of result) self.new.post }
    {
        self.answerer.is_sound();
        let answer = self.answerer.reply(message);
        self.answerer.rest();
        answer
    }
}

/// Serves a connection by a station of a hall in memory, as `Service::serve` does by a service.
pub fn work<H: HallName, C: Wait + Drop, G: Gate, W: Wait, R: Source, S: Sink>(
    station: &mut Station<'_, H, Mutex<Clerk<H, C>>, G, W>,
    reader: &mut R,
    writer: &mut S,
) -> Result<Ended, IoFault>
    requires reader_sound { R.has_failed reader.old ≡ false }
    requires writer_sound { S.has_failed writer.old ≡ false }
    ensures served { Served (StationAnswers H.start) station.old.post station.new.post
        (streams R.Source S.Sink reader.old reader.new writer.old writer.new) result }
    ensures ends { EndsOn MAX_READS (streams R.Source S.Sink reader.old reader.new writer.old writer.new) result }
{
    station.answerer.is_sound();
    station.serve(reader, writer)
}
