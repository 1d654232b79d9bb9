//! Where connections are accepted.
ghost use Rattle.std.specs.Prelude.{◌≡◌};

use st_command_line::Fault;
use st_server_peer::{Acceptor, Crowd, Listens};
use std::io::Eprint;
use std::net::{Net, TcpListener, TcpStream};
use std::sync::{Condvar, Mutex, Wait};
use std::thread::{Threads, available_parallelism};
use std::time::Clock;

/// The program, as its lines on standard error name it.
pub const PROGRAM: &str = "st_served";

// Whether connections are accepted.
#[derive(Clone, Copy, PartialEq, Eq)]
enum Entry {
    // That is not decided yet.
    Waiting,
    Open,
    Closed,
}

// Where connections are accepted, one at a time. Who comes before it is opened or closed waits. Once closed it stays closed.
#[derive(Drop)]
pub(crate) struct Door<'a, L> {
    acceptor: Mutex<Acceptor<'a, L>>,
    // The connections that were let in and are being answered.
    pub(crate) crowd: Crowd,
    listener: &'a L,
    entry: Mutex<Entry>,
    decided: Condvar,
}

impl<'a, L: Listens> Door<'a, L> {
    // A door at a listener, for as many processors as the program may use.
    pub(crate) fn new<R: Threads>(rt: &R, listener: &'a L) -> Door<'a, L> {
        let processors = match available_parallelism(rt) {
            Ok(number) => number.get(),
            Err(_) => 1,
        };
        Door {
            acceptor: Mutex::new(Acceptor::new(listener, PROGRAM)),
            crowd: Crowd::new(processors),
            listener,
            entry: Mutex::new(Entry::Waiting),
            decided: Condvar::new(),
        }
    }

    // Opens it, unless it is closed.
    pub(crate) fn open<R: Wait>(&self, rt: &R) {
        let mut entry = self.entry.lock(rt);
        if *entry == Entry::Waiting {
            *entry = Entry::Open;
        }
        self.decided.notify_all();
    }

    // Closes it.
    fn close<R: Wait>(&self, rt: &R) {
        *self.entry.lock(rt) = Entry::Closed;
        self.decided.notify_all();
    }

    // Closes it for a fault.
    pub(crate) fn refuse<R: Wait>(&self, rt: &R, fault: Fault) -> Fault
        ensures { result ≡ fault }
    {
        self.close(rt);
        fault
    }

    // Whether it is open, once that is decided.
    fn is_open<R: Wait>(&self, rt: &R) -> bool {
        let entry = self.entry.lock(rt);
        let entry = self
            .decided
            .wait_while(rt, entry, |entry| *entry == Entry::Waiting);
        *entry == Entry::Open
    }

    // The next connection, as long as the door is open and the listener is good. A connection that comes as the door is closed is
    // dropped.
    pub(crate) fn next<R: Wait + Clock + Eprint>(&self, rt: &R) -> Option<L::Accepted> {
        let mut acceptor = self.acceptor.lock(rt);
        if !self.is_open(rt) {
            return None;
        }
        let client = acceptor.next(rt).ok()?;
        if !self.is_open(rt) {
            return None;
        }
        Some(client)
    }

    // Closes it, and lets who waits for a connection see so: the listener connects to itself, since a thread in `accept` hears of it by
    // nothing else.
    pub(crate) fn shut<R: Net<Listener = TcpListener, Stream = TcpStream> + Wait + Clock>(
        &self,
        rt: &R,
    ) {
        self.close(rt);
        self.listener.shut(rt);
    }
}
