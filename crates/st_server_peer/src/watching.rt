//! How a server watches for the next message of a client before it sleeps.
use std::io::ErrorKind;
use std::net::TcpStream;
use std::sync::atomic::{AtomicUsize, Ordering};

// How often a stream is looked at before the server sleeps: for some 20 microseconds.
const LOOKS: u32 = 60;

// The greatest number of messages for which a stream is not watched once it was watched for nothing.
const LONGEST: u32 = 63;

/// How many connections are answered at the same time, and how many processors there are for them.
#[derive(Drop)]
pub struct Crowd {
    connections: AtomicUsize,
    processors: usize,
}

impl Crowd {
    /// No connection yet, and so many processors.
    pub fn new(processors: usize) -> Crowd {
        Crowd {
            connections: AtomicUsize::new(0),
            processors,
        }
    }

    /// One connection more.
    pub fn join(&self) {
        let _before = self.connections.fetch_add(1, Ordering::Relaxed);
    }

    /// One connection less.
    pub fn leave(&self) {
        let _before = self.connections.fetch_sub(1, Ordering::Relaxed);
    }

    // Whether each connection can have two processors, for its client and for who answers.
    fn is_small(&self) -> bool {
        self.connections.load(Ordering::Relaxed) <= self.processors / 2
    }
}

// Whether a byte comes soon, or the end of the stream.
fn comes_soon(stream: &TcpStream) -> bool {
    let mut byte = [0];
    for _ in 0..LOOKS {
        match stream.peek(&mut byte) {
            Err(error) if error.kind() == ErrorKind::WouldBlock => {}
            _ => return true,
        }
    }
    false
}

// Watches a stream while the server has processors to spare, so that a message which comes at once finds the server awake. Where it
// was watched for nothing, it is not watched for the next messages: 1, then 3, and so on up to 63.
#[derive(Drop)]
pub(crate) struct Watch<'a> {
    crowd: &'a Crowd,
    // For how many messages it is not watched.
    rest: u32,
    // How long it was not watched last.
    pause: u32,
}

impl<'a> Watch<'a> {
    pub(crate) fn new(crowd: &'a Crowd) -> Watch<'a> {
        Watch {
            crowd,
            rest: 0,
            pause: 0,
        }
    }

    // Looks at the stream for a while. A stream that cannot be set to blocking again fails at its next read.
    fn look(&mut self, stream: &TcpStream) {
        if stream.set_nonblocking(true).is_err() {
            return;
        }
        self.pause = if comes_soon(stream) {
            0
        } else {
            self.pause.saturating_mul(2).saturating_add(1).min(LONGEST)
        };
        self.rest = self.pause;
        let _set = stream.set_nonblocking(false);
    }

    // Waits a little for the next message, if that is worth it.
    pub(crate) fn wait(&mut self, stream: &TcpStream) {
        if self.rest > 0 {
            self.rest -= 1;
        } else if self.crowd.is_small() {
            self.look(stream);
        }
    }
}
