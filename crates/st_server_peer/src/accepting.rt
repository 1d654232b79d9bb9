//! Accepting goes on whatever happens to a connection or to the machine.
ghost use Rattle.std.specs.Prelude.{◌≡◌, ◌*◌, min};
ghost use Rattle.std.specs.Duration.{as_nanos};

use crate::conversing::Client;
use std::io::{self, Eprint};
use std::net::{Net, TcpListener, TcpStream};
use std::thread;
use std::time::{Clock, Duration};
use thiserror::Error;

/// The listener cannot accept any more.
#[derive(Clone, Copy, Debug, PartialEq, Eq, Error)]
#[error("the listener is bad")]
pub struct BadListener;

// What an error of accept(2) is about.
#[derive(Clone, Copy)]
enum Cause {
    // One connection, which is gone.
    Connection,
    // The machine, which has no file or no memory now.
    Machine,
    // The listener.
    Listener,
}

// What an error is about, by accept(2).
fn cause_of(error: &io::Error) -> Cause {
    match error.raw_os_error() {
        // EPERM, EINTR, ENONET, EPROTO, ENOPROTOOPT, EOPNOTSUPP, ENETDOWN, ENETUNREACH, ECONNABORTED, ECONNRESET, ETIMEDOUT,
        // EHOSTDOWN, EHOSTUNREACH
        Some(1 | 4 | 64 | 71 | 92 | 95 | 100 | 101 | 103 | 104 | 110 | 112 | 113) => {
            Cause::Connection
        }
        // ENOMEM, ENFILE, EMFILE, ENOBUFS
        Some(12 | 23 | 24 | 105) => Cause::Machine,
        _ => Cause::Listener,
    }
}

// The first wait while the machine is short of files or memory, and the longest, in milliseconds.
const FIRST_WAIT: u64 = 10;

const LONGEST_WAIT: u64 = 1_000;

// The next wait: twice as long, and a second at most.
fn longer(wait: Duration) -> Duration
    ensures { as_nanos result ≡ min (as_nanos wait * 2) 1000000000 }
{
    wait.saturating_mul(2)
        .min(Duration::from_millis(LONGEST_WAIT))
}

/// Where connections are accepted.
pub trait Listens {
    /// A connection that was accepted.
    type Accepted: Client + Drop;

    /// The next connection, or the error of accept(2).
    fn accept(&self) -> io::Result<Self::Accepted>;

    /// Ends accepting: a thread that waits for a connection goes on.
    fn shut<R: Net<Listener = TcpListener, Stream = TcpStream> + Clock>(&self, rt: &R);
}

/// Accepts the connections of a listener. While the machine is short of files or memory it waits, and says on standard error
/// when that begins and when it ends.
#[derive(Drop)]
pub struct Acceptor<'a, L> {
    listener: &'a L,
    program: &'a str,
    is_short: bool,
    is_bad: bool,
}

impl<'a, L: Listens> Acceptor<'a, L> {
    /// Accepts the connections of this listener, for the program of this name.
    pub fn new(listener: &'a L, program: &'a str) -> Self {
        Acceptor {
            listener,
            program,
            is_short: false,
            is_bad: false,
        }
    }

    // Says whether the machine is short of files or memory, where that has changed.
    fn report<R: Eprint>(&mut self, rt: &R, is_short: bool, what: &str) {
        if self.is_short != is_short {
            self.is_short = is_short;
            let program = self.program;
            let _told = rt.eprintln(format_args!("{program}: {what}"));
        }
    }

    /// The next connection. An error that is about one connection is passed over; one about the machine is waited out, 10 ms at
    /// first and then twice as long each time, up to a second. Any other is the listener's, which is then bad for good (accept(2)).
    pub fn next<R: Clock + Eprint>(&mut self, rt: &R) -> Result<L::Accepted, BadListener> {
        let mut wait = Duration::from_millis(FIRST_WAIT);
        for _ in 0..u64::MAX {
            if self.is_bad {
                return Err(BadListener);
            }
            match self.listener.accept() {
                Ok(stream) => {
                    self.report(rt, false, "accepting again");
                    return Ok(stream);
                }
                Err(error) => match cause_of(&error) {
                    Cause::Connection => {}
                    Cause::Machine => {
                        self.report(rt, true, "no file or memory for a connection: waiting");
                        thread::sleep(rt, wait);
                        wait = longer(wait);
                    }
                    Cause::Listener => self.is_bad = true,
                },
            }
        }
        Err(BadListener)
    }
}
