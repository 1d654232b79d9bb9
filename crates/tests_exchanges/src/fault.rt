//! Why a run did not end well.

use std::alloc::{AllocError, AllocFailed};
use std::io::{Error, ErrorKind};

/// Why a run did not end well.
#[derive(Clone, Copy, Debug, PartialEq, Eq)]
pub enum Fault {
    /// A line is neither a request nor bytes.
    BadLine,
    /// A name is no authorization.
    BadName,
    /// No earlier exchange has this name.
    NoExchange,
    Io,
    NoMemory,
}

impl Fault {
    /// The status that the program ends with.
    pub fn status(&self) -> u8 {
        match self {
            Fault::BadLine | Fault::BadName | Fault::NoExchange => 2,
            Fault::Io => 5,
            Fault::NoMemory => 6,
        }
    }

    /// What is told of it.
    pub fn text(&self) -> &'static str {
        match self {
            Fault::BadLine => "a line can't be read",
            Fault::BadName => "a name is no authorization",
            Fault::NoExchange => "no earlier exchange has this name",
            Fault::Io => "a read or a write failed",
            Fault::NoMemory => "no memory",
        }
    }
}

impl From<AllocError> for Fault {
    fn from(_: AllocError) -> Fault {
        Fault::NoMemory
    }
}

impl<T: Drop> From<AllocFailed<T>> for Fault {
    fn from(_: AllocFailed<T>) -> Fault {
        Fault::NoMemory
    }
}

impl From<Error> for Fault {
    fn from(error: Error) -> Fault {
        match error.kind() {
            ErrorKind::OutOfMemory => Fault::NoMemory,
            _ => Fault::Io,
        }
    }
}
