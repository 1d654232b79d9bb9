//! Why a program failed.
ghost use Rattle.std.specs.Prelude.{◌≡◌};
ghost use Rattle.st_command_line.specs.Status.{exit_status_of};

use clap::error::ErrorKind;
use std::alloc::AllocError;
use std::io::Write;
use thiserror::Error;

/// Why a program failed.
#[derive(Debug, Drop, Error)]
pub enum Fault {
    /// The command line is invalid, or asks for help.
    #[error("{0}")]
    Usage(clap::Error),
    /// A word of the command line is not UTF-8.
    #[error("bad word")]
    NotText,
    /// A number that the parser let pass is not one below 2^16.
    #[error("bad number")]
    BadNumber,
    /// The address to listen at is not an IPv4 address.
    #[error("bad address")]
    BadAddress,
    /// Neither a port nor a socket is named, or both are.
    #[error("one of --port P and --socket PATH is wanted")]
    WantsBindAddress,
    /// `--listen` is given, and no port is named.
    #[error("--listen wants --port P")]
    WantsPort,
    /// `--compact` or `--copy` is given, and no store is named.
    #[error("--compact and --copy want --store FILE")]
    WantsStore,
    /// `--copy-every` is given, and no copy is named.
    #[error("--copy-every wants --copy FILE")]
    WantsCopy,
    /// The digest is not 64 hexadecimal digits.
    #[error("bad digest")]
    BadDigest,
    /// A name is not a valid authorization.
    #[error("bad name")]
    BadName,
    /// The input ended inside a message.
    #[error("cut")]
    Cut,
    /// The connection took a million reads.
    #[error("turns spent")]
    TurnsSpent,
    /// The store was made for another digest of root.
    #[error("store of another root")]
    OtherStore,
    /// The store was made for this digest of root, and for other authorizations or these in another order.
    #[error("store of other authorizations of root (their order counts)")]
    OtherNames,
    /// Another process holds the store.
    #[error("store in use")]
    StoreInUse,
    /// A later version of the program wrote the store, in the format of this number.
    #[error("store of the later format {0}")]
    LaterStore(u32),
    /// The file is no store.
    #[error("no store")]
    NoStore,
    /// The file is a store, but it is damaged.
    #[error("store damaged")]
    StoreDamaged,
    /// Another program was interrupted inside a transaction on the store; `sqlite3` undoes that when it opens the file.
    #[error("store interrupted")]
    StoreInterrupted,
    /// The store could not be read or written when it was opened.
    #[error("store not opened")]
    StoreIo,
    /// A change was not kept, or may not have been, or could not be made once it was kept.
    #[error("store lost")]
    StoreLost,
    /// A read or a write of the connection failed.
    #[error("read or write failed")]
    Io,
    /// The port or the socket could not be bound.
    #[error("bind failed")]
    Bind,
    /// A connection could not be accepted.
    #[error("accept failed")]
    Accept,
    /// Standard output took no more.
    #[error("write failed")]
    Write,
    /// Memory ran out.
    #[error("no memory")]
    NoMemory,
    /// The hall had no place for a reader.
    #[error("no place")]
    NoPlace,
    /// A thread could not be started.
    #[error("no thread")]
    NoThread,
}

impl Fault {
    /// The exit status: 2 to 13.
    pub fn status(&self) -> u8
        ensures { result ≡ exit_status_of self.now }
    {
        match self {
            Fault::Usage(_)
            | Fault::NotText
            | Fault::BadNumber
            | Fault::BadAddress
            | Fault::WantsBindAddress
            | Fault::WantsPort
            | Fault::WantsStore
            | Fault::WantsCopy
            | Fault::BadDigest
            | Fault::BadName => 2,
            Fault::Cut => 3,
            Fault::TurnsSpent => 4,
            Fault::Io | Fault::Bind | Fault::Accept | Fault::Write | Fault::StoreIo => 5,
            Fault::NoMemory | Fault::NoPlace | Fault::NoThread => 6,
            Fault::StoreLost => 7,
            Fault::OtherStore | Fault::OtherNames => 8,
            Fault::StoreInUse => 9,
            Fault::LaterStore(_) => 10,
            Fault::NoStore => 11,
            Fault::StoreDamaged => 12,
            Fault::StoreInterrupted => 13,
        }
    }
}

impl From<AllocError> for Fault {
    ghost use Rattle.std.specs.Prelude.{◌≡◌};
    ghost use Rattle.st_command_line.specs.declared.fault.Fault.TheVariants.{NoMemory};

    ghost from_gives = { λ _ e. e ≡ NoMemory };

    fn from(_: AllocError) -> Fault {
        Fault::NoMemory
    }
}

impl From<clap::Error> for Fault {
    ghost use Rattle.std.specs.Prelude.{◌≡◌};
    ghost use Rattle.clap.specs.Words.{kind_of};
    ghost use Rattle.st_command_line.specs.inner.Commands.{as_fault};

    ghost from_gives = { λ error fault. fault ≡ as_fault (kind_of error) error };

    fn from(error: clap::Error) -> Fault {
        match error.kind() {
            ErrorKind::OutOfMemory => Fault::NoMemory,
            _ => Fault::Usage(error),
        }
    }
}

/// Writes a fault's message, behind the program's name unless it is the parser's own, and returns the exit
/// status. A message that cannot be written is dropped.
pub fn give_up<F: Write>(program: &str, fault: Fault, faults: &mut F) -> u8
    ensures { result ≡ exit_status_of fault }
{
    let _ = match &fault {
        Fault::Usage(error) => writeln!(faults, "{error}"),
        _ => writeln!(faults, "{program}: {fault}"),
    };
    fault.status()
}
