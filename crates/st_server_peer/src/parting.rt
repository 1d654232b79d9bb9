//! How the server ends a connection.
use std::io::{self, Read};
use std::net::{Shutdown, TcpStream};
use std::time::{Clock, Duration};

// How long a connection that the server has ended is still read, in seconds, and how much of it, in bytes.
const PARTING: u64 = 2;

const MOST: usize = 1_048_576;

// Reads what still comes, up to the time and up to so many bytes.
fn read_out<R: Clock>(clock: &R, mut stream: &TcpStream, until: Duration) -> io::Result<()> {
    let mut left = MOST;
    let mut rest = [0; 16_384];
    for _ in 0..MOST {
        let wait = until.saturating_sub(clock.monotonic()?);
        if wait.is_zero() || left == 0 {
            return Ok(());
        }
        stream.set_read_timeout(Some(wait))?;
        let count = stream.read(&mut rest)?;
        if count == 0 {
            return Ok(());
        }
        left = left.saturating_sub(count);
    }
    Ok(())
}

// Says that no more comes, and reads what is under way.
fn say_goodbye<R: Clock>(clock: &R, stream: &TcpStream) -> io::Result<()> {
    stream.shutdown(Shutdown::Write)?;
    let until = clock
        .monotonic()?
        .saturating_add(Duration::from_secs(PARTING));
    read_out(clock, stream, until)
}

/// Ends a connection: says that no more comes, and takes what the client sent before it heard so, 1 MiB or two seconds of it at
/// most. Left unread, it would reset the connection, and the client could not tell whether its last request was taken
/// (RFC 9112, "Tear-down").
pub fn part<R: Clock>(clock: &R, stream: &TcpStream) {
    let _parted = say_goodbye(clock, stream);
}
