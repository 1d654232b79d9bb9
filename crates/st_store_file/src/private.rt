//! Files that nobody but their owner may read.
use std::fs::OpenOptions;
use std::io::{self, ErrorKind};
use std::os::unix::fs::OpenOptionsExt;

// Reading and writing for the owner alone.
const MODE: u32 = 0o600;

// Makes an empty file that its owner alone may read and write, where none is. The files that SQLite keeps beside it get its mode.
pub(crate) fn make_private(rt: &HostRuntime, path: &str) -> io::Result<()> {
    match OpenOptions::new()
        .write(true)
        .create_new(true)
        .mode(MODE)
        .open(rt, path)
    {
        Ok(_file) => Ok(()),
        Err(error) if error.kind() == ErrorKind::AlreadyExists => Ok(()),
        Err(error) => Err(error),
    }
}
