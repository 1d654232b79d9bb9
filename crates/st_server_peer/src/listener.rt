//! Where a server listens: at a TCP port, or at a Unix socket.
use crate::accepting::Listens;
use std::fs::{self, Files, Permissions};
use std::io::{self, ErrorKind};
use std::net::{Net, Shutdown, TcpListener, TcpStream};
use std::os::fd::OwnedFd;
use std::os::unix::fs::{FileTypeExt, MetadataExt, PermissionsExt};
use std::os::unix::net::{UnixListener, UnixStream};
use std::thread;
use std::time::{Clock, Duration};

// How many knocks there are at most, how long one may take, and how long the wait is between two, in milliseconds.
const KNOCKS: u32 = 600;

const KNOCK: u64 = 1_000;

const WAIT: u64 = 100;

// Who may connect to a Unix socket: the account of the server and its group.
const MODE: u32 = 0o660;

/// A listener at a Unix socket.
#[derive(Drop)]
pub struct SocketListener {
    listener: UnixListener,
    // The same socket, as what can be shut down.
    handle: TcpStream,
    // The file of the socket: its device, and its number there.
    device: u64,
    inode: u64,
}

// Removes a socket at which nobody listens. Any other file stays.
fn clear<R: Files + Net>(rt: &R, path: &str) -> io::Result<()> {
    if !fs::symlink_metadata(rt, path)?.file_type().is_socket() {
        return Err(ErrorKind::AddrInUse.into());
    }
    match UnixStream::connect(rt, path) {
        Ok(_stream) => Err(ErrorKind::AddrInUse.into()),
        Err(error) if error.kind() == ErrorKind::ConnectionRefused => fs::remove_file(rt, path),
        Err(error) => Err(error),
    }
}

// Listens at a path, where nothing is or a socket at which nobody listens.
fn bind_path<R: Files + Net>(rt: &R, path: &str) -> io::Result<UnixListener> {
    match UnixListener::bind(rt, path) {
        Err(error) if error.kind() == ErrorKind::AddrInUse => {
            clear(rt, path)?;
            UnixListener::bind(rt, path)
        }
        bound => bound,
    }
}

impl SocketListener {
    /// Makes a socket at the path, to which the account of the process and its group may connect. A socket that a server left there
    /// when it was killed is replaced. Where somebody listens at it, or another file is there, this fails.
    pub fn bind<R: Files + Net>(rt: &R, path: &str) -> io::Result<SocketListener> {
        let listener = bind_path(rt, path)?;
        fs::set_permissions(rt, path, Permissions::from_mode(MODE))?;
        let found = fs::symlink_metadata(rt, path)?;
        let handle = TcpStream::from(OwnedFd::from(listener.try_clone()?));
        Ok(SocketListener {
            listener,
            handle,
            device: found.dev(),
            inode: found.ino(),
        })
    }

    // Ends accepting: who waits for a connection is told that the listener is bad.
    fn shut(&self) {
        let _shut = self.handle.shutdown(Shutdown::Both);
    }

    /// Removes the socket from the path that it was made at, unless another file is there by now.
    pub fn remove<R: Files>(&self, rt: &R, path: &str) {
        if let Ok(found) = fs::symlink_metadata(rt, path) {
            if found.dev() == self.device && found.ino() == self.inode {
                let _removed = fs::remove_file(rt, path);
            }
        }
    }
}

/// A listener.
#[derive(Drop)]
pub enum Listener {
    /// At a TCP port.
    Port(TcpListener),
    /// At a Unix socket.
    Socket(SocketListener),
}

// Connects to a port, so that who accepts there goes on. While the machine is short of files or memory it tries again. Where
// nobody answers in time so many connections wait there that who accepts goes on without it.
fn knock<R: Net<Listener = TcpListener, Stream = TcpStream> + Clock>(
    rt: &R,
    listener: &TcpListener,
) {
    let Ok(address) = listener.local_addr() else {
        return;
    };
    for _ in 0..KNOCKS {
        match TcpStream::connect_timeout(rt, &address, Duration::from_millis(KNOCK)) {
            Ok(_) => return,
            Err(error) if error.kind() == ErrorKind::TimedOut => return,
            Err(_) => thread::sleep(rt, Duration::from_millis(WAIT)),
        }
    }
}

impl Listens for Listener {
    // That of a Unix socket is a `TcpStream` too, which answers `Unsupported` where TCP alone has what it is asked.
    type Accepted = TcpStream;

    fn accept(&self) -> io::Result<TcpStream> {
        match self {
            Listener::Port(port) => {
                let (stream, _peer) = port.accept()?;
                Ok(stream)
            }
            Listener::Socket(socket) => {
                let (stream, _peer) = socket.listener.accept()?;
                Ok(TcpStream::from(OwnedFd::from(stream)))
            }
        }
    }

    fn shut<R: Net<Listener = TcpListener, Stream = TcpStream> + Clock>(&self, rt: &R) {
        match self {
            Listener::Port(port) => knock(rt, port),
            Listener::Socket(socket) => socket.shut(),
        }
    }
}
