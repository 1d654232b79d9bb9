//! Listening at a port or a socket, and what is told of it.
ghost use Rattle.std.specs.Prelude.{◌≡◌, ◌⊎◌, Err, IfErr, OnOk, codes, decimal};
ghost use Rattle.std.specs.Io.KnownBytes.{Appends};
ghost use Rattle.st_server_workers.specs.Telling.{Tells, line};
ghost use Rattle.st_command_line.specs.ServedArguments.{address_text};
ghost use Rattle.st_command_line.specs.declared.fault.Fault.TheVariants.{Bind, Write as Unwritten, NoMemory};

use st_command_line::{BindAddress, Fault, ServedArguments};
use st_server_peer::{Listener, Listens, SocketListener};
use std::alloc::Global;
use std::fs::Files;
use std::io::{self, Write};
use std::net::{Net, SocketAddr, TcpListener, TcpStream};

/// A listener at an address that a command line names.
pub trait Binds: Listens {
    /// Listens where the words say.
    fn bind<R: Net<Listener = TcpListener, Stream = TcpStream> + Files>(
        rt: &R,
        said: &ServedArguments<'_>,
    ) -> io::Result<Self>
    where
        Self: Sized;

    /// Removes what was made at the address to listen there.
    fn leave<R: Files>(&self, rt: &R, said: &ServedArguments<'_>);
}

impl Binds for Listener {
    fn bind<R: Net<Listener = TcpListener, Stream = TcpStream> + Files>(
        rt: &R,
        said: &ServedArguments<'_>,
    ) -> io::Result<Listener> {
        match said.bind_address {
            BindAddress::Port(port) => {
                let port = TcpListener::bind(rt, SocketAddr::V4(said.address(port)))?;
                Ok(Listener::Port(port))
            }
            BindAddress::Socket(path) => Ok(Listener::Socket(SocketListener::bind(rt, path)?)),
        }
    }

    fn leave<R: Files>(&self, rt: &R, said: &ServedArguments<'_>) {
        if let Listener::Socket(socket) = self {
            if let BindAddress::Socket(path) = said.bind_address {
                socket.remove(rt, path);
            }
        }
    }
}

// Listens where the words say.
fn listen<L: Binds, R: Net<Listener = TcpListener, Stream = TcpStream> + Files>(
    rt: &R,
    said: &ServedArguments<'_>,
) -> Result<L, Fault>
    ensures { IfErr result (λ fault. fault ≡ Bind) }
{
    match L::bind(rt, said) {
        Ok(listener) => Ok(listener),
        Err(_) => Err(Fault::Bind),
    }
}

/// Writes a line with a number.
pub fn tell<O: Write>(alloc: Global, output: &mut O, what: &str, number: u16) -> Result<(), Fault>
    ensures ok { OnOk result (Appends (O.contents output.old) (O.contents output.new) (line what.now (decimal number))) }
    ensures err { IfErr result (λ fault. (fault ≡ Unwritten)
        ⊎ ((fault ≡ NoMemory) × (O.contents output.new ≡ O.contents output.old))) }
{
    let text = format!(in alloc; "{what} {number}\n")?;
    match output.write_all(text.as_bytes()) {
        Ok(()) => Ok(()),
        Err(_) => Err(Fault::Write),
    }
}

// Writes a line with a path.
fn tell_path<O: Write>(alloc: Global, output: &mut O, what: &str, path: &str) -> Result<(), Fault>
    ensures ok { OnOk result (Appends (O.contents output.old) (O.contents output.new) (line what.now path.now)) }
    ensures err { IfErr result (λ fault. (fault ≡ Unwritten)
        ⊎ ((fault ≡ NoMemory) × (O.contents output.new ≡ O.contents output.old))) }
{
    let text = format!(in alloc; "{what} {path}\n")?;
    match output.write_all(text.as_bytes()) {
        Ok(()) => Ok(()),
        Err(_) => Err(Fault::Write),
    }
}

// Tells where the server listens.
fn tell_bind_address<O: Write>(
    alloc: Global,
    output: &mut O,
    address: BindAddress<'_>,
) -> Result<(), Fault>
    ensures ok { OnOk result (Appends (O.contents output.old) (O.contents output.new)
        (line (codes "listening") (address_text address.entry))) }
    ensures err { IfErr result (λ fault. (fault ≡ Unwritten)
        ⊎ ((fault ≡ NoMemory) × (O.contents output.new ≡ O.contents output.old))) }
{
    match address {
        BindAddress::Port(port) => tell(alloc, output, "listening", port),
        BindAddress::Socket(path) => tell_path(alloc, output, "listening", path),
    }
}

/// Listens at the port or the socket, and tells so.
pub fn begin<L: Binds + Drop, R: Net<Listener = TcpListener, Stream = TcpStream> + Files, O: Write>(
    rt: &R,
    alloc: Global,
    said: &ServedArguments<'_>,
    output: &mut O,
) -> Result<L, Fault>
    ensures ok { OnOk result (Appends (O.contents output.old) (O.contents output.new)
        (line (codes "listening") (address_text said.now.bind_address))) }
    ensures err { IfErr result (λ fault. Tells (address_text said.now.bind_address) said.now.connections
        (O.contents output.old) (O.contents output.new) (Err fault)) }
{
    let listener: L = listen(rt, said)?;
    match tell_bind_address(alloc, output, said.bind_address) {
        Ok(()) => Ok(listener),
        Err(fault) => {
            listener.leave(rt, said);
            Err(fault)
        }
    }
}
