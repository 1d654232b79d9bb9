//! The command line `st_served --root DIGEST (--port P [--listen ADDRESS] | --socket PATH) [--store FILE] [--compact] [--copy FILE]
//! [--copy-every SECONDS] [--connections N] [--workers N] [--timeout SECONDS] [--idle SECONDS] [NAME]...`.
//!
//! `clap` judges the ranges of numbers; the program reads them once more. If one were unreadable, it would say `bad number` with
//! status 2, since the lemmas say only of a required argument that it is read as a number.
ghost use Rattle.std.specs.Prelude.{◌≡◌, ◌<◌, ◌*◌, IfOk, IfErr, OnOk, List, codes, map, string_bytes, true, unwrap_or};
ghost use Rattle.std.specs.Net.Grammar.{IsIpv4Text};
ghost use Rattle.std.specs.Net.Socket.{v4_port};
ghost use Rattle.std.specs.Duration.{as_nanos};
ghost use Rattle.st_text.specs.Texts.{Text, is_among};
ghost use Rattle.st_command_line.specs.Common.{NamesItsStore, file_of};
ghost use Rattle.st_command_line.specs.inner.Commands.{IsParsed};
ghost use Rattle.st_command_line.specs.ServedArguments.{Gives, GivesBindAddress, ListensAt, WantsWith, Writes};
ghost use Rattle.st_command_line.specs.ServedArguments.{SaysServed, RefusesServedWords};
ghost use Rattle.st_command_line.specs.ServedArguments.{address_options, number_options, served_command, value_of};
ghost use Rattle.st_command_line.specs.ServedArguments.{workers_of};

use crate::common::{check_store, flag};
use crate::fault::Fault;
use crate::served_options::parse;
use clap::ArgMatches;
use std::alloc::Global;
use std::net::{Ipv4Addr, SocketAddrV4};
use std::time::Duration;

// How many seconds a client may take for a message, and the server to send a reply, without `--timeout`.
const SECONDS: u16 = 30;

// How many seconds the copy stays behind, without `--copy-every`.
const COPY_SECONDS: u16 = 60;

/// Where `st_served` listens.
#[derive(Clone, Copy)]
pub enum BindAddress<'a> {
    /// A TCP port, 1 to 65,535.
    Port(u16),
    /// The path of a Unix socket.
    Socket(&'a str),
}

/// The arguments of `st_served`.
#[derive(Drop)]
pub struct ServedArguments<'a> {
    /// The SHA-256 of root's secret in 64 hexadecimal digits; not checked here.
    pub digest: &'a str,
    /// Where to listen.
    pub bind_address: BindAddress<'a>,
    /// The path of the file that keeps the store; without it the store is in memory alone.
    pub store: Option<&'a str>,
    /// Whether the store's list of changes is made short before anything is served; only with a store.
    pub compacts: bool,
    /// The path of the file that is a copy of the store; only with a store.
    pub copy: Option<&'a str>,
    /// How many seconds the copy stays behind, 1 to 3,600; only with a copy.
    pub copy_every: Option<u16>,
    /// How many connections to serve, 0 to 1,000; without it, all that come.
    pub connections: Option<u16>,
    /// How many workers serve, 1 to 256.
    pub workers: Option<u16>,
    /// How many seconds a client may take for a message, and the server to send a reply, 1 to 3,600.
    pub timeout: Option<u16>,
    /// How many seconds may pass between two messages of a connection, 1 to 3,600.
    pub idle: Option<u16>,
    /// The address to listen at; only with a port.
    pub listen: Option<Ipv4Addr>,
    /// Root's authorizations; not checked here.
    pub names: Vec<&'a str>,
}

// The number of an optional option.
fn number(matches: &ArgMatches<'_>, id: &str) -> Result<Option<u16>, Fault>
    requires taken { is_among number_options id.now ≡ true }
    ensures ok { IfOk result (λ number. (words : List Text) → IsParsed served_command words matches.now
        → Gives Writes (value_of id.now words) number) }
    ensures err { IfErr result (λ fault. (words : List Text) → IsParsed served_command words matches.now
        → RefusesServedWords words fault) }
{
    match matches.try_get_one::<u16>(id) {
        Ok(number) => Ok(number),
        Err(_) => Err(Fault::BadNumber),
    }
}

// The address of an optional option.
fn address_in(matches: &ArgMatches<'_>, id: &str) -> Result<Option<Ipv4Addr>, Fault>
    requires taken { is_among address_options id.now ≡ true }
    ensures ok { IfOk result (λ address. (words : List Text) → IsParsed served_command words matches.now
        → Gives IsIpv4Text (value_of id.now words) address) }
    ensures err { IfErr result (λ fault. (words : List Text) → IsParsed served_command words matches.now
        → RefusesServedWords words fault) }
{
    match matches.try_get_one::<Ipv4Addr>(id) {
        Ok(address) => Ok(address),
        Err(_) => Err(Fault::BadAddress),
    }
}

// Where the words say that the server listens.
fn bind_address_in<'a>(matches: &ArgMatches<'a>) -> Result<BindAddress<'a>, Fault>
    ensures ok { IfOk result (λ bind_address. (words : List Text) → IsParsed served_command words matches.now
        → GivesBindAddress (value_of (codes "port") words) (file_of (codes "socket") served_command words) bind_address) }
    ensures err { IfErr result (λ fault. (words : List Text) → IsParsed served_command words matches.now
        → RefusesServedWords words fault) }
{
    let port = number(matches, "port")?;
    match matches.get_str("socket") {
        Some(path) => match port {
            Some(_) => Err(Fault::WantsBindAddress),
            None => Ok(BindAddress::Socket(path)),
        },
        None => match port {
            Some(port) => Ok(BindAddress::Port(port)),
            None => Err(Fault::WantsBindAddress),
        },
    }
}

// Refuses words that name an address and no port.
fn check_listen(matches: &ArgMatches<'_>) -> Result<(), Fault>
    ensures ok { OnOk result ((words : List Text) → IsParsed served_command words matches.now
        → WantsWith (codes "listen") (codes "port") words) }
    ensures err { IfErr result (λ fault. (words : List Text) → IsParsed served_command words matches.now
        → RefusesServedWords words fault) }
{
    let Some(_) = matches.get_str("listen") else {
        return Ok(());
    };
    match matches.get_str("port") {
        Some(_) => Ok(()),
        None => Err(Fault::WantsPort),
    }
}

// Refuses words that want a copy and name none.
fn check_copy(matches: &ArgMatches<'_>) -> Result<(), Fault>
    ensures ok { OnOk result ((words : List Text) → IsParsed served_command words matches.now
        → WantsWith (codes "copy-every") (codes "copy") words) }
    ensures err { IfErr result (λ fault. (words : List Text) → IsParsed served_command words matches.now
        → RefusesServedWords words fault) }
{
    let Some(_) = matches.get_str("copy-every") else {
        return Ok(());
    };
    match matches.get_str("copy") {
        Some(_) => Ok(()),
        None => Err(Fault::WantsCopy),
    }
}

// Refuses words that want a file or a port and name none.
fn check_wants(matches: &ArgMatches<'_>) -> Result<(), Fault>
    ensures listen { OnOk result ((words : List Text) → IsParsed served_command words matches.now
        → WantsWith (codes "listen") (codes "port") words) }
    ensures store { OnOk result ((words : List Text) → IsParsed served_command words matches.now
        → NamesItsStore served_command words) }
    ensures copy { OnOk result ((words : List Text) → IsParsed served_command words matches.now
        → WantsWith (codes "copy-every") (codes "copy") words) }
    ensures err { IfErr result (λ fault. (words : List Text) → IsParsed served_command words matches.now
        → RefusesServedWords words fault) }
{
    check_store(matches)?;
    check_listen(matches)?;
    check_copy(matches)
}

impl<'a> ServedArguments<'a> {
    /// Parses a command line, whose first word is the program's own name.
    pub fn read(alloc: Global, words: &'a [String]) -> Result<ServedArguments<'a>, Fault>
        ensures ok { IfOk result (SaysServed (map string_bytes words.now)) }
        ensures err { IfErr result (λ fault. RefusesServedWords (map string_bytes words.now) fault) }
    {
        let matches = parse(alloc, words)?;
        check_wants(&matches)?;
        let Some(digest) = matches.get_str("root") else {
            unreachable!()
        };
        let bind_address = bind_address_in(&matches)?;
        let store = matches.get_str("store");
        let compacts = flag(&matches, "compact");
        let copy = matches.get_str("copy");
        let copy_every = number(&matches, "copy-every")?;
        let connections = number(&matches, "connections")?;
        let workers = number(&matches, "workers")?;
        let timeout = number(&matches, "timeout")?;
        let idle = number(&matches, "idle")?;
        let listen = address_in(&matches, "listen")?;
        let names = matches.get_strs("NAME").unwrap_or(&[]);
        Ok(ServedArguments {
            digest,
            bind_address,
            store,
            compacts,
            copy,
            copy_every,
            connections,
            workers,
            timeout,
            idle,
            listen,
            names: Vec::from_slice(alloc, names)?,
        })
    }

    /// The address to listen at, with a port: 127.0.0.1 without `--listen`.
    pub fn address(&self, port: u16) -> SocketAddrV4
        ensures ip { ListensAt self.now.listen result }
        ensures port { v4_port result ≡ port }
    {
        SocketAddrV4::new(self.listen.unwrap_or(Ipv4Addr::LOCALHOST), port)
    }

    /// How many workers serve, at least one: without `--workers` 2 for a number of connections, and 64 for all that come.
    pub fn worker_count(&self) -> u16
        ensures is { result ≡ workers_of self.now }
        ensures some { 0 < result }
    {
        match (self.workers, self.connections) {
            (Some(number), _) => number.max(1),
            (None, Some(_)) => 2,
            (None, None) => 64,
        }
    }

    /// How long a message may take from its first byte to its last, and so a reply: 30 seconds without `--timeout`.
    pub fn limit(&self) -> Duration
        ensures { as_nanos result ≡ unwrap_or self.now.timeout 30 * 1000000000 }
    {
        Duration::from_secs(u64::from(self.timeout.unwrap_or(SECONDS)))
    }

    /// How long the copy stays behind: 60 seconds without `--copy-every`.
    pub fn copy_period(&self) -> Duration
        ensures { as_nanos result ≡ unwrap_or self.now.copy_every 60 * 1000000000 }
    {
        Duration::from_secs(u64::from(self.copy_every.unwrap_or(COPY_SECONDS)))
    }

    /// How long a client may take to begin its next message: as long as `limit` says without `--idle`.
    pub fn idle_limit(&self) -> Duration
        ensures { as_nanos result ≡ unwrap_or self.now.idle (unwrap_or self.now.timeout 30) * 1000000000 }
    {
        match self.idle {
            Some(seconds) => Duration::from_secs(u64::from(seconds)),
            None => self.limit(),
        }
    }
}
