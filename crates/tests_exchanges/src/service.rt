//! A service that is asked over connections, one after another.

use crate::fault::Fault;
use st_auth::AuthsFault;
use st_core::{Seed, Store};
use st_service::{Ended, FromRead, FromWrite, IoFault, Service};
use std::alloc::Global;

// What the hashes of ids begin with. Any would do.
const SEED: Seed = Seed {
    first: 1,
    second: 2,
};

// The SHA-256 of 32 zero bytes, which are root's secret.
const DIGEST: [u8; 32] = [
    0x66, 0x68, 0x7a, 0xad, 0xf8, 0x62, 0xbd, 0x77, 0x6c, 0x8f, 0xc1, 0x8b, 0x8e, 0x9f, 0x8e, 0x20,
    0x08, 0x97, 0x14, 0x85, 0x6e, 0xe2, 0x33, 0xb3, 0x90, 0x2a, 0x59, 0x1d, 0x0d, 0x5f, 0x29, 0x25,
];

/// A fresh service, whose root has these authorizations, with a space between each and the next.
pub fn opened(alloc: Global, names: &str) -> Result<Service, Fault> {
    let names: Vec<&str> = names.split_whitespace().collect(alloc)?;
    match Store::open(alloc, SEED, DIGEST, names.as_slice()) {
        Ok(store) => Ok(Service::new(alloc, alloc, store)?),
        Err(AuthsFault::BadName { .. }) => Err(Fault::BadName),
        Err(AuthsFault::NoMemory) => Err(Fault::NoMemory),
    }
}

// What is written of how a connection ended. Nothing, where its input ended between messages.
fn end_of(ended: Result<Ended, IoFault>) -> &'static str {
    match ended {
        Ok(Ended::Clean) => "",
        Ok(Ended::Closed) => "closed\n",
        Ok(Ended::Cut) => "cut\n",
        Ok(Ended::TurnsSpent) => "turns spent\n",
        Ok(Ended::Lost) => "lost\n",
        Err(IoFault { .. }) => "failed\n",
    }
}

/// Serves a connection of this input. Gives what was written, a line's end, and how the connection ended.
pub fn answers_of(alloc: Global, service: &mut Service, input: &[u8]) -> Result<Vec<u8>, Fault> {
    let mut reader = FromRead::new(input);
    let mut writer = FromWrite::new(Vec::new(alloc));
    let ended = service.serve(&mut reader, &mut writer);
    let mut told = writer.into_inner();
    told.push(b'\n')?;
    told.extend_from_slice(end_of(ended).as_bytes())?;
    Ok(told)
}
