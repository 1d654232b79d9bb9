//! A fresh service.

use st_core::{Seed, Store};
use st_service::Service;
use std::alloc::{Allocator, Global};

// What the hashes of ids begin with. Any would do.
const SEED: Seed = Seed {
    first: 1,
    second: 2,
};

// The SHA-256 of 32 zero bytes, which are root's secret.
const DIGEST: [u8; 32] = [
    0x66, 0x68, 0x7a, 0xad, 0xf8, 0x62, 0xbd, 0x77, 0x6c, 0x8f, 0xc1, 0x8b, 0x8e, 0x9f, 0x8e, 0x20,
    0x08, 0x97, 0x14, 0x85, 0x6e, 0xe2, 0x33, 0xb3, 0x90, 0x2a, 0x59, 0x1d, 0x0d, 0x5f, 0x29, 0x25,
];

/// A store whose root has the authorizations A, B and C, and a secret of zero bytes.
pub fn store<A: Allocator + Copy>(alloc: A) -> Option<Store<A>> {
    Store::open(alloc, SEED, DIGEST, &["A", "B", "C"]).ok()
}

/// A service over such a store.
pub fn opened<A: Allocator + Copy>(global: Global, alloc: A) -> Option<Service<A>> {
    Service::new(alloc, global, store(alloc)?).ok()
}
