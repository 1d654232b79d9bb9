//! What a table's hashes begin with.
ghost use Rattle.std.specs.Prelude.{◌≡◌, ◌^◌, ◌<◌};
ghost use Rattle.st_table.specs.inner.Places.{hash_of, label_hash, name_hash, sip, written};

use std::hash::{DefaultHasher, Hasher};
use std::random::RandomSource;

/// What the hashes of a table's names begin with. A program takes it from the system's randomness, so that nobody can choose names of
/// one hash.
#[derive(Clone, Copy)]
pub struct Seed {
    pub first: u64,
    pub second: u64,
}

impl Seed {
    /// A seed from the system's randomness. Where the system gives none, it is always the same.
    pub fn random(rt: &impl RandomSource) -> Seed {
        let mut bytes = [0; 16];
        let _ = rt.fill_bytes(&mut bytes);
        let number = u128::from_le_bytes(bytes);
        Seed {
            first: (number & 0xFFFF_FFFF_FFFF_FFFF) as u64,
            second: (number >> 64) as u64,
        }
    }

    // SipHash-1-3 of the seed and of these bytes.
    fn sip(self, bytes: &[u8]) -> u64
        ensures { result ≡ sip self bytes.now }
    {
        let mut hasher = DefaultHasher::new();
        hasher.write_u64(self.first);
        hasher.write_u64(self.second);
        hasher.write(bytes);
        hasher.finish()
    }

    // The hash of an id. Those of ids that differ in their last two bytes alone lie near each other, as such ids are often put one
    // after the other, but not in the order in which they are counted up, which would leave the nodes of a map half empty.
    pub(crate) fn hash(self, id: &str) -> u64
        ensures value { result ≡ hash_of self id.now }
        ensures in_range { result < 2 ^ 32 }
    {
        let bytes = id.as_bytes();
        let (front, back) = bytes.split_at(bytes.len().saturating_sub(2));
        ((self.sip(front) >> 32) + number_of(back)) % (1 << 32)
    }

    // The hash of a label.
    fn label_hash(self, label: &str) -> u64
        ensures value { result ≡ label_hash self label.now }
        ensures in_range { result < 2 ^ 15 }
    {
        self.sip(label.as_bytes()) % (1 << 15)
    }

    // The hash of a name.
    pub(crate) fn name_hash(self, id: &str, label: &str) -> u64
        ensures value { result ≡ name_hash self id.now label.now }
        ensures in_range { result < 2 ^ 47 }
    {
        self.hash(id) * (1 << 15) + self.label_hash(label)
    }
}

// The number that the first two bytes write, the last digit first.
fn number_of(bytes: &[u8]) -> u64
    ensures value { result ≡ written bytes.now }
    ensures in_range { result < 2 ^ 16 }
{
    match bytes {
        [first, second, ..] => (*second as u64) * 256 + *first as u64,
        [first] => *first as u64,
        [] => 0,
    }
}
