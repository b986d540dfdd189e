ghost use Rattle.std.specs.Prelude.{◌≡◌, ◌<◌, []};
ghost use Rattle.key_table.specs.Hash as spec;

use std::marker::Model;

// Where the hash of FNV-1a begins.
pub(crate) const HASH_START: u64 = 0xcbf2_9ce4_8422_2325;

/// The hash with one byte more.
#[tactic(auto, unfolding(crate::specs::Hash::hash_step))]
pub(crate) fn hash_step(hash: u64, b: u8) -> u64
    ensures { result ≡ spec.hash_step hash b }
{
    (hash ^ u64::from(b)).wrapping_mul(0x0000_0100_0000_01b3)
}

/// The tag of a key of this hash.
#[tactic(auto, unfolding(crate::specs::Hash::hash_end))]
pub(crate) fn hash_end(hash: u64) -> u32
    ensures { result ≡ spec.hash_end hash }
{
    (hash.wrapping_mul(0x9e37_79b9_7f4a_7c15) >> 32) as u32
}

/// The hash of a key whose bytes come one after another. A clause sees the hash.
#[derive(Debug, Drop)]
pub struct KeyHash {
    hash: u64,
}

impl Model for KeyHash {
    ghost use Rattle.std.specs.Prelude.{ℕ};

    ghost Value = { ℕ };

    ghost view = { λ k. k.hash };
}

impl KeyHash {
    /// Of a key without bytes.
    pub fn new() -> KeyHash
        ensures { result ≡ spec.hash_bytes [] }
    {
        KeyHash { hash: HASH_START }
    }

    /// With one byte more.
    pub fn add(&mut self, b: u8)
        ensures { self.new ≡ spec.hash_step self.old b }
    {
        self.hash = hash_step(self.hash, b);
    }

    /// The tag of the key.
    pub fn tag(&self) -> u32
        ensures { result ≡ spec.hash_end self.now }
    {
        hash_end(self.hash)
    }
}

/// The bucket that a tag falls into, of so many.
#[tactic(auto, unfolding(crate::specs::Hash::bucket_of))]
pub fn bucket_of(buckets: u32, tag: u32) -> usize
    requires { 0 < buckets }
    ensures value { result ≡ spec.bucket_of buckets tag }
    ensures within { result < buckets }
{
    ((u64::from(tag) * u64::from(buckets)) >> 32) as usize
}
