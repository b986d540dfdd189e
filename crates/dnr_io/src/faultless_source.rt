ghost use Rattle.std.specs.Prelude.{◌≡◌, ◌<◌, ◌≤◌, Some, drop, take, min, length, vec_len};

use crate::{Failed, Source};
use std::marker::Model;

/// Bytes in memory, as a source that never fails.
#[derive(Drop)]
pub struct FaultlessSource {
    bytes: Vec<u8>,
    at: usize,
    most: usize,
}

impl Model for FaultlessSource {
    ghost use Rattle.std.specs.Prelude.{ℕ, List, drop, ◌≤◌, ◌<◌, vec_len};

    ghost Value = { List ℕ };

    ghost view = { λ source. drop source.at source.bytes.items };

    ghost invariant = { λ source. (source.at ≤ vec_len source.bytes) × (0 < source.most) };
}

impl FaultlessSource {
    /// A read gives at most `most` bytes.
    pub fn new(bytes: Vec<u8>, most: usize) -> FaultlessSource
        requires { 0 < most }
        ensures { ⟦<FaultlessSource as Source>⟧.left result ≡ Some bytes.items }
    {
        FaultlessSource { bytes, at: 0, most }
    }
}

impl Source for FaultlessSource {
    ghost left = { λ left. Some left };

    ghost faults = { λ _. 0 };

    fn faults(&self) -> u64 {
        0
    }

    fn read(&mut self, buf: &mut [u8]) -> Result<usize, Failed> {
        let count = copy_front(&self.bytes[self.at..], buf, self.most);
        self.at += count;
        Ok(count)
    }
}

/// Copies as many first bytes as there are and as fit, at most `most`, and says how many.
pub fn copy_front(from: &[u8], to: &mut [u8], most: usize) -> usize
    ensures count { result ≡ min most (min (length from.now) (length to.old)) }
    ensures front { take result to.new ≡ take result from.now }
{
    let count = most.min(from.len()).min(to.len());
    to[..count].copy_from_slice(&from[..count]);
    count
}
