ghost use Rattle.std.specs.Prelude.{◌≡◌, ◌<◌, Some, is_some, IsErr, IsTrue, ◌↔◌};
ghost use Rattle.std.specs.Io.{ReadsAtMost};
ghost use Rattle.std.specs.Io.KnownBytes.{ReadConsumes};
ghost use Rattle.dnr_base.specs.Faults.{HasCause};
ghost use Rattle.dnr_base.specs.Plan.{fails_next, after_call};

use crate::{Failed, FaultlessSource, Source};
use dnr_base::Plan;
use std::marker::Model;

/// Bytes in memory, as a source that fails at listed calls.
#[derive(Drop)]
pub struct MemorySource {
    inner: FaultlessSource,
    plan: Plan,
}

impl Model for MemorySource {
    ghost use Rattle.dnr_io.specs.Memory.{SourceInMemory};

    ghost Value = { SourceInMemory };

    ghost view = { λ source. record { left = source.inner; plan = source.plan } };
}

impl MemorySource {
    /// A read gives at most `most` bytes. The reads of the numbers in `failing`, counted from 1, fail.
    pub fn new(bytes: Vec<u8>, most: usize, failing: Vec<u64>) -> MemorySource
        requires { 0 < most }
        ensures value { result ≡ record { left = bytes.items; plan = record { failing = failing.items; calls = 0; faults = 0 } } }
        ensures left { ⟦<MemorySource as Source>⟧.left result ≡ Some bytes.items }
        ensures faults { ⟦<MemorySource as Source>⟧.faults result ≡ 0 }
    {
        MemorySource {
            inner: FaultlessSource::new(bytes, most),
            plan: Plan::new(failing),
        }
    }
}

impl Source for MemorySource {
    ghost left = { λ source. Some source.left };

    ghost faults = { λ source. source.plan.faults };

    fn faults(&self) -> u64 {
        self.plan.faults()
    }

    fn read(&mut self, buf: &mut [u8]) -> Result<usize, Failed>
        ensures bound { ReadsAtMost result buf.new }
        ensures bytes { ReadConsumes (Some self.old.left) (Some self.new.left) result buf.new }
        ensures cause { HasCause self.old.plan.faults self.new.plan.faults result }
        ensures fails { IsErr result ↔ IsTrue (fails_next self.old.plan) }
        ensures plan { self.new.plan ≡ after_call self.old.plan }
    {
        if self.plan.fails() {
            return Err(Failed);
        }
        self.inner.read(buf)
    }
}
