ghost use Rattle.std.specs.Prelude.{◌≡◌, ◌<◌, ℕ, [], Some, length, IfOk, IsErr, IsTrue};
ghost use Rattle.std.specs.Io.{WritesAtMost};
ghost use Rattle.std.specs.Io.KnownBytes.{WriteAppends};
ghost use Rattle.dnr_base.specs.Faults.{HasCause, next_count};
ghost use Rattle.dnr_base.specs.Plan.{fails_next};

use crate::{Failed, FaultlessSink, Sink};
use dnr_base::Plan;
use std::alloc::Global;
use std::marker::Model;

/// A sink that keeps what it takes, and fails at listed calls.
#[derive(Drop)]
pub struct MemorySink {
    bytes: Vec<u8>,
    inner: FaultlessSink,
    plan: Plan,
}

impl Model for MemorySink {
    ghost use Rattle.dnr_io.specs.Memory.{SinkInMemory};

    ghost Value = { SinkInMemory };

    ghost view = { λ sink. record { taken = sink.bytes.items; plan = sink.plan } };
}

impl MemorySink {
    /// A write takes at most `most` bytes. The writes of the numbers in `failing`, counted from 1, fail,
    /// and so does one for which there is no memory.
    pub fn new(alloc: Global, most: usize, failing: Vec<u64>) -> MemorySink
        requires { 0 < most }
        ensures value { result ≡ record { taken = []; plan = record { failing = failing.items; calls = 0; faults = 0 } } }
        ensures taken { ⟦<MemorySink as Sink>⟧.taken result ≡ Some [] }
        ensures faults { ⟦<MemorySink as Sink>⟧.faults result ≡ 0 }
    {
        MemorySink {
            bytes: Vec::new(alloc),
            inner: FaultlessSink::new(most),
            plan: Plan::new(failing),
        }
    }

    /// The bytes that were taken.
    pub fn bytes(&self) -> &[u8]
        ensures { ⟦<MemorySink as Sink>⟧.taken self.now ≡ Some result.now }
    {
        &self.bytes
    }
}

impl Sink for MemorySink {
    ghost taken = { λ sink. Some sink.taken };

    ghost faults = { λ sink. sink.plan.faults };

    fn faults(&self) -> u64 {
        self.plan.faults()
    }

    fn write(&mut self, piece: &[u8]) -> Result<usize, Failed>
        ensures bound { WritesAtMost result piece.now }
        ensures progress { IfOk result (λ count. 0 < length piece.now → 0 < count) }
        ensures bytes { WriteAppends (Some self.old.taken) (Some self.new.taken) result piece.now }
        ensures cause { HasCause self.old.plan.faults self.new.plan.faults result }
        ensures fails { IsTrue (fails_next self.old.plan) → IsErr result }
        ensures calls { self.new.plan.calls ≡ next_count self.old.plan.calls }
        ensures failing { self.new.plan.failing ≡ self.old.plan.failing }
    {
        if self.plan.fails() {
            return Err(Failed);
        }
        let count = self.inner.write(piece)?;
        if self.bytes.extend_from_slice(&piece[..count]).is_err() {
            self.plan.count_fault();
            return Err(Failed);
        }
        Ok(count)
    }
}
