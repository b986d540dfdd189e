ghost use Rattle.std.specs.Prelude.{◌≡◌, ◌<◌, Some, []};
ghost use Rattle.dnr_io.specs.Files.{held_in};

use crate::files::{OpenFiles, hand_over};
use crate::{Failed, MemoryFile, Shelf, ShelfRefusal, Source};
use dnr_base::Plan;
use std::marker::Model;

/// Files in memory, as a shelf that fails at listed calls and at a name that was not given.
#[derive(Drop)]
pub struct MemoryShelf {
    inner: OpenFiles,
    plan: Plan,
}

impl Model for MemoryShelf {
    ghost use Rattle.dnr_io.specs.Memory.{ShelfInMemory};

    ghost Value = { ShelfInMemory };

    ghost view = { λ shelf. record { files = shelf.inner.files; left = shelf.inner.left; starts = shelf.inner.starts; plan = shelf.plan } };
}

impl MemoryShelf {
    /// A read gives at most `most` bytes. Of files that share a name the first counts. The calls of
    /// `fetch`, `start` and `read` are counted together, from 1, and those of the numbers in `failing`
    /// fail.
    pub fn new(files: Vec<MemoryFile>, most: usize, failing: Vec<u64>) -> MemoryShelf
        requires { 0 < most }
        ensures value { result ≡ record { files = files.items; left = []; starts = 0; plan = record { failing = failing.items; calls = 0; faults = 0 } } }
        ensures files { ⟦<MemoryShelf as Source>⟧.files result ≡ Some (held_in files.items) }
        ensures left { ⟦<MemoryShelf as Source>⟧.left result ≡ Some [] }
        ensures starts { ⟦<MemoryShelf as Source>⟧.starts result ≡ 0 }
        ensures faults { ⟦<MemoryShelf as Source>⟧.faults result ≡ 0 }
    {
        MemoryShelf {
            inner: OpenFiles::new(files, most),
            plan: Plan::new(failing),
        }
    }
}

impl Source for MemoryShelf {
    ghost left = { λ shelf. Some shelf.left };

    ghost files = { λ shelf. Some (held_in shelf.files) };

    ghost starts = { λ shelf. shelf.starts };

    ghost faults = { λ shelf. shelf.plan.faults };

    fn faults(&self) -> u64 {
        self.plan.faults()
    }

    fn read(&mut self, buf: &mut [u8]) -> Result<usize, Failed> {
        if self.plan.fails() {
            return Err(Failed);
        }
        Ok(self.inner.read(buf))
    }
}

impl Shelf for MemoryShelf {
    fn fetch(&mut self, name: &str, limit: u64, into: &mut Vec<u8>) -> Result<(), ShelfRefusal> {
        into.clear();
        if self.plan.fails() {
            return Err(ShelfRefusal::Failed);
        }
        let Some(bytes) = self.inner.held(name) else {
            self.plan.count_fault();
            return Err(ShelfRefusal::Failed);
        };
        hand_over(bytes, limit, into)
    }

    fn start(&mut self, name: &str) -> Result<(), Failed> {
        if self.plan.fails() {
            return Err(Failed);
        }
        if !self.inner.start(name) {
            self.plan.count_fault();
            return Err(Failed);
        }
        Ok(())
    }
}
