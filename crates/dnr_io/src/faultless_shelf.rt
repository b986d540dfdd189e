ghost use Rattle.std.specs.Prelude.{◌≡◌, ◌<◌, Some, []};
ghost use Rattle.dnr_io.specs.Files.{held_or_empty};

use crate::files::{OpenFiles, hand_over};
use crate::{Failed, MemoryFile, Shelf, ShelfRefusal, Source};
use std::marker::Model;

/// Files in memory, as a shelf that never fails: a name that was not given holds no bytes.
#[derive(Drop)]
pub struct FaultlessShelf {
    inner: OpenFiles,
}

impl Model for FaultlessShelf {
    ghost use Rattle.dnr_io.specs.Files.{OpenFiles};

    ghost Value = { OpenFiles };

    ghost view = { λ shelf. shelf.inner };
}

impl FaultlessShelf {
    /// A read gives at most `most` bytes. Of files that share a name the first counts.
    pub fn new(files: Vec<MemoryFile>, most: usize) -> FaultlessShelf
        requires { 0 < most }
        ensures files { ⟦<FaultlessShelf as Source>⟧.files result ≡ Some (held_or_empty files.items) }
        ensures left { ⟦<FaultlessShelf as Source>⟧.left result ≡ Some [] }
        ensures starts { ⟦<FaultlessShelf as Source>⟧.starts result ≡ 0 }
    {
        FaultlessShelf {
            inner: OpenFiles::new(files, most),
        }
    }
}

impl Source for FaultlessShelf {
    ghost left = { λ shelf. Some shelf.left };

    ghost files = { λ shelf. Some (held_or_empty shelf.files) };

    ghost starts = { λ shelf. shelf.starts };

    ghost faults = { λ _. 0 };

    fn faults(&self) -> u64 {
        0
    }

    fn read(&mut self, buf: &mut [u8]) -> Result<usize, Failed> {
        Ok(self.inner.read(buf))
    }
}

impl Shelf for FaultlessShelf {
    fn fetch(&mut self, name: &str, limit: u64, into: &mut Vec<u8>) -> Result<(), ShelfRefusal> {
        let bytes = self.inner.held(name).unwrap_or(&[]);
        hand_over(bytes, limit, into)
    }

    fn start(&mut self, name: &str) -> Result<(), Failed> {
        self.inner.start_or_end(name);
        Ok(())
    }
}
