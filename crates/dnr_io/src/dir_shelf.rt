ghost use Rattle.std.specs.Prelude.{◌≡◌, ◌≤◌, None, length, OnOk};
ghost use Rattle.std.specs.Io.{ReadsAtMost};

use crate::{Failed, Shelf, ShelfRefusal, Source};
use dnr_base::count_fault;
use std::fs;
use std::io::{ErrorKind, Read};
use std::marker::Model;
use std::rt::Files;

/// The files under the current folder. It tells nothing of what they hold.
#[derive(Drop)]
pub struct DirShelf<'a, R: Files> {
    rt: &'a R,
    reading: Option<R::File>,
    faults: u64,
    starts: u64,
}

impl<'a, R: Files> Model for DirShelf<'a, R> {
    ghost use Rattle.dnr_io.specs.Shelf.{ShelfCounts};

    ghost Value = { ShelfCounts };

    ghost view = { λ shelf. record { faults = shelf.faults; starts = shelf.starts } };
}

impl<'a, R: Files> DirShelf<'a, R> {
    /// The shelf of the folder that the program runs in.
    pub fn new(rt: &'a R) -> DirShelf<'a, R>
        ensures faults { ⟦<DirShelf<'a, R> as Source>⟧.faults result ≡ 0 }
        ensures starts { ⟦<DirShelf<'a, R> as Source>⟧.starts result ≡ 0 }
    {
        DirShelf {
            rt,
            reading: None,
            faults: 0,
            starts: 0,
        }
    }
}

impl<'a, R: Files> Source for DirShelf<'a, R> {
    ghost left = { λ _. None };

    ghost starts = { λ shelf. shelf.starts };

    ghost faults = { λ shelf. shelf.faults };

    fn faults(&self) -> u64 {
        self.faults
    }

    fn read(&mut self, buf: &mut [u8]) -> Result<usize, Failed> {
        let Some(file) = &mut self.reading else {
            return Ok(0);
        };
        let Ok(count) = read_some(file, buf) else {
            count_fault(&mut self.faults);
            return Err(Failed);
        };
        Ok(count)
    }
}

impl<'a, R: Files> Shelf for DirShelf<'a, R> {
    fn fetch(&mut self, name: &str, limit: u64, into: &mut Vec<u8>) -> Result<(), ShelfRefusal> {
        let result = read_within(self.rt, name, limit, into);
        if result.is_err() {
            into.clear();
        }
        if result == Err(ShelfRefusal::Failed) {
            count_fault(&mut self.faults);
        }
        result
    }

    fn start(&mut self, name: &str) -> Result<(), Failed> {
        let Ok(file) = fs::open(self.rt, name) else {
            count_fault(&mut self.faults);
            return Err(Failed);
        };
        self.reading = Some(file);
        self.starts = self.starts.saturating_add(1);
        Ok(())
    }
}

/// One read, tried again where a signal interrupts it.
pub fn read_some<R: Read>(reader: &mut R, buf: &mut [u8]) -> Result<usize, Failed>
    ensures { ReadsAtMost result buf.new }
{
    for _ in 0..u64::MAX {
        match reader.read(buf) {
            Ok(count) => return Ok(count),
            Err(error) if error.kind() == ErrorKind::Interrupted => {}
            Err(_) => return Err(Failed),
        }
    }
    Err(Failed)
}

// Reads at most one byte past the limit, so that a file without an end is refused too.
fn read_within<R: Files>(
    rt: &R,
    name: &str,
    limit: u64,
    into: &mut Vec<u8>,
) -> Result<(), ShelfRefusal>
    ensures { OnOk result (length into.new.items ≤ limit) }
{
    into.clear();
    let Ok(file) = fs::open(rt, name) else {
        return Err(ShelfRefusal::Failed);
    };
    match file.take(limit.saturating_add(1)).read_to_end(into) {
        Ok(_) if into.len() as u64 <= limit => Ok(()),
        Ok(_) => Err(ShelfRefusal::TooLong),
        Err(error) if error.kind() == ErrorKind::OutOfMemory => Err(ShelfRefusal::NoMemory),
        Err(_) => Err(ShelfRefusal::Failed),
    }
}
