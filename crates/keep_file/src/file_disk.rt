ghost use Rattle.std.specs.Prelude.{◌≡◌};
ghost use Rattle.dnr_base.specs.Faults.{HasCause};

use crate::open::opened;
use dnr_base::count_fault;
use keep_disk::{Disk, Failed};
use std::fs::OpenFile;
use std::io;
use std::io::{Read, Seek, SeekFrom, Write};
use std::marker::Model;
use std::rt::Files;

/// A file as a disk. It tells nothing of what it holds: that a real file is a disk as the trait says is trusted.
///
/// The file is opened at the first call, and made where there is none. Where neither can be done each call fails. Nothing
/// else should write it meanwhile.
#[derive(Drop)]
pub struct FileDisk<'a, R: Files> {
    rt: &'a R,
    path: &'a str,
    file: Option<R::File>,
    faults: u64,
}

impl<'a, R: Files> Model for FileDisk<'a, R> {
    ghost use Rattle.std.specs.Prelude.{ℕ};

    ghost Value = { ℕ };

    ghost view = { λ disk. disk.faults };
}

impl<'a, R: Files> FileDisk<'a, R> {
    /// The file of this path, which is not opened yet.
    pub fn new(rt: &'a R, path: &'a str) -> FileDisk<'a, R>
        ensures { ⟦<FileDisk<'a, R> as Disk>⟧.faults result ≡ 0 }
    {
        FileDisk {
            rt,
            path,
            file: None,
            faults: 0,
        }
    }
}

impl<'a, R: Files> Disk for FileDisk<'a, R> {
    ghost use Rattle.std.specs.Prelude.{false, []};
    ghost use Rattle.keep_file.specs.Laws.{tells_nothing};

    ghost tells = { λ _. false };

    ghost seen = { λ _. [] };

    ghost images = { λ _ _. ⊥ };

    ghost moment = { λ _. 0 };

    ghost left_since = { λ _ _ _. ⊥ };

    ghost faults = { λ faults. faults };

    fn faults(&self) -> u64 {
        self.faults
    }

    fn length(&mut self) -> Result<u64, Failed> {
        let result = length_of(self.rt, self.path, &mut self.file);
        counted(&mut self.faults, result)
    }

    fn read_at(&mut self, at: u64, buf: &mut [u8]) -> Result<(), Failed> {
        let result = read_from(self.rt, self.path, &mut self.file, at, buf);
        counted(&mut self.faults, result)
    }

    fn write_at(&mut self, at: u64, bytes: &[u8]) -> Result<(), Failed> {
        let result = write_to(self.rt, self.path, &mut self.file, at, bytes);
        counted(&mut self.faults, result)
    }

    fn cut(&mut self, length: u64) -> Result<(), Failed> {
        let result = cut_to(self.rt, self.path, &mut self.file, length);
        counted(&mut self.faults, result)
    }

    fn sync(&mut self) -> Result<(), Failed> {
        let result = sync_data(self.rt, self.path, &mut self.file);
        counted(&mut self.faults, result)
    }

    ghost seen_is_image = { λ disk told. tells_nothing told };

    ghost counts_now = { λ disk t image le now. now };

    ghost only_now = { λ disk image left. left };
}

// What a call answers, with a count of faults that rises where it failed.
fn counted<T: Drop>(faults: &mut u64, given: io::Result<T>) -> Result<T, Failed>
    ensures { HasCause faults.old faults.new result }
{
    match given {
        Ok(value) => Ok(value),
        Err(_) => {
            count_fault(faults);
            Err(Failed)
        }
    }
}

fn length_of<R: Files>(rt: &R, path: &str, file: &mut Option<R::File>) -> io::Result<u64> {
    Ok(opened(rt, path, file)?.metadata()?.len())
}

fn read_from<R: Files>(
    rt: &R,
    path: &str,
    file: &mut Option<R::File>,
    at: u64,
    buf: &mut [u8],
) -> io::Result<()> {
    let file = opened(rt, path, file)?;
    file.seek(SeekFrom::Start(at))?;
    file.read_exact(buf)
}

fn write_to<R: Files>(
    rt: &R,
    path: &str,
    file: &mut Option<R::File>,
    at: u64,
    bytes: &[u8],
) -> io::Result<()> {
    let file = opened(rt, path, file)?;
    file.seek(SeekFrom::Start(at))?;
    file.write_all(bytes)
}

fn cut_to<R: Files>(rt: &R, path: &str, file: &mut Option<R::File>, length: u64) -> io::Result<()> {
    let file = opened(rt, path, file)?;
    if file.metadata()?.len() > length {
        file.set_len(length)?;
    }
    Ok(())
}

// (the file's length is brought to the disk with its bytes)
fn sync_data<R: Files>(rt: &R, path: &str, file: &mut Option<R::File>) -> io::Result<()> {
    opened(rt, path, file)?.sync_data()
}
