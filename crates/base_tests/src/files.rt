//! Each form of a source, a shelf and a sink once, and calls that the system interrupts.
ghost use Rattle.std.specs.Prelude.{◌≡◌, ℕ, List, IfOk};

use dnr_io::{
    DirShelf, Failed, FaultlessShelf, FaultlessSink, FaultlessSource, Lines, MemoryFile,
    MemoryShelf, MemorySink, MemorySource, Output, Shelf, ShelfRefusal, Sink, Source, read_lines,
    read_some, write_all, write_some,
};
use std::alloc::{AllocError, Global};
use std::fs;
use std::io::{Error, ErrorKind, Read, Write};
use std::test::Fail;

#[test]
fn lines_live_until_the_end(rt: HostRuntime) -> Result<(), Fail> {
    let alloc = rt.alloc();
    let mut source = FaultlessSource::new(Vec::from_slice(alloc, b"one\r\n")?, 2);
    let mut line = Vec::new(alloc);
    let mut lines = Lines::new(alloc)?;
    assert!(rt; lines.next(&mut source, &mut line) == Ok(true));
    assert!(rt; line.as_slice() == b"one".as_slice() && lines.live());
    assert!(rt; lines.next(&mut source, &mut line) == Ok(false));
    assert!(rt; !lines.live());
    Ok(())
}

#[test]
fn a_failed_read_ends_the_lines(rt: HostRuntime) -> Result<(), Fail> {
    let alloc = rt.alloc();
    for failing in 1..5 {
        let bytes = Vec::from_slice(alloc, b"one\ntwo\n")?;
        let mut source = MemorySource::new(bytes, 4, vec![in alloc; failing]?);
        let fails = read_lines(alloc, &mut source).is_err();
        assert!(rt; fails == (failing < 4), "at read {failing}");
        assert!(rt; source.faults() == u64::from(fails), "at read {failing}");
    }
    Ok(())
}

#[test]
fn a_source_is_not_read_behind_its_end(rt: HostRuntime) -> Result<(), Fail> {
    let alloc = rt.alloc();
    let bytes = Vec::from_slice(alloc, b"one\ntwo")?;
    let mut source = MemorySource::new(bytes, 8, vec![in alloc; 3]?);
    let lines = read_lines(alloc, &mut source).ok().ok_or("not read")?;
    assert!(rt; lines.len() == 2 && source.faults() == 0);
    Ok(())
}

#[test]
fn a_failed_write_leaves_what_was_taken_before(rt: HostRuntime) -> Result<(), Fail> {
    let alloc = rt.alloc();
    let mut sink = MemorySink::new(alloc, 4, vec![in alloc; 3]?);
    assert!(rt; write_all(&mut sink, b"some bytes") == Err(Failed));
    assert!(rt; sink.bytes() == b"some byt".as_slice() && sink.faults() == 1);
    assert!(rt; write_all(&mut sink, b"es") == Ok(()));
    assert!(rt; write_all(&mut FaultlessSink::new(1), b"some bytes") == Ok(()));
    Ok(())
}

// One file, `rules/easy.json`.
fn files(alloc: Global) -> Result<Vec<MemoryFile>, AllocError> {
    let name = String::from_str(alloc, "rules/easy.json")?;
    let bytes = Vec::from_slice(alloc, b"[1, 2]")?;
    let mut files = Vec::new(alloc);
    files.push(MemoryFile::new(name, bytes))?;
    Ok(files)
}

// How many lines a name of the shelf has.
fn count<F: Shelf>(alloc: Global, shelf: &mut F, name: &str) -> Option<usize>
    requires { F.allows name.now }
{
    shelf.start(name).ok()?;
    Some(read_lines(alloc, shelf).ok()?.len())
}

// How many bytes a shelf hands over.
fn fetched<F: Shelf>(
    alloc: Global,
    shelf: &mut F,
    name: &str,
    limit: u64,
) -> Result<usize, ShelfRefusal>
    requires { F.allows name.now }
{
    let mut bytes = Vec::new(alloc);
    shelf.fetch(name, limit, &mut bytes)?;
    Ok(bytes.len())
}

// What every shelf says of its one file and of a name without a file.
fn is_shelf<F: Shelf>(alloc: Global, shelf: &mut F) -> bool
    requires { (name : List ℕ) → F.allows name }
{
    fetched(alloc, shelf, "rules/easy.json", 6) == Ok(6)
        && fetched(alloc, shelf, "rules/easy.json", 5) == Err(ShelfRefusal::TooLong)
        && fetched(alloc, shelf, "rules/hard.json", 7) == Err(ShelfRefusal::Failed)
        && count(alloc, shelf, "rules/easy.json") == Some(1)
        && count(alloc, shelf, "rules/hard.json").is_none()
        && shelf.faults() == 2
}

#[test]
fn a_shelf_in_memory_gives_its_files(rt: HostRuntime) -> Result<(), Fail> {
    let alloc = rt.alloc();
    let mut shelf = MemoryShelf::new(files(alloc)?, 4, vec![in alloc; 0]?);
    assert!(rt; is_shelf(alloc, &mut shelf));
    let mut shelf = FaultlessShelf::new(files(alloc)?, 4);
    assert!(rt; count(alloc, &mut shelf, "rules/easy.json") == Some(1));
    assert!(rt; fetched(alloc, &mut shelf, "rules/hard.json", 0) == Ok(0));
    Ok(())
}

#[test]
fn files_are_read_under_the_current_folder(rt: HostRuntime) -> Result<(), Fail> {
    fs::create_dir(&rt, "rules")?;
    fs::write(&rt, "rules/easy.json", "[1, 2]")?;
    let mut shelf = DirShelf::new(&rt);
    assert!(rt; is_shelf(rt.alloc(), &mut shelf));
    assert!(rt; count(rt.alloc(), &mut shelf, "rules").is_none());
    fs::remove_dir_all(&rt, "rules")?;
    Ok(())
}

#[test]
fn a_writer_that_takes_nothing_is_a_fault(rt: HostRuntime) {
    let mut output = Output::new(rt.stdout());
    assert!(rt; write_all(&mut output, b"some bytes\n") == Ok(()));
    let mut room = [0; 4];
    let mut output = Output::new(room.as_mut_slice());
    assert!(rt; write_all(&mut output, b"some bytes\n") == Err(Failed));
    assert!(rt; output.faults() == 1);
}

// A reader and writer that moves nothing, of which the first calls are interrupted.
#[derive(Drop)]
struct Interrupted {
    left: u8,
}

impl Interrupted {
    fn moved(&mut self) -> std::io::Result<usize>
        ensures { IfOk result (λ count. count ≡ 0) }
    {
        if 0 < self.left {
            self.left -= 1;
            return Err(Error::from(ErrorKind::Interrupted));
        }
        Ok(0)
    }
}

impl Read for Interrupted {
    fn read(&mut self, _buf: &mut [u8]) -> std::io::Result<usize> {
        self.moved()
    }
}

impl Write for Interrupted {
    fn write(&mut self, _piece: &[u8]) -> std::io::Result<usize> {
        self.moved()
    }

    fn flush(&mut self) -> std::io::Result<()> {
        Ok(())
    }
}

#[test]
fn an_interrupted_call_is_tried_again(rt: HostRuntime) {
    for left in [0, 1, 5] {
        let mut interrupted = Interrupted { left };
        assert!(rt; read_some(&mut interrupted, &mut [0; 4]) == Ok(0));
        let mut interrupted = Interrupted { left };
        assert!(rt; write_some(&mut interrupted, b"some") == Ok(0));
    }
}
