//! A stop behind each call of the disk.
use crate::fixtures::{ADDS, KEPT, Ran, SCRIPT, TEXTS, TOLD, disk_of, file_of, joined, run};
use dnr_io::Status;
use keep_disk::MemoryDisk;
use std::alloc::Global;
use std::test::Fail;

// Five calls open an empty file; of each of three lines two write the record and two open its gate.
const CALLS: u64 = 17;

// The numbers of all calls behind so many.
fn later(alloc: Global, calls: u64) -> Result<Vec<u64>, Fail> {
    let mut failing = Vec::new(alloc);
    for call in calls..CALLS {
        failing.push(call + 1)?;
    }
    Ok(failing)
}

// How many of the lines a run over an empty file said to be accepted, if it wrote nothing else.
fn said(alloc: Global, ran: &Ran) -> Result<usize, Fail> {
    if ran.written.is_empty() {
        return Ok(0);
    }
    for count in 0..4 {
        if ran.written.as_slice() == joined(alloc, &TOLD[..count + 1])?.as_slice() {
            return Ok(count);
        }
    }
    Err("another text is written".into())
}

// How many of the lines a file keeps.
fn kept(alloc: Global, disk: &mut MemoryDisk) -> Result<usize, Fail> {
    let ran = run(alloc, disk, "")?;
    for count in 0..4 {
        if ran.status == Status::Done && ran.written.as_slice() == KEPT[count].as_bytes() {
            return Ok(count);
        }
    }
    Err("a file is refused".into())
}

// Whether the script leaves the file of all its lines, which has some of them.
fn goes_on(alloc: Global, disk: &mut MemoryDisk) -> Result<bool, Fail> {
    let ran = run(alloc, disk, SCRIPT)?;
    let whole = file_of(alloc, &TEXTS)?;
    Ok(ran.status == Status::Done && disk.bytes() == whole.as_slice())
}

#[test]
fn an_update_is_there_in_the_next_run(rt: HostRuntime) -> Result<(), Fail> {
    let alloc = rt.alloc();
    let mut disk = disk_of(alloc, b"")?;
    let first = run(alloc, &mut disk, ADDS)?;
    assert!(rt; first.status == Status::Done);
    assert!(rt;
        first.written.as_slice() == b"{\"kept\":0}\n{\"line\":1,\"accepted\":1}\n".as_slice()
    );
    let second = run(alloc, &mut disk, ADDS)?;
    assert!(rt; second.status == Status::Done);
    assert!(rt;
        second.written.as_slice()
            == b"{\"kept\":1}\n{\"line\":1,\"refused\":\"duplicate-id\",\"id\":1}\n".as_slice()
    );
    Ok(())
}

#[test]
fn what_was_said_is_kept_wherever_the_disk_stops(rt: HostRuntime) -> Result<(), Fail> {
    let alloc = rt.alloc();
    for calls in 0..CALLS + 1 {
        let mut disk = MemoryDisk::new(alloc, b"", later(alloc, calls)?)?;
        let ran = run(alloc, &mut disk, SCRIPT)?;
        let said = said(alloc, &ran)?;
        let ended = if calls == CALLS {
            Status::Done
        } else {
            Status::DiskFault
        };
        assert!(rt; ran.status == ended, "{calls}");
        assert!(rt; (said == 3) == (calls == CALLS), "{calls}");
        for image in disk.images()? {
            let mut image = image;
            let kept = kept(alloc, &mut image)?;
            assert!(rt; said <= kept && kept - said <= 1, "{calls}");
            assert!(rt; goes_on(alloc, &mut image)?, "{calls}");
        }
    }
    Ok(())
}

#[test]
fn a_call_that_fails_once_loses_nothing(rt: HostRuntime) -> Result<(), Fail> {
    let alloc = rt.alloc();
    for call in 1..CALLS + 1 {
        let mut disk = MemoryDisk::new(alloc, b"", vec![in alloc; call]?)?;
        let ran = run(alloc, &mut disk, SCRIPT)?;
        assert!(rt; ran.status == Status::DiskFault, "{call}");
        let said = said(alloc, &ran)?;
        let kept = kept(alloc, &mut disk)?;
        assert!(rt; said <= kept && kept - said <= 1, "{call}");
        assert!(rt; goes_on(alloc, &mut disk)?, "{call}");
    }
    Ok(())
}
