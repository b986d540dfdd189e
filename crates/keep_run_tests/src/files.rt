//! The bytes of a file: what is written, what is read of a file that was cut or changed, and what is refused.
use crate::fixtures::{KEPT, SCRIPT, TEXTS, disk_of, file_of, joined, run, run_by};
use dnr_io::Status;
use regex_host::{ListHost, PackHost};
use std::alloc::Global;
use std::test::Fail;

// Where the records of the file of all lines end.
fn ends(alloc: Global) -> Result<Vec<usize>, Fail> {
    let mut ends = Vec::new(alloc);
    let mut end = 0_usize;
    for text in TEXTS {
        end = end.saturating_add(text.len()).saturating_add(5);
        ends.push(end)?;
    }
    Ok(ends)
}

#[test]
fn a_file_has_the_text_of_its_updates(rt: HostRuntime) -> Result<(), Fail> {
    let alloc = rt.alloc();
    let mut disk = disk_of(alloc, b"")?;
    let ran = run(alloc, &mut disk, SCRIPT)?;
    assert!(rt; ran.status == Status::Done);
    assert!(rt; disk.bytes() == file_of(alloc, &TEXTS)?.as_slice());
    Ok(())
}

#[test]
fn a_file_that_is_cut_keeps_its_whole_records(rt: HostRuntime) -> Result<(), Fail> {
    let alloc = rt.alloc();
    let file = file_of(alloc, &TEXTS)?;
    let ends = ends(alloc)?;
    for count in 0..file.len() + 1 {
        let mut disk = disk_of(alloc, &file[..count])?;
        // Behind each record stands the next gate byte.
        let whole = ends.iter().filter(|end| **end < count).count();
        let ran = run(alloc, &mut disk, SCRIPT)?;
        assert!(rt; ran.status == Status::Done, "{count}");
        let kept = KEPT.get(whole).unwrap_or(&"").as_bytes();
        assert!(rt; ran.written.as_slice().starts_with(kept), "{count}");
        assert!(rt; disk.bytes() == file.as_slice(), "{count}");
    }
    Ok(())
}

// How many lines a file keeps whose byte at a place of its last record is turned, unless that record is refused. It begins
// there and has a payload of so many bytes, fewer than 128.
fn kept_of(start: usize, payload: usize, place: usize) -> Option<usize> {
    if place <= start.saturating_add(4) {
        return Some(2);
    }
    if place == start.saturating_add(5).saturating_add(payload) {
        return Some(3);
    }
    None
}

#[test]
fn a_byte_that_is_turned_loses_no_earlier_record(rt: HostRuntime) -> Result<(), Fail> {
    let alloc = rt.alloc();
    let last = "{\"cmd\":\"dynamic\",\"extension\":\"a\"}";
    let file = file_of(alloc, &[TEXTS[0], TEXTS[1], last])?;
    let start = ends(alloc)?.get(1).copied().unwrap_or(0);
    let refused = format!(in alloc;
        "{{\"file\":\"k\",\"refused\":\"bad-record\",\"offset\":{start}}}\n"
    )?;
    for place in start..file.len() {
        let mut bytes = file.as_slice().to_vec(alloc)?;
        bytes[place] = 255 - bytes[place];
        let mut disk = disk_of(alloc, &bytes)?;
        let ran = run(alloc, &mut disk, "")?;
        match kept_of(start, last.len(), place) {
            Some(count) => {
                assert!(rt; ran.status == Status::Done, "{place}");
                let kept = KEPT.get(count).unwrap_or(&"").as_bytes();
                assert!(rt; ran.written.as_slice() == kept, "{place}");
            }
            None => {
                assert!(rt; ran.status == Status::Refused, "{place}");
                assert!(rt; ran.written.as_slice() == refused.as_bytes(), "{place}");
                assert!(rt; disk.bytes() == bytes.as_slice(), "{place}");
            }
        }
    }
    Ok(())
}

#[test]
fn a_host_that_fails_is_told(rt: HostRuntime) -> Result<(), Fail> {
    let alloc = rt.alloc();
    let file = file_of(alloc, &TEXTS)?;
    let mut disk = disk_of(alloc, &file)?;
    let mut host = ListHost::new(alloc, PackHost::new(alloc)?, vec![in alloc; 1]?);
    let ran = run_by(alloc, &mut disk, SCRIPT, &mut host)?;
    assert!(rt; ran.status == Status::Refused);
    let refused = b"{\"file\":\"k\",\"refused\":\"pattern-host\"}\n";
    assert!(rt; ran.written.as_slice() == refused.as_slice());
    assert!(rt; disk.bytes() == file.as_slice());
    let again = run(alloc, &mut disk, "")?;
    assert!(rt; again.written.as_slice() == joined(alloc, &[KEPT[3]])?.as_slice());
    Ok(())
}
