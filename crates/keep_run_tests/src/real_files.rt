//! A file of the file system as a disk.
use keep_file::{Disk, Failed, FileDisk};
use std::fs;
use std::test::Fail;

#[test]
fn a_file_is_made_written_cut_and_read(rt: HostRuntime) -> Result<(), Fail> {
    let mut disk = FileDisk::new(&rt, "k");
    assert!(rt; disk.length() == Ok(0));
    assert!(rt; disk.write_at(0, b"abc").is_ok());
    assert!(rt; disk.write_at(1, b"xyz").is_ok());
    assert!(rt; disk.cut(9).is_ok());
    assert!(rt; disk.cut(3).is_ok());
    assert!(rt; disk.sync().is_ok());
    let mut part = [0u8; 2];
    assert!(rt; disk.read_at(1, &mut part).is_ok());
    assert!(rt; part == *b"xy");
    assert!(rt; disk.length() == Ok(3));
    assert_eq!(rt; disk.faults(), 0);
    assert!(rt; disk.read_at(2, &mut part).is_err());
    assert_eq!(rt; disk.faults(), 1);
    let bytes = fs::read(&rt, "k")?;
    assert!(rt; bytes.as_slice() == b"axy".as_slice());

    // A folder that is not there, and the folder itself.
    for path in ["gone/k", "."] {
        let mut none = FileDisk::new(&rt, path);
        assert!(rt; none.length() == Err(Failed));
        assert!(rt; none.read_at(0, &mut []).is_err());
        assert!(rt; none.write_at(0, b"a").is_err());
        assert!(rt; none.cut(0).is_err());
        assert!(rt; none.sync().is_err());
        assert_eq!(rt; none.faults(), 5);
    }
    Ok(())
}
