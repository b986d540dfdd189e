//! Lines that threads ask side by side before each is read in its turn.
use crate::steps::{named, told};
use lines_ahead::{CutLine, PlainSearch, ask_all};
use regex_host::PackHost;
use script_read::{Command, LineFault, Memo, read_line};
use std::test::Fail;

const ROWS: [(&'static str, &'static str); 3] = [
    (
        "a request",
        r#"{"url":"http://a.com/","type":"script","initiator":"http://b.com"}"#,
    ),
    ("an update", r#"{"cmd":"uninstall","extension":"a"}"#),
    ("a bad field", r#"{"cmd":"follow"}"#),
];

fn outcome(read: Result<Command, LineFault>) -> &'static str {
    match read {
        Ok(command) => told(&command),
        Err(fault) => named(&fault),
    }
}

#[test]
fn lines_asked_ahead_are_read_as_ever(rt: HostRuntime) -> Result<(), Fail> {
    let alloc = rt.alloc();
    let Ok(mut host) = PackHost::new(alloc) else {
        return Err("no host".into());
    };
    let search = PlainSearch::new();
    let mut lines = Vec::new(alloc);
    for number in 1..=99_u32 {
        let (_, row) = ROWS[(number % 3) as usize];
        let bytes = row.as_bytes().to_vec(alloc)?;
        lines.push(CutLine::new(number, bytes, &search))?;
    }
    ask_all(&rt, alloc, 2, &mut lines);
    let mut memo = Memo::new(alloc);
    for line in lines {
        let number = line.number();
        let (wanted, row) = ROWS[(number % 3) as usize];
        assert!(rt; line.bytes() == row.as_bytes(), "{number}");
        let plain = outcome(read_line(alloc, number, row.as_bytes(), &mut host));
        let ahead = outcome(line.finish(alloc, &mut memo, &mut host));
        assert!(rt; plain == wanted && ahead == wanted, "{number}");
    }
    Ok(())
}
