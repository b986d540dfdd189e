//! Lines that are read in two steps, of which the first has no pattern host.
use regex_host::PackHost;
use script_read::{Asked, Command, LineFault, Memo, ask_line, finish_line};
use std::alloc::Global;
use std::test::Fail;

fn is_send<T: Send>(_: &T) {}

fn said(asked: &Asked) -> &'static str {
    match asked {
        Asked::Command(command) => told(command),
        Asked::Update(_) => "to read an update",
        Asked::Batch => "to read a batch",
    }
}

pub(crate) fn told(command: &Command) -> &'static str {
    match command {
        Command::Blank => "nothing",
        Command::Sync => "sync",
        Command::Request(_) => "a request",
        Command::Explain(_) => "an explanation",
        Command::Update(_) => "an update",
        Command::Batch(_) => "a batch",
    }
}

pub(crate) fn named(fault: &LineFault) -> &'static str {
    match fault {
        LineFault::BadJson => "no JSON",
        LineFault::BadCommand(_) => "a bad field",
        LineFault::RuleRefused(_) => "a refused rule",
        _ => "another fault",
    }
}

// What the two steps say of a line. Each has a memo of its own, as where it runs on a thread of its own.
fn both(alloc: Global, line: &str, host: &mut PackHost) -> (&'static str, &'static str) {
    let mut memo = Memo::new(alloc);
    let mut other = Memo::new(alloc);
    is_send(&memo);
    match ask_line(alloc, 7, line.as_bytes(), &mut memo) {
        Ok(asked) => {
            let first = said(&asked);
            match finish_line(alloc, 7, line.as_bytes(), asked, &mut other, host) {
                Ok(command) => (first, told(&command)),
                Err(fault) => (first, named(&fault)),
            }
        }
        Err(fault) => (named(&fault), "-"),
    }
}

#[test]
fn a_line_is_read_in_two_steps(rt: HostRuntime) -> Result<(), Fail> {
    let rows = r#"nothing | nothing | 
sync | sync | {"cmd":"sync"}
a request | a request | {"url":"http://a.com/","type":"script"}
an explanation | an explanation | {"cmd":"explain","url":"http://a.com/","type":"script"}
to read an update | an update | {"cmd":"uninstall","extension":"a"}
to read an update | a bad field | {"cmd":"uninstall"}
to read an update | a refused rule | {"cmd":"dynamic","extension":"a","addRules":[{}]}
to read a batch | a batch | {"cmd":"batch","updates":[{"cmd":"uninstall","extension":"a"}]}
to read a batch | a bad field | {"cmd":"batch","updates":[]}
a bad field | - | {"cmd":"follow"}
no JSON | - | {"cmd":"sync""#;
    let Ok(mut host) = PackHost::new(rt.alloc()) else {
        return Err("no host".into());
    };
    for row in rows.lines() {
        let (first, rest) = row.split_once(" | ").ok_or("no row")?;
        let (second, line) = rest.split_once(" | ").ok_or("no row")?;
        let (asked, read) = both(rt.alloc(), line, &mut host);
        assert!(rt; asked == first && read == second, "{line}");
    }
    Ok(())
}
