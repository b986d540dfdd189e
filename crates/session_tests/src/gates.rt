//! Sessions with workers whose gate holds a part back until another part has done its work: each ends only where the parts
//! of a round work beside each other. A gate gives up at last, and then the test fails.
ghost use Rattle.std.specs.Prelude.{◌≡◌, length, IfOk};

use crate::shelves::{shelf_of, words};
use dnr_base::{NoMemory, Span};
use dnr_io::{MemorySink, Status};
use dnr_top::run;
use lookup_pool::Gate;
use regex_host::{HostRefusal, ListHost, PackHost, RegexHost};
use session_laws::nine_hosts_are_enough;
use std::alloc::{AllocGlobal, Global};
use std::sync::Wait;
use std::sync::atomic::{AtomicBool, AtomicU32, Ordering};
use std::test::Fail;
use std::thread::Threads;

// How often a gate looks at a flag before it gives up.
const LOOKS: u64 = 1_000_000_000;

// A flag for each line, and whether a gate gave up.
#[derive(Drop)]
struct Flags {
    lines: [AtomicBool; 6],
    gave_up: AtomicBool,
}

fn lowered() -> AtomicBool {
    AtomicBool::new(false)
}

impl Flags {
    fn new() -> Flags {
        Flags {
            lines: [
                lowered(),
                lowered(),
                lowered(),
                lowered(),
                lowered(),
                lowered(),
            ],
            gave_up: lowered(),
        }
    }

    fn raise(&self, line: u32) {
        if let Some(flag) = self.lines.get(line as usize) {
            flag.store(true, Ordering::SeqCst);
        }
    }

    fn wait_for(&self, line: u32) {
        let Some(flag) = self.lines.get(line as usize) else {
            return;
        };
        for _ in 0..LOOKS {
            if flag.load(Ordering::SeqCst) {
                return;
            }
        }
        self.gave_up.store(true, Ordering::SeqCst);
    }

    fn held(&self) -> bool {
        !self.gave_up.load(Ordering::SeqCst)
    }
}

// A host that raises the flag of a line where it searches that line's URL.
#[derive(Drop)]
struct Watched<'a> {
    below: ListHost<PackHost>,
    flags: &'a Flags,
}

impl RegexHost for Watched<'_> {
    ghost use Rattle.regex_host.specs.Asked.{Asked};

    ghost faults = { λ host. ⟦<ListHost<PackHost> as RegexHost>⟧.faults host.below };

    ghost asks = { λ before asked after. ⟦<ListHost<PackHost> as RegexHost>⟧.asks before.below asked after.below };

    fn faults(&self) -> u64 {
        self.below.faults()
    }

    fn check(&mut self, pattern: &str, fold: bool) -> Result<u32, HostRefusal> {
        self.below.check(pattern, fold)
    }

    fn find(
        &mut self,
        pattern: &str,
        fold: bool,
        text: &str,
        spans: &mut [Option<Span>; 10],
    ) -> Result<bool, HostRefusal> {
        if text.ends_with("/2") {
            self.flags.raise(2);
        } else if text.ends_with("/3") {
            self.flags.raise(3);
        }
        self.below.find(pattern, fold, text, spans)
    }
}

// One for files and lines, and one for each worker.
const HOSTS: usize = 9;

// So many hosts that tell these flags.
fn hosts_with<'a>(alloc: Global, flags: &'a Flags) -> Result<Vec<Watched<'a>>, NoMemory>
    ensures { IfOk result (λ hosts. length hosts.items ≡ 9) }
{
    let mut hosts = Vec::new(alloc);
    for _ in 0..HOSTS {
        let below = ListHost::new(alloc, PackHost::new(alloc)?, Vec::new(alloc));
        hosts.push(Watched { below, flags })?;
    }
    Ok(hosts)
}

const FILES: &[(&str, &str)] = &[
    (
        "a/manifest.json",
        r#"{"declarative_net_request":{"rule_resources":[{"id":"s","enabled":true,"path":"s.json"}]}}"#,
    ),
    (
        "a/s.json",
        r#"[{"id":1,"condition":{"regexFilter":"x"},"action":{"type":"block"}}]"#,
    ),
    (
        "beside.jsonl",
        "{\"url\":\"http://b.org/\",\"type\":\"script\"}\n{\"cmd\":\"dynamic\",\"extension\":\"a\",\"addRules\":[{\"id\":7,\"condition\":{\"urlFilter\":\"||far.test^\"},\"action\":{\"type\":\"allow\"}}]}\n",
    ),
    (
        "update.jsonl",
        "{\"cmd\":\"dynamic\",\"extension\":\"a\",\"addRules\":[{\"id\":7,\"condition\":{\"urlFilter\":\"||far.test^\"},\"action\":{\"type\":\"allow\"}}]}\n{\"url\":\"http://x.org/2\",\"type\":\"script\"}\n{\"url\":\"http://x.org/3\",\"type\":\"script\"}\n",
    ),
    (
        "fault.jsonl",
        "{\"url\":\"http://[/\",\"type\":\"script\"}\n{\"url\":\"http://b.org/2\",\"type\":\"script\"}\n{\"url\":\"http://b.org/3\",\"type\":\"script\"}\n",
    ),
    (
        "requests.jsonl",
        "{\"url\":\"http://b.org/1\",\"type\":\"script\"}\n{\"url\":\"http://b.org/2\",\"type\":\"script\"}\n{\"url\":\"http://b.org/3\",\"type\":\"script\"}\n{\"url\":\"http://b.org/4\",\"type\":\"script\"}\n{\"url\":\"http://b.org/5\",\"type\":\"script\"}\n",
    ),
];

// What a session writes that ends well.
fn written<G: Gate + Sync>(
    rt: &(impl Threads + Wait + Sync + AllocGlobal),
    command: &str,
    flags: &Flags,
    gate: &G,
) -> Result<Vec<u8>, Fail> {
    let alloc = rt.alloc();
    let words = words(alloc, command)?;
    let mut shelf = shelf_of(alloc, FILES, 0)?;
    let mut sink = MemorySink::new(alloc, 4096, Vec::new(alloc));
    let mut hosts = hosts_with(alloc, flags)?;
    nine_hosts_are_enough();
    let status = run(rt, alloc, &words, &mut shelf, &mut sink, &mut hosts, gate);
    if status != Status::Done {
        return Err(Fail::new("the session is not done"));
    }
    Ok(Vec::from_slice(alloc, sink.bytes())?)
}

// A request and an update that wait for each other.
#[derive(Drop)]
struct Beside<'a> {
    flags: &'a Flags,
}

impl Gate for Beside<'_> {
    fn before(&self, _seat: u32, line: u32) {
        self.flags.raise(line);
        self.flags.wait_for(2);
    }

    fn after_update(&self, line: u32) {
        self.flags.raise(line);
        self.flags.wait_for(1);
    }
}

#[test]
fn a_request_is_decided_beside_an_update(rt: HostRuntime) -> Result<(), Fail> {
    let flags = Flags::new();
    let gate = Beside { flags: &flags };
    let written = written(&rt, "serve --ext a beside.jsonl", &flags, &gate)?;
    assert!(rt; flags.held());
    let mut lines = written.as_slice().split(|byte| *byte == b'\n');
    let first = lines.next();
    assert!(rt;
        first == Some(b"{\"line\":1,\"generation\":0,\"verdict\":\"none\"}".as_slice())
            || first == Some(b"{\"line\":1,\"generation\":1,\"verdict\":\"none\"}".as_slice())
    );
    assert!(rt; lines.next() == Some(b"{\"line\":2,\"accepted\":1}".as_slice()));
    Ok(())
}

// An update that ends only when the patterns of two requests were searched.
#[derive(Drop)]
struct Held<'a> {
    flags: &'a Flags,
}

impl Gate for Held<'_> {
    fn before(&self, _seat: u32, _line: u32) {}

    fn after_update(&self, _line: u32) {
        self.flags.wait_for(2);
        self.flags.wait_for(3);
    }
}

#[test]
fn requests_are_decided_while_the_writer_is_held(rt: HostRuntime) -> Result<(), Fail> {
    let flags = Flags::new();
    let gate = Held { flags: &flags };
    let written = written(&rt, "serve --ext a update.jsonl", &flags, &gate)?;
    assert!(rt; flags.held());
    let mut lines = written.as_slice().split(|byte| *byte == b'\n');
    assert!(rt; lines.next() == Some(b"{\"line\":1,\"accepted\":1}".as_slice()));
    for _ in 0..2 {
        let line = lines.next().unwrap_or(b"".as_slice());
        assert!(rt; line.ends_with(b",\"verdict\":\"block\",\"rule\":[\"a\",\"s\",1]}"));
    }
    Ok(())
}

// Two seats: the first waits for the last line of the second, and this one for the first.
#[derive(Drop)]
struct Crossed<'a> {
    flags: &'a Flags,
}

impl Gate for Crossed<'_> {
    fn before(&self, _seat: u32, line: u32) {
        self.flags.raise(line);
        match line {
            1 => self.flags.wait_for(4),
            2 | 4 => self.flags.wait_for(1),
            _ => {}
        }
    }

    fn after_update(&self, _line: u32) {}
}

#[test]
fn two_seats_work_beside_each_other(rt: HostRuntime) -> Result<(), Fail> {
    let flags = Flags::new();
    let gate = Crossed { flags: &flags };
    written(
        &rt,
        "serve --workers 2 --ext a requests.jsonl",
        &flags,
        &gate,
    )?;
    assert!(rt; flags.held());
    Ok(())
}

// Which lines each of two seats decides, as bits.
#[derive(Drop)]
struct Shares {
    first: AtomicU32,
    second: AtomicU32,
}

impl Gate for Shares {
    fn before(&self, seat: u32, line: u32) {
        let bit = 1_u32.checked_shl(line).unwrap_or(0);
        match seat {
            0 => self.first.fetch_or(bit, Ordering::SeqCst),
            _ => self.second.fetch_or(bit, Ordering::SeqCst),
        };
    }

    fn after_update(&self, _line: u32) {}
}

#[test]
fn seats_take_turns(rt: HostRuntime) -> Result<(), Fail> {
    let flags = Flags::new();
    let gate = Shares {
        first: AtomicU32::new(0),
        second: AtomicU32::new(0),
    };
    written(
        &rt,
        "serve --workers 2 --ext a requests.jsonl",
        &flags,
        &gate,
    )?;
    assert_eq!(rt; gate.first.load(Ordering::SeqCst), 0b10_1010);
    assert_eq!(rt; gate.second.load(Ordering::SeqCst), 0b01_0100);
    Ok(())
}

// Which seat was the last to decide the second line, and the third.
#[derive(Drop)]
struct Deciders {
    second: AtomicU32,
    third: AtomicU32,
}

impl Gate for Deciders {
    fn before(&self, seat: u32, line: u32) {
        match line {
            2 => self.second.store(seat, Ordering::SeqCst),
            3 => self.third.store(seat, Ordering::SeqCst),
            _ => {}
        }
    }

    fn after_update(&self, _line: u32) {}
}

#[test]
fn requests_behind_a_bad_url_are_answered_by_their_own_seats(rt: HostRuntime) -> Result<(), Fail> {
    let flags = Flags::new();
    let gate = Deciders {
        second: AtomicU32::new(9),
        third: AtomicU32::new(9),
    };
    let written = written(&rt, "serve --workers 2 --ext a fault.jsonl", &flags, &gate)?;
    assert_eq!(rt; gate.second.load(Ordering::SeqCst), 0);
    assert_eq!(rt; gate.third.load(Ordering::SeqCst), 1);
    let mut lines = written.as_slice().split(|byte| *byte == b'\n');
    assert!(rt;
        lines
            .next()
            .unwrap_or(b"".as_slice())
            .starts_with(b"{\"line\":1,\"bad\":")
    );
    assert!(rt;
        lines.next() == Some(b"{\"line\":2,\"generation\":0,\"verdict\":\"none\"}".as_slice())
    );
    assert!(rt;
        lines.next() == Some(b"{\"line\":3,\"generation\":0,\"verdict\":\"none\"}".as_slice())
    );
    Ok(())
}
