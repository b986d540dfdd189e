//! The commands over files in memory: how they end where calls of a host or of the output fail, and what they write.
ghost use Rattle.std.specs.Prelude.{◌≡◌, length, IfOk};

use crate::shelves::{shelf, words};
use dnr_base::NoMemory;
use dnr_io::{MemoryShelf, MemorySink, Status};
use dnr_top::run;
use lookup_pool::NoGate;
use regex_host::{ListHost, PackHost};
use session_laws::nine_hosts_are_enough;
use std::alloc::{AllocGlobal, Global};
use std::sync::Wait;
use std::test::Fail;
use std::thread::Threads;

/// The calls that fail, from 1: one of the shelf, one of the sink, which takes at most so many bytes at a time, and those
/// of the host at this place.
#[derive(Clone, Copy)]
pub struct Failing<'a> {
    pub read: u64,
    pub most: usize,
    pub write: u64,
    pub host: usize,
    pub asks: &'a [u64],
}

pub const NOTHING: Failing<'static> = Failing {
    read: 0,
    most: 4096,
    write: 0,
    host: 0,
    asks: &[],
};

/// One of files and lines, and one of each worker.
pub const HOSTS: usize = 9;

// The calls of these numbers fail, of the host at this place.
fn hosts(alloc: Global, failing: Failing<'_>) -> Result<Vec<ListHost<PackHost>>, NoMemory>
    ensures { IfOk result (λ hosts. length hosts.items ≡ 9) }
{
    let mut hosts = Vec::new(alloc);
    for place in 0..HOSTS {
        let asks = if place == failing.host {
            failing.asks
        } else {
            &[]
        };
        let asks = Vec::from_slice(alloc, asks)?;
        hosts.push(ListHost::new(alloc, PackHost::new(alloc)?, asks))?;
    }
    Ok(hosts)
}

/// How a command has ended, what it has written, and its hosts.
#[derive(Drop)]
pub struct Ended {
    pub status: Status,
    pub written: Vec<u8>,
    pub hosts: Vec<ListHost<PackHost>>,
}

/// A command on this shelf.
pub fn ended_on(
    rt: &(impl Threads + Wait + Sync + AllocGlobal),
    command: &str,
    shelf: &mut MemoryShelf,
    failing: Failing<'_>,
) -> Result<Ended, NoMemory> {
    let alloc = rt.alloc();
    let words = words(alloc, command)?;
    let mut sink = MemorySink::new(alloc, failing.most.max(1), vec![in alloc; failing.write]?);
    let mut hosts = hosts(alloc, failing)?;
    nine_hosts_are_enough();
    let status = run(rt, alloc, &words, shelf, &mut sink, &mut hosts, &NoGate);
    let written = Vec::from_slice(alloc, sink.bytes())?;
    Ok(Ended {
        status,
        written,
        hosts,
    })
}

// A command on the shelf of all tests, what fails, how it ends, and what is written then. No host is asked for another
// pattern than `x`.
const CASES: &[(&str, Failing<'static>, Status, &str)] = &[
    (
        "match r.json q.jsonl",
        Failing {
            host: 1,
            asks: &[1],
            ..NOTHING
        },
        Status::Done,
        "{\"line\":1,\"generation\":0,\"fault\":\"pattern-host\",\"rule\":[\"local\",\"rules\",1]}\n{\"line\":2,\"generation\":0,\"verdict\":\"block\",\"rule\":[\"local\",\"rules\",1]}\n{\"line\":3,\"generation\":0,\"verdict\":\"block\",\"rule\":[\"local\",\"rules\",1]}\n",
    ),
    (
        "match r.json q.jsonl",
        Failing {
            host: 1,
            asks: &[1, 2],
            ..NOTHING
        },
        Status::Done,
        "{\"line\":1,\"generation\":0,\"fault\":\"pattern-host\",\"rule\":[\"local\",\"rules\",1]}\n{\"line\":2,\"generation\":0,\"fault\":\"pattern-host\",\"rule\":[\"local\",\"rules\",1]}\n{\"line\":3,\"generation\":0,\"verdict\":\"block\",\"rule\":[\"local\",\"rules\",1]}\n",
    ),
    (
        "follow f.json f.jsonl",
        Failing {
            host: 1,
            asks: &[2],
            ..NOTHING
        },
        Status::Done,
        "{\"line\":1,\"fault\":\"pattern-host\",\"hop\":1,\"rule\":[\"local\",\"rules\",2]}\n{\"line\":2,\"hops\":[{\"url\":\"http://a.org/\",\"verdict\":\"redirect\",\"rule\":[\"local\",\"rules\",1]},{\"url\":\"http://x.org/\",\"verdict\":\"block\",\"rule\":[\"local\",\"rules\",2]}],\"end\":\"settled\"}\n",
    ),
    (
        "follow f.json f.jsonl",
        Failing {
            host: 1,
            asks: &[1, 2],
            ..NOTHING
        },
        Status::Done,
        "{\"line\":1,\"fault\":\"pattern-host\",\"hop\":0,\"rule\":[\"local\",\"rules\",2]}\n{\"line\":2,\"fault\":\"pattern-host\",\"hop\":0,\"rule\":[\"local\",\"rules\",2]}\n",
    ),
    (
        "serve --ext a pattern.jsonl",
        Failing {
            asks: &[1],
            ..NOTHING
        },
        Status::Done,
        "{\"line\":1,\"refused\":\"pattern-host\",\"place\":0,\"id\":1}\n{\"line\":2,\"accepted\":1}\n",
    ),
    (
        "check static r.json",
        Failing {
            asks: &[1],
            ..NOTHING
        },
        Status::Refused,
        "{\"file\":\"r.json\",\"refused\":\"pattern-host\",\"place\":0,\"id\":1}\n",
    ),
    (
        "serve --ext a block.jsonl",
        Failing {
            most: 10,
            write: 3,
            ..NOTHING
        },
        Status::WriteFault,
        "{\"line\":1,\"accepted\"",
    ),
];

#[test]
fn each_call_that_fails_is_told_once(rt: HostRuntime) -> Result<(), Fail> {
    for (command, failing, status, written) in CASES {
        let mut shelf = shelf(rt.alloc(), 0)?;
        let ended = ended_on(&rt, command, &mut shelf, *failing)?;
        assert!(rt; ended.status == *status);
        assert_eq!(rt; ended.written.as_slice(), written.as_bytes());
        for host in ended.hosts.iter() {
            assert!(rt; host.asked.iter().all(|pattern| pattern.as_str() == "x"));
        }
    }
    Ok(())
}
