//! How scripts end: with their last LF or without it, and where a read fails before the end was
//! told, or behind it.
use crate::runs::{Ended, NOTHING, ended_on};
use crate::shelves::shelf_of;
use dnr_base::NoMemory;
use dnr_io::Status;
use std::alloc::AllocGlobal;
use std::sync::Wait;
use std::test::Fail;
use std::thread::Threads;

// The first call of the shelf fetches the rules or the manifest, the second starts the script, the
// third gives all its bytes, and the fourth tells its end.
const END: u64 = 4;

const BEHIND: u64 = 5;

const MATCH: &str = "match r.json q.jsonl";

const SERVE: &[&str] = &["serve --ext a q.jsonl", "serve --workers 2 --ext a q.jsonl"];

// A script, what is written where nothing fails, and what is written where the read fails that would
// tell the end.
type Case = (&'static str, &'static str, &'static str);

const SERVED: &[Case] = &[
    ("{\"cmd\":\"sync\"}", "{\"line\":1,\"sync\":0}\n", ""),
    (
        "{\"cmd\":\"sync\"}\n",
        "{\"line\":1,\"sync\":0}\n",
        "{\"line\":1,\"sync\":0}\n",
    ),
    (
        "{\"url\":\"http://a.com/\",\"type\":\"script\"}\n{\"url\":\"http://a.com/\",\"type\":\"script\"}",
        "{\"line\":1,\"generation\":0,\"verdict\":\"none\"}\n{\"line\":2,\"generation\":0,\"verdict\":\"none\"}\n",
        "",
    ),
    (
        "{\"url\":\"http://a.com/\",\"type\":\"script\"}\n{\"cmd\":\"sync\"}",
        "{\"line\":1,\"generation\":0,\"verdict\":\"none\"}\n{\"line\":2,\"sync\":0}\n",
        "",
    ),
    (
        "{\"url\":\"http://a.com/\",\"type\":\"script\"}\n{\"cmd\":\"sync\"}\n",
        "{\"line\":1,\"generation\":0,\"verdict\":\"none\"}\n{\"line\":2,\"sync\":0}\n",
        "{\"line\":1,\"generation\":0,\"verdict\":\"none\"}\n{\"line\":2,\"sync\":0}\n",
    ),
    (
        "{\"cmd\":\"sync\"}\n{\"url\":\"http://a.com/\",\"type\":\"script\"}",
        "{\"line\":1,\"sync\":0}\n{\"line\":2,\"generation\":0,\"verdict\":\"none\"}\n",
        "{\"line\":1,\"sync\":0}\n",
    ),
    (
        "{\"cmd\":\"sync\"}\n{\"url\":\"http://a.com/\",\"type\":\"script\"}\n",
        "{\"line\":1,\"sync\":0}\n{\"line\":2,\"generation\":0,\"verdict\":\"none\"}\n",
        "{\"line\":1,\"sync\":0}\n",
    ),
];

// `match` knows no `sync`, but such a line ends a round there too.
const MATCHED: &[Case] = &[
    (
        "{\"cmd\":\"sync\"}",
        "{\"line\":1,\"bad\":\"command\",\"path\":\"cmd\"}\n",
        "",
    ),
    (
        "{\"cmd\":\"sync\"}\n",
        "{\"line\":1,\"bad\":\"command\",\"path\":\"cmd\"}\n",
        "{\"line\":1,\"bad\":\"command\",\"path\":\"cmd\"}\n",
    ),
    (
        "{\"url\":\"http://a.com/\",\"type\":\"script\"}\n{\"url\":\"http://a.com/\",\"type\":\"script\"}",
        "{\"line\":1,\"generation\":0,\"verdict\":\"none\"}\n{\"line\":2,\"generation\":0,\"verdict\":\"none\"}\n",
        "",
    ),
    (
        "{\"cmd\":\"sync\"}\n{\"url\":\"http://a.com/\",\"type\":\"script\"}",
        "{\"line\":1,\"bad\":\"command\",\"path\":\"cmd\"}\n{\"line\":2,\"generation\":0,\"verdict\":\"none\"}\n",
        "{\"line\":1,\"bad\":\"command\",\"path\":\"cmd\"}\n",
    ),
];

// How a command ends on a script, where this call of the shelf fails.
fn ended(
    rt: &(impl Threads + Wait + Sync + AllocGlobal),
    command: &str,
    script: &str,
    failing: u64,
) -> Result<Ended, NoMemory> {
    let files = [
        ("r.json", "[]"),
        ("a/manifest.json", "{}"),
        ("q.jsonl", script),
    ];
    let mut shelf = shelf_of(rt.alloc(), &files, failing)?;
    ended_on(rt, command, &mut shelf, NOTHING)
}

// Each script is answered to its end, where this call of the shelf fails, or none.
fn are_whole(
    rt: &(impl Threads + Wait + Sync + AllocGlobal),
    command: &str,
    cases: &[Case],
    failing: u64,
) -> Result<(), Fail> {
    for (script, whole, _) in cases {
        let ended = ended(rt, command, script, failing)?;
        if ended.status != Status::Done {
            return Err(Fail::new("the session is not done"));
        }
        if ended.written.as_slice() != whole.as_bytes() {
            return Err(Fail::new("other answers"));
        }
    }
    Ok(())
}

// Each script says what it says where its end is not told.
fn are_cut_off(
    rt: &(impl Threads + Wait + Sync + AllocGlobal),
    command: &str,
    cases: &[Case],
) -> Result<(), Fail> {
    for (script, _, before) in cases {
        let ended = ended(rt, command, script, END)?;
        if ended.status != Status::ReadFault {
            return Err(Fail::new("no fault is told"));
        }
        if ended.written.as_slice() != before.as_bytes() {
            return Err(Fail::new("other rounds"));
        }
    }
    Ok(())
}

#[test]
fn a_script_needs_no_last_lf(rt: HostRuntime) -> Result<(), Fail> {
    for command in SERVE {
        are_whole(&rt, command, SERVED, 0)?;
    }
    are_whole(&rt, MATCH, MATCHED, 0)
}

#[test]
fn a_script_is_not_read_behind_its_end(rt: HostRuntime) -> Result<(), Fail> {
    for command in SERVE {
        are_whole(&rt, command, SERVED, BEHIND)?;
    }
    are_whole(&rt, MATCH, MATCHED, BEHIND)
}

#[test]
fn a_fault_before_the_end_leaves_the_rounds_that_an_lf_ended(rt: HostRuntime) -> Result<(), Fail> {
    for command in SERVE {
        are_cut_off(&rt, command, SERVED)?;
    }
    are_cut_off(&rt, MATCH, MATCHED)
}
