//! Commands of which one call after another fails, and scripts that are cut off: how they end, and that what is written
//! before that is what is written where nothing fails.
use crate::runs::{Ended, Failing, HOSTS, NOTHING, ended_on};
use crate::shelves::shelf_of;
use dnr_base::NoMemory;
use dnr_io::Status;
use std::alloc::AllocGlobal;
use std::sync::Wait;
use std::test::Fail;
use std::thread::Threads;

// Updates of which the last is refused, a filter list of each kind of line, and a day of a shop.
const SESSIONS: &[&str] = &[
    "serve --ext a updates.jsonl",
    "compile list.txt",
    "serve --list l=list.txt requests.jsonl",
    DAY_SESSION,
];

const SEATS_SESSION: &str = "serve --workers 4 --list l=list.txt requests.jsonl";

const DAY_SESSION: &str = "serve --workers 4 --psl psl.dat --ext shop day.txt";

const FILES: &[(&str, &str)] = &[
    ("a/manifest.json", "{}"),
    (
        "updates.jsonl",
        "{\"cmd\":\"dynamic\",\"extension\":\"a\",\"addRules\":[{\"id\":1,\"condition\":{\"urlFilter\":\"||a.com^\"},\"action\":{\"type\":\"block\"}}]}\n{\"cmd\":\"dynamic\",\"extension\":\"a\",\"removeRuleIds\":[1],\"addRules\":[{\"id\":1,\"condition\":{\"urlFilter\":\"||a.com^\"},\"action\":{\"type\":\"allow\"}}]}\n{\"cmd\":\"dynamic\",\"extension\":\"a\",\"addRules\":[{\"id\":7,\"condition\":{},\"action\":{\"type\":\"block\"}},{\"id\":7,\"condition\":{},\"action\":{\"type\":\"block\"}}]}\n",
    ),
    (
        "list.txt",
        "[Adblock Plus 2.0]\n! Title: t\na.com##.ad\n@@||a.com^$document\n||ads.com^$third-party,domain=b.com|~c.b.com|d.c.b.com\n||pop.com^$popup\n/banner[0-9]+\\.gif/\n",
    ),
    (
        "requests.jsonl",
        "{\"url\":\"http://ads.com/x\",\"type\":\"script\",\"initiator\":\"http://x.b.com\"}\n{\"url\":\"http://ads.com/x\",\"type\":\"script\",\"initiator\":\"http://c.b.com\"}\n{\"url\":\"http://ads.com/x\",\"type\":\"script\",\"initiator\":\"http://d.c.b.com\"}\n{\"url\":\"http://ads.com/x\",\"type\":\"script\",\"initiator\":\"http://ads.com\"}\n{\"url\":\"http://i.org/banner12.gif\",\"type\":\"image\"}\n{\"url\":\"http://i.org/banner12.gif\",\"type\":\"image\",\"frames\":[{\"url\":\"http://a.com/\"}]}\n",
    ),
    (
        "shop/manifest.json",
        "{\"declarative_net_request\":{\"rule_resources\":[{\"id\":\"ads\",\"enabled\":true,\"path\":\"ads.json\"},{\"id\":\"extra\",\"enabled\":false,\"path\":\"extra.json\"}]}}",
    ),
    (
        "shop/ads.json",
        "[{\"id\":1,\"condition\":{\"urlFilter\":\"||track.com^\",\"domainType\":\"thirdParty\"},\"action\":{\"type\":\"block\"}},{\"id\":2,\"priority\":2,\"condition\":{\"urlFilter\":\"|http://\",\"resourceTypes\":[\"main_frame\"]},\"action\":{\"type\":\"upgradeScheme\"}}]",
    ),
    (
        "shop/extra.json",
        "[{\"id\":1,\"condition\":{\"requestDomains\":[\"cdn.org\"]},\"action\":{\"type\":\"block\"}}]",
    ),
    ("psl.dat", "com\norg\n"),
    ("day.txt", DAY),
];

const DAY: &str =
    "{\"url\":\"http://shop.com/\",\"type\":\"main_frame\"}\n{\"url\":\"https://p.track.com/t.js?u=1\",\"type\":\"script\",\"initiator\":\"https://shop.com\"}\n{\"url\":\"https://track.com/own.js\",\"type\":\"script\",\"initiator\":\"https://www.track.com\"}\n{\"cmd\":\"sync\"}\n{\"cmd\":\"rulesets\",\"extension\":\"shop\",\"enableRulesetIds\":[\"extra\"]}\n{\"cmd\":\"sync\"}\n{\"url\":\"https://img.cdn.org/a.png\",\"type\":\"image\",\"initiator\":\"https://shop.com\"}\n";

// No session makes more calls of a kind.
const CALLS: u64 = 10_000;

fn ended(
    rt: &(impl Threads + Wait + Sync + AllocGlobal),
    session: &str,
    failing: Failing<'_>,
) -> Result<Ended, NoMemory> {
    let mut shelf = shelf_of(rt.alloc(), FILES, failing.read)?;
    ended_on(rt, session, &mut shelf, failing)
}

// What is written where nothing fails.
fn whole(rt: &(impl Threads + Wait + Sync + AllocGlobal), session: &str) -> Result<Vec<u8>, Fail> {
    let ended = ended(rt, session, NOTHING)?;
    if ended.status == Status::Done {
        Ok(ended.written)
    } else {
        Err(Fail::new("the session is not done"))
    }
}

fn fail_unless(holds: bool, why: &'static str) -> Result<(), Fail> {
    if holds { Ok(()) } else { Err(Fail::new(why)) }
}

// Each read in turn fails, or each write, where one takes at most so many bytes, and the session ends so.
fn calls_fail(
    rt: &(impl Threads + Wait + Sync + AllocGlobal),
    session: &str,
    most: usize,
    status: Status,
) -> Result<(), Fail> {
    let whole = whole(rt, session)?;
    for call in 1..CALLS {
        let (read, write) = if status == Status::ReadFault {
            (call, 0)
        } else {
            (0, call)
        };
        let failing = Failing {
            read,
            most,
            write,
            ..NOTHING
        };
        let ended = ended(rt, session, failing)?;
        let begins = whole.as_slice().starts_with(ended.written.as_slice());
        fail_unless(begins, "other bytes")?;
        if ended.status == Status::Done {
            return fail_unless(whole.len() == ended.written.len(), "too few bytes");
        }
        fail_unless(ended.status == status, "another status")?;
    }
    Err(Fail::new("no end"))
}

#[test]
fn a_call_that_fails_leaves_a_beginning(rt: HostRuntime) -> Result<(), Fail> {
    for session in SESSIONS {
        calls_fail(&rt, session, 4096, Status::ReadFault)?;
        calls_fail(&rt, session, 4096, Status::WriteFault)?;
        calls_fail(&rt, session, 10, Status::WriteFault)?;
    }
    Ok(())
}

#[test]
fn a_write_of_one_byte_that_fails_leaves_a_beginning(rt: HostRuntime) -> Result<(), Fail> {
    for session in SESSIONS {
        calls_fail(&rt, session, 1, Status::WriteFault)?;
    }
    Ok(())
}

// How many lines differ.
fn count_other_lines(a: &[u8], b: &[u8]) -> usize {
    let pairs = a
        .split(|byte| *byte == b'\n')
        .zip(b.split(|byte| *byte == b'\n'));
    pairs.filter(|pair| pair.0 != pair.1).count()
}

const REFUSED: &[u8] = b"{\"file\":\"list.txt\",\"refused\":\"pattern-host\",\"line\":7}\n";

// Each call of a host in turn fails. The first host refuses the list then, and each other one costs the line that it
// was asked for.
fn asks_fail(
    rt: &(impl Threads + Wait + Sync + AllocGlobal),
    session: &str,
    host: usize,
) -> Result<(), Fail> {
    let whole = whole(rt, session)?;
    for ask in 1..CALLS {
        let asks = [ask];
        let failing = Failing {
            host,
            asks: &asks,
            ..NOTHING
        };
        let ended = ended(rt, session, failing)?;
        let others = count_other_lines(whole.as_slice(), ended.written.as_slice());
        if ended.status == Status::Done && others == 0 {
            return fail_unless(whole.len() == ended.written.len(), "too few lines");
        }
        let told = if host == 0 {
            ended.status == Status::Refused && ended.written.as_slice() == REFUSED
        } else {
            let count = count_lines(ended.written.as_slice());
            ended.status == Status::Done && others == 1 && count == count_lines(whole.as_slice())
        };
        fail_unless(told, "not told, or more than it")?;
    }
    Err(Fail::new("no end"))
}

// Besides the host of files, those of several seats are asked.
#[test]
fn a_pattern_that_fails_refuses_its_list_or_costs_one_line(rt: HostRuntime) -> Result<(), Fail> {
    let ended = ended(&rt, SEATS_SESSION, NOTHING)?;
    let asked = ended.hosts.iter().filter(|host| !host.asked.is_empty());
    assert!(rt; asked.count() > 2);
    for host in 0..HOSTS {
        asks_fail(&rt, SEATS_SESSION, host)?;
        for session in SESSIONS {
            asks_fail(&rt, session, host)?;
        }
    }
    Ok(())
}

fn count_lines(bytes: &[u8]) -> usize {
    bytes.iter().filter(|byte| **byte == b'\n').count()
}

// A round ends with its 1,024th line. Ten reads of 4,096 bytes give so many lines of 40 bytes, after a call that fetches
// the rules and one that starts the script.
#[test]
fn a_read_that_fails_leaves_whole_rounds(rt: HostRuntime) -> Result<(), Fail> {
    let script = "{\"url\":\"http://a.com/\",\"type\":\"script\"}\n".repeat(rt.alloc(), 1_025)?;
    let files = [("r.json", "[]"), ("q.jsonl", script.as_str())];
    for (read, lines) in [(12, 0), (13, 1_024), (14, 1_024)] {
        let mut shelf = shelf_of(rt.alloc(), &files, read)?;
        let ended = ended_on(&rt, "match r.json q.jsonl", &mut shelf, NOTHING)?;
        assert!(rt; ended.status == Status::ReadFault);
        assert_eq!(rt; count_lines(ended.written.as_slice()), lines);
    }
    Ok(())
}

// What a line says that is cut off within, as one of this start: it is no JSON.
fn is_no_json(line: &[u8], whole: &[u8]) -> bool {
    let start = whole.split(|byte| *byte == b',').next();
    line.strip_prefix(start.unwrap_or(whole)) == Some(b",\"bad\":\"json\"}")
}

#[test]
fn a_script_that_is_cut_off_says_the_lines_before(rt: HostRuntime) -> Result<(), Fail> {
    let whole = whole(&rt, DAY_SESSION)?;
    for cut in 0..DAY.len() {
        let script = DAY.get(..cut).ok_or("no such cut")?;
        let mut files = Vec::from_slice(rt.alloc(), FILES)?;
        files.pop();
        files.push(("day.txt", script))?;
        let mut shelf = shelf_of(rt.alloc(), files.as_slice(), 0)?;
        let ended = ended_on(&rt, DAY_SESSION, &mut shelf, NOTHING)?;
        assert!(rt; ended.status == Status::Done);
        let mut lines = whole.as_slice().split(|byte| *byte == b'\n');
        let mut said = ended.written.as_slice().split(|byte| *byte == b'\n');
        for _ in 0..count_lines(script.as_bytes()) {
            assert!(rt; lines.next() == said.next());
        }
        let last = script.as_bytes().last();
        if last.is_some() && last != Some(&b'\n') {
            let line = lines.next().unwrap_or(b"");
            let cut_line = said.next().unwrap_or(b"");
            let is_whole = DAY.as_bytes().get(cut) == Some(&b'\n');
            assert!(rt;
                if is_whole {
                    cut_line == line
                } else {
                    is_no_json(cut_line, line)
                }
            );
        }
        assert!(rt; said.next() == Some(b"") && said.next().is_none());
    }
    Ok(())
}
