//! What updates of many rules leave: how many segments, and which requests are blocked, told with memory and without.
ghost use Rattle.std.specs.Prelude.{◌≡◌, ◌≤◌, length};
ghost use Rattle.dnr_base.specs.Request.{max_frames};

use crate::fixtures::{opening, request_to, update};
use dnr_base::{Request, Steps};
use generation::{Generation, Update};
use regex_host::PackHost;
use std::alloc::Global;
use std::marker::Brand;
use std::sync::ledger::{Blank, Ledger};
use std::test::Fail;

// The update that adds the rules of these ids, each of which blocks the host of its number.
fn adds(alloc: Global, ids: &[u32]) -> Option<Update> {
    let mut line = String::from_str(
        alloc,
        r#"{"cmd":"dynamic","extension":"a","addRules":["#,
    ).ok()?;
    let mut comma = "";
    for id in ids {
        let rule = format!(in alloc;
            r#"{comma}{{"id":{id},"condition":{{"urlFilter":"||h{id}.test^"}},"action":{{"type":"block"}}}}"#
        ).ok()?;
        line.push_str(&rule).ok()?;
        comma = ",";
    }
    line.push_str("]}").ok()?;
    update(alloc, &line)
}

// The update that removes the rules of these ids.
fn removes(alloc: Global, ids: &[u32]) -> Option<Update> {
    let mut line = String::from_str(
        alloc,
        r#"{"cmd":"dynamic","extension":"a","removeRuleIds":["#,
    )
    .ok()?;
    let mut comma = "";
    for id in ids {
        let id = format!(in alloc; "{comma}{id}").ok()?;
        line.push_str(&id).ok()?;
        comma = ",";
    }
    line.push_str("]}").ok()?;
    update(alloc, &line)
}

// The ids from the first to the last.
fn ids(alloc: Global, first: u32, last: u32) -> Option<Vec<u32>> {
    let mut ids = Vec::new(alloc);
    for id in first..=last {
        ids.push(id).ok()?;
    }
    Some(ids)
}

// The generation after the rules of these ids were added one by one.
fn with_each(alloc: Global, generation: Generation, ids: &[u32]) -> Option<Generation> {
    let mut generation = generation;
    for id in ids {
        let update = adds(alloc, &[*id])?;
        generation = generation.next(alloc, &update).ok()?;
    }
    Some(generation)
}

// By which rule what is asked of the host of this number is decided, if by one, and whether it is blocked.
fn decision(alloc: Global, generation: &Generation, number: u32) -> Option<(Option<u32>, bool)> {
    let url = format!(in alloc; "http://h{number}.test/x").ok()?;
    let request = request_to(alloc, &url)?;
    decided::<Brand>(alloc, generation, &request, Blank::new(1))
}

fn decided<L: Ledger>(
    alloc: Global,
    generation: &Generation,
    request: &Request,
    blank: Blank,
) -> Option<(Option<u32>, bool)>
    requires frames { length request.now.frames ≤ max_frames }
    requires name { blank.name ≡ L.name }
    requires parts { blank.parts ≡ L.parts }
    requires one { blank.parts ≡ 1 }
{
    let mut host = PackHost::new(alloc).ok()?;
    let mut steps = Steps::<L>::open(blank);
    let verdict = generation
        .decide(alloc, request, &mut host, &mut steps)
        .ok()?;
    let is_blocked = generation.is_plain() && generation.plain_block(request, &mut steps);
    Some((verdict.rule.map(|rule| rule.id), is_blocked))
}

#[test]
fn a_rule_of_many_decides_its_own_request(rt: HostRuntime) -> Result<(), Fail> {
    let alloc = rt.alloc();
    let many = ids(alloc, 1, 30_000).ok_or("memory")?;
    let update = adds(alloc, &many).ok_or("no update")?;
    let first = opening(alloc, Some("a")).ok_or("refused")?;
    let generation = first.next(alloc, &update).ok().ok_or("refused")?;
    assert_eq!(rt; generation.segments(), 1);
    for (number, wanted) in [
        (12_345, (Some(12_345), true)),
        (30_000, (Some(30_000), true)),
        (30_001, (None, false)),
    ] {
        assert_eq!(rt; decision(alloc, &generation, number), Some(wanted));
    }
    Ok(())
}

#[test]
fn what_an_update_leaves_is_shared(rt: HostRuntime) -> Result<(), Fail> {
    let alloc = rt.alloc();
    let many = ids(alloc, 1, 20_000).ok_or("memory")?;
    let few = ids(alloc, 20_001, 20_100).ok_or("memory")?;
    let update = adds(alloc, &many).ok_or("no update")?;
    let first = opening(alloc, Some("a")).ok_or("refused")?;
    let generation = first.next(alloc, &update).ok().ok_or("refused")?;
    let generation = with_each(alloc, generation, &few).ok_or("refused")?;
    // One that is made of all rules at each update would be 1.
    assert!(rt; 2 <= generation.segments() && generation.segments() <= 15);
    for id in &few {
        assert_eq!(rt; decision(alloc, &generation, *id), Some((Some(*id), true)));
    }
    let update = removes(alloc, &many).ok_or("no update")?;
    let generation = generation.next(alloc, &update).ok().ok_or("refused")?;
    assert!(rt; generation.segments() <= 7);
    assert_eq!(rt; decision(alloc, &generation, 17), Some((None, false)));
    assert_eq!(rt;
        decision(alloc, &generation, 20_050),
        Some((Some(20_050), true))
    );
    Ok(())
}
