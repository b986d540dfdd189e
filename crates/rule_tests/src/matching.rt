//! Rules on requests, and a pattern host that fails.
ghost use Rattle.std.specs.Prelude.{◌≡◌, ◌≤◌, length, None, IfOk};
ghost use Rattle.dnr_base.specs.Request.{max_frames};

use dnr_base::{Frame, Items, Kind, Method, Request, Steps};
use dnr_rules::{Rule, RuleKind};
use regex_host::{ListHost, PackHost, RegexHost};
use rule_match::{MatchRefusal, Reach, matches, plain_matches, plain_reaches, reaches};
use rule_read::read_rule;
use serde_json::Value;
use std::alloc::Global;
use std::marker::Brand;
use std::sync::ledger::{Blank, Ledger};
use std::test::Fail;
use suffix_list::SuffixList;
use url_view::parse;

fn rule(alloc: Global, text: &str) -> Result<Rule, Fail> {
    let value = Value::from_str(alloc, text).ok().ok_or("no JSON")?;
    let mut host = PackHost::new(alloc)?;
    let read = read_rule(alloc, &value, RuleKind::Static, &mut host);
    Ok(read.ok().ok_or("refused")?)
}

// A `get` of `http://x.com/` in a page of `http://top.com/`.
fn request(alloc: Global, kind: Kind) -> Result<Request, Fail>
    ensures { IfOk result (λ request. length request.frames ≤ max_frames) }
{
    let view = parse(alloc, "http://x.com/")?;
    let page = Frame {
        view: Some(parse(alloc, "http://top.com/")?),
        initiator: None,
        method: Method::Get,
    };
    let frames = Items::build(vec![in alloc; page]?);
    Ok(Request {
        line: 1,
        view,
        initiator: None,
        kind,
        method: Method::Get,
        tab: -1,
        frames,
        request_headers: None,
        response_headers: None,
    })
}

// What the calls for rules without pattern say.
fn plainly<L: Ledger>(
    blank: Blank,
    rule: &Rule,
    request: &Request,
    list: &SuffixList,
) -> (bool, Option<Reach>)
    requires name { blank.name ≡ L.name }
    requires parts { blank.parts ≡ L.parts }
    requires one { blank.parts ≡ 1 }
    requires plain { rule.now.condition.regex_filter ≡ None }
    requires frames { length request.now.frames ≤ max_frames }
{
    let mut steps = Steps::<L>::open(blank);
    let is_match = plain_matches(rule, &request.own_part(), list, &mut steps);
    (is_match, plain_reaches(rule, request, list, &mut steps))
}

// What the calls with a host say.
fn by_host<L: Ledger, H: RegexHost>(
    blank: Blank,
    rule: &Rule,
    request: &Request,
    list: &SuffixList,
    host: &mut H,
) -> Result<(bool, Option<Reach>), MatchRefusal>
    requires name { blank.name ≡ L.name }
    requires parts { blank.parts ≡ L.parts }
    requires one { blank.parts ≡ 1 }
    requires frames { length request.now.frames ≤ max_frames }
{
    let mut steps = Steps::<L>::open(blank);
    let is_match = matches(rule, &request.own_part(), list, host, &mut steps)?;
    Ok((is_match, reaches(rule, request, list, host, &mut steps)?))
}

fn told(rule: &Rule, request: &Request, list: &SuffixList) -> Option<(bool, Option<Reach>)>
    requires { length request.now.frames ≤ max_frames }
{
    if rule.uses_regex() {
        return None;
    }
    Some(plainly::<Brand>(Blank::new(1), rule, request, list))
}

fn asked<H: RegexHost>(
    rule: &Rule,
    request: &Request,
    list: &SuffixList,
    host: &mut H,
) -> Result<(bool, Option<Reach>), MatchRefusal>
    requires { length request.now.frames ≤ max_frames }
{
    by_host::<Brand, _>(Blank::new(1), rule, request, list, host)
}

#[test]
fn a_page_exempts_what_its_frames_ask_for(rt: HostRuntime) -> Result<(), Fail> {
    let list = SuffixList::read(rt.alloc(), b"")?;
    let text =
        r#"{"id":1,"condition":{"urlFilter":"||top.com^","resourceTypes":["main_frame"]},"action":{"type":"allowAllRequests"}}"#;
    let rule = rule(rt.alloc(), text)?;
    let request = request(rt.alloc(), Kind::Script)?;
    let page = Some(Reach::Frame(0));
    assert!(rt; told(&rule, &request, &list) == Some((false, page)));
    let mut host = PackHost::new(rt.alloc())?;
    assert!(rt; asked(&rule, &request, &list, &mut host) == Ok((false, page)));
    Ok(())
}

// No host is asked where the type decides.
#[test]
fn a_host_is_asked_last(rt: HostRuntime) -> Result<(), Fail> {
    let list = SuffixList::read(rt.alloc(), b"")?;
    let text = r#"{"id":1,"condition":{"regexFilter":"^http://x"},"action":{"type":"block"}}"#;
    let rule = rule(rt.alloc(), text)?;
    let below = PackHost::new(rt.alloc())?;
    let mut host = ListHost::new(rt.alloc(), below, vec![in rt.alloc(); 1]?);
    let page = request(rt.alloc(), Kind::MainFrame)?;
    assert!(rt; asked(&rule, &page, &list, &mut host) == Ok((false, None)));
    assert!(rt; host.asked.is_empty());
    let script = request(rt.alloc(), Kind::Script)?;
    assert!(rt; asked(&rule, &script, &list, &mut host) == Err(MatchRefusal::HostFault));
    assert!(rt; asked(&rule, &script, &list, &mut host) == Ok((true, Some(Reach::Own))));
    Ok(())
}
