//! What is drawn: rules and requests of few names, so that many of them share keys.
ghost use Rattle.std.specs.Prelude.{◌<◌};

use dnr_base::{Frame, Items, Kind, Method, Request, Text};
use dnr_rules::Rule;
use rand_core::utils::NextWord;
use rand_pcg::Lcg64Xsh32;
use regex_host::PackHost;
use rule_read::{RuleKind, read_rule};
use serde_json::Value;
use std::alloc::Global;
use std::test::Fail;
use url_view::parse;

// How many names of each kind there are.
const NAMES: u32 = 40;

/// A number below this one.
pub fn draw(generator: &mut Lcg64Xsh32, below: u32) -> u32
    requires { 0 < below }
    ensures { result < below }
{
    generator.next_word() % below
}

// What a rule is found by. A domain that stands twice in a list is one key, and few rules have none.
fn draw_filter(alloc: Global, generator: &mut Lcg64Xsh32) -> Result<String, Fail> {
    let one = draw(generator, NAMES);
    let other = draw(generator, NAMES);
    Ok(match draw(generator, 33) {
        0..=7 => format!(in alloc; r#""urlFilter":"||host{one}.test^""#)?,
        8..=12 => format!(in alloc; r#""urlFilter":"/path{one}/""#)?,
        13..=17 => format!(in alloc; r#""urlFilter":"-banner{one}-*/path{other}/""#)?,
        18..=24 => format!(in alloc;
            r#""requestDomains":["host{one}.test","cdn.host{one}.test","host{one}.test","host{other}.test"]"#
        )?,
        25..=31 => format!(in alloc;
            r#""initiatorDomains":["site{one}.test","site{other}.test"]"#
        )?,
        _ => format!(in alloc; r#""urlFilter":"*track{one}""#)?,
    })
}

// What a rule does, and with which types.
fn draw_action(generator: &mut Lcg64Xsh32) -> &'static str {
    match draw(generator, 4) {
        0 => {
            r#""resourceTypes":["main_frame","sub_frame"]},"action":{"type":"allowAllRequests"}"#
        }
        1 => r#""resourceTypes":["image"]},"action":{"type":"block"}"#,
        _ => r#""domainType":"thirdParty"},"action":{"type":"allow"}"#,
    }
}

/// A rule of this id.
pub fn draw_rule(alloc: Global, id: u32, generator: &mut Lcg64Xsh32) -> Result<Rule, Fail> {
    let filter = draw_filter(alloc, generator)?;
    let action = draw_action(generator);
    let text = format!(in alloc; r#"{{"id":{id},"condition":{{{filter},{action}}}"#)?;
    let value = Value::from_str(alloc, &text).ok().ok_or("no JSON")?;
    let mut host = PackHost::new(alloc)?;
    let read = read_rule(alloc, &value, RuleKind::Dynamic, &mut host);
    Ok(read.ok().ok_or("refused")?)
}

// A URL, some words of which stand in it twice.
fn draw_url(alloc: Global, generator: &mut Lcg64Xsh32) -> Result<String, Fail> {
    let host = draw(generator, NAMES);
    let path = draw(generator, NAMES);
    let banner = draw(generator, NAMES);
    let below = if draw(generator, 2) == 0 { "" } else { "cdn." };
    Ok(format!(in alloc;
        "http://{below}host{host}.test/path{path}/HOST{host}/x-banner{banner}-/path{path}/"
    )?)
}

// A page, as the frame of what it asks for.
fn draw_frame(alloc: Global, generator: &mut Lcg64Xsh32) -> Result<Frame, Fail> {
    let url = draw_url(alloc, generator)?;
    Ok(Frame {
        view: Some(parse(alloc, &url)?),
        initiator: None,
        method: Method::Get,
    })
}

/// A request in a frame.
pub fn draw_request(alloc: Global, generator: &mut Lcg64Xsh32) -> Result<Request, Fail> {
    let url = draw_url(alloc, generator)?;
    let site = draw(generator, NAMES);
    let initiator = format!(in alloc; "www.site{site}.test")?;
    let frame = draw_frame(alloc, generator)?;
    let is_image = draw(generator, 2) == 0;
    Ok(Request {
        line: 1,
        view: parse(alloc, &url)?,
        initiator: Some(Text::build(initiator)),
        kind: if is_image { Kind::Image } else { Kind::Script },
        method: Method::Get,
        tab: -1,
        frames: Items::build(vec![in alloc; frame]?),
        request_headers: None,
        response_headers: None,
    })
}
