//! What the tests are made of: generations, updates that are read from lines, and a request.
ghost use Rattle.std.specs.Prelude.{◌≤◌, length, IfSome};
ghost use Rattle.dnr_base.specs.Request.{max_frames};

use dnr_base::{Items, Kind, Method, Request, Text};
use generation::{Extension, Generation, Update};
use regex_host::PackHost;
use script_read::{Command, read_line};
use std::alloc::Global;
use suffix_list::SuffixList;
use url_view::parse;

pub const INSTALLS: &str =
    r#"{"cmd":"install","extension":"a","rulesets":[{"id":"s","enabled":true,"rules":[{"id":1,"priority":1,"condition":{"urlFilter":"||a.com^"},"action":{"type":"block"}}]}]}"#;

pub const SWITCHES_OFF: &str = r#"{"cmd":"rulesets","extension":"a","disableRulesetIds":["s"]}"#;

pub const UNINSTALLS: &str = r#"{"cmd":"uninstall","extension":"a"}"#;

pub const ADDS: &str =
    r#"{"cmd":"dynamic","extension":"a","addRules":[{"id":1,"condition":{"urlFilter":"||a.com^"},"action":{"type":"block"}}]}"#;

pub const REMOVES: &str = r#"{"cmd":"dynamic","extension":"a","removeRuleIds":[1]}"#;

/// The update of a line.
pub fn update(alloc: Global, line: &str) -> Option<Update> {
    let mut host = PackHost::new(alloc).ok()?;
    match read_line(alloc, 1, line.as_bytes(), &mut host) {
        Ok(Command::Update(update)) => Some(update),
        _ => None,
    }
}

/// A script of `http://a.com/`.
pub fn request(alloc: Global) -> Option<Request>
    ensures { IfSome result (λ request. length request.frames ≤ max_frames) }
{
    request_to(alloc, "http://a.com/")
}

/// A script of this URL, if it is one.
pub fn request_to(alloc: Global, url: &str) -> Option<Request>
    ensures { IfSome result (λ request. length request.frames ≤ max_frames) }
{
    Some(Request {
        line: 1,
        view: parse(alloc, url).ok()?,
        initiator: None,
        kind: Kind::Script,
        method: Method::Get,
        tab: -1,
        frames: Items::build(Vec::new(alloc)),
        request_headers: None,
        response_headers: None,
    })
}

/// The generation of these extensions, which are none or one of this name, without rules.
pub fn opening(alloc: Global, name: Option<&str>) -> Option<Generation> {
    let mut extensions = Vec::new(alloc);
    if let Some(name) = name {
        let name = Text::build(String::from_str(alloc, name).ok()?);
        let extension = Extension::build(alloc, name, Vec::new(alloc), None).ok()?;
        extensions.push(extension).ok()?;
    }
    let list = SuffixList::read(alloc, b"").ok()?;
    Generation::first(alloc, list, extensions).ok()
}
