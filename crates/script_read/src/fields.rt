// The fields of a line, and those of them that are one value each.
ghost use Rattle.std.specs.Prelude.{◌≡◌, ◌<◌, Ok, IfOk, IfErr, length, map};
ghost use Rattle.std.specs.List.{All};
ghost use Rattle.dnr_base.specs.Kind.{kind_named};
ghost use Rattle.dnr_base.specs.Method.{method_named};
ghost use Rattle.json_fields.specs.Fields.{AreApart, IsEmpty, key_of, value_in};
ghost use Rattle.line_spec.specs.IsFault.{IsFaultOf};
ghost use Rattle.line_spec.specs.RequestLine as spec;
ghost use Rattle.script_read.specs.Fields.{line_keys, place_of, value_at, url_from, kind_from, method_from, tab_from};

use crate::memo::{Asker, asking_again};
use dnr_base::{Kind, Method, Text, View};
use json_fields::{Field, Held};
use line_spec::{CommandPath, LineFault};
use request_texts::view_at;
use std::alloc::Global;

macro_rules! field {
    ($name:literal) => {
        Field {
            name: $name,
            keeps: false,
            held: None,
        }
    };
}

// What is asked for of a line.
pub(crate) fn line_fields<'a>() -> [Field<'static, 'a>; 9]
    ensures keys { map key_of result ≡ line_keys }
    ensures apart { AreApart result }
    ensures empty { All IsEmpty result }
{
    [
        field!("cmd"),
        field!("url"),
        field!("type"),
        field!("initiator"),
        field!("method"),
        field!("tab"),
        field!("frames"),
        field!("requestHeaders"),
        field!("responseHeaders"),
    ]
}

// One field of them.
pub(crate) fn field_at<'f, 'a>(
    fields: &'f [Field<'static, 'a>],
    path: CommandPath,
) -> &'f Field<'static, 'a>
    requires all { length fields.now ≡ 9 }
    requires one { place_of path < 9 }
    ensures { value_in result.now ≡ value_at fields.now path }
{
    &fields[place(path)]
}

fn place(path: CommandPath) -> usize
    ensures { result ≡ place_of path }
{
    match path {
        CommandPath::Cmd => 0,
        CommandPath::Url => 1,
        CommandPath::Kind => 2,
        CommandPath::Initiator => 3,
        CommandPath::Method => 4,
        CommandPath::Tab => 5,
        CommandPath::Frames => 6,
        CommandPath::RequestHeaders => 7,
        CommandPath::ResponseHeaders => 8,
        _ => 9,
    }
}

// The URL that is asked for.
#[tactic(auto, unfolding(crate::specs::Fields::url_from))]
pub(crate) fn url_in(alloc: Global, url: &Field<'_, '_>) -> Result<View, LineFault>
    ensures read { IfOk result (λ view. url_from (value_in url.now) ≡ Ok view) }
    ensures refused { IfErr result (IsFaultOf (url_from (value_in url.now))) }
{
    match url.text() {
        Some(text) => view_at(alloc, CommandPath::Url, text),
        None => Err(LineFault::BadCommand(CommandPath::Url)),
    }
}

// What is asked for.
#[tactic(auto, unfolding(crate::specs::Fields::kind_from))]
pub(crate) fn kind_in(kind: &Field<'_, '_>) -> Result<Kind, LineFault>
    ensures read { IfOk result (λ named. kind_from (value_in kind.now) ≡ Ok named) }
    ensures refused { IfErr result (IsFaultOf (kind_from (value_in kind.now))) }
{
    let Some(_) = &kind.held else {
        return Err(LineFault::BadCommand(CommandPath::Kind));
    };
    match kind.text() {
        Some(text) => kind_named(text),
        None => Err(LineFault::BadCommand(CommandPath::Kind)),
    }
}

fn kind_named(name: &str) -> Result<Kind, LineFault>
    ensures read { IfOk result (λ kind. spec.given CommandPath.Kind (kind_named name.now) ≡ Ok kind) }
    ensures refused { IfErr result (IsFaultOf (spec.given CommandPath.Kind (kind_named name.now))) }
{
    match Kind::named(name) {
        Some(kind) => Ok(kind),
        None => Err(LineFault::BadCommand(CommandPath::Kind)),
    }
}

// The host of who asks.
pub(crate) fn initiator_in(
    alloc: Global,
    asker: &mut Option<Asker>,
    initiator: &Field<'_, '_>,
) -> Result<Option<Text>, LineFault>
    ensures read { IfOk result (λ host.
        spec.initiator_from CommandPath.Initiator (value_in initiator.now) ≡ Ok host) }
    ensures refused { IfErr result
        (IsFaultOf (spec.initiator_from CommandPath.Initiator (value_in initiator.now))) }
{
    match &initiator.held {
        None | Some(Held::Null) => Ok(None),
        Some(Held::Text(text)) => asking_again(alloc, asker, text),
        Some(_) => Err(LineFault::BadCommand(CommandPath::Initiator)),
    }
}

// How it is asked for.
#[tactic(auto, unfolding(crate::specs::Fields::method_from))]
pub(crate) fn method_in(method: &Field<'_, '_>) -> Result<Method, LineFault>
    ensures read { IfOk result (λ named. method_from CommandPath.Method (value_in method.now) ≡ Ok named) }
    ensures refused { IfErr result
        (IsFaultOf (method_from CommandPath.Method (value_in method.now))) }
{
    let Some(_) = &method.held else {
        return Ok(Method::Get);
    };
    match method.text() {
        Some(text) => method_named(CommandPath::Method, text),
        None => Err(LineFault::BadCommand(CommandPath::Method)),
    }
}

// The method of this name, which stands in this field.
pub(crate) fn method_named(field: CommandPath, name: &str) -> Result<Method, LineFault>
    ensures read { IfOk result (λ method. spec.given field (method_named name.now) ≡ Ok method) }
    ensures refused { IfErr result (IsFaultOf (spec.given field (method_named name.now))) }
{
    match Method::named(name) {
        Some(method) => Ok(method),
        None => Err(LineFault::BadCommand(field)),
    }
}

// The tab in which it is asked for.
#[tactic(auto, unfolding(crate::specs::Fields::tab_from))]
pub(crate) fn tab_in(tab: &Field<'_, '_>) -> Result<i32, LineFault>
    ensures read { IfOk result (λ number. tab_from (value_in tab.now) ≡ Ok number) }
    ensures refused { IfErr result (IsFaultOf (tab_from (value_in tab.now))) }
{
    let Some(_) = &tab.held else {
        return Ok(-1);
    };
    match tab.whole_number() {
        Some(number) if (-1..=2_147_483_647).contains(&number) => Ok(number as i32),
        _ => Err(LineFault::BadCommand(CommandPath::Tab)),
    }
}
