// A line, and the request in it.
ghost use Rattle.std.specs.Prelude.{◌≡◌, ◌≤◌, Ok, Some, IfOk, IfErr, length, map};
ghost use Rattle.std.specs.List.{All};
ghost use Rattle.dnr_spec.specs.Lines as lines;
ghost use Rattle.dnr_base.specs.Faults.{Rose};
ghost use Rattle.dnr_base.specs.Request.{IsRequest};
ghost use Rattle.json_spec.specs.Json.{tree_of};
ghost use Rattle.line_spec.specs.CommandName.{name_from};
ghost use Rattle.line_spec.specs.IsFault.{IsFaultOf, IsFaultOfLine, MayRefuse, IsCalm};
ghost use Rattle.line_spec.specs.Line as spec;
ghost use Rattle.line_spec.specs.Stops.{StopsIn};
ghost use Rattle.serde_json.specs.View.{view};
ghost use Rattle.json_fields.specs.Fields.{AreApart, IsEmpty, key_of, value_in};
ghost use Rattle.script_read.specs.Asked.{Asks, AsksFor, IsAsked, Reads};
ghost use Rattle.script_read.specs.Fields.{line_keys, request_from, AreFieldsOf, IsFaultFrom};
ghost use Rattle.script_read.specs.Seen.{command_seen};

use crate::Command;
use crate::asked::Asked;
use crate::batch::batch_in;
use crate::fields::{field_at, initiator_in, kind_in, line_fields, method_in, tab_in, url_in};
use crate::frames::frames_in;
use crate::headers::headers_in;
use crate::kept_updates::{read_batch, read_update};
use crate::memo::{Asker, Memo};
use crate::parts::parts_in;
use crate::updates::update_of_line;
use dnr_base::Request;
use json::Scratch;
use json_fields::{Fault, Field, Form, Held, read_fields};
use line_spec::{CommandName, CommandPath, LineFault, UpdateFault, UpdateName};
use regex_host::RegexHost;
use serde_json::Value;
use std::alloc::Global;

/// Reads a line of a script, without the LF at its end; `line` is its number, from 1.
///
/// A line of spaces and tabs, or of nothing, asks for nothing. Any other is a JSON object (RFC 8259), whose text
/// `cmd` says what it asks for; where it is absent the line is a request. The fields of `request` and `explain` are
/// `url`, `type`, `initiator`, `method`, `tab`, `frames`, `requestHeaders` and `responseHeaders`, of which only the
/// first two must be given. `dynamic`, `session`, `rulesets`, `static`, `install` and `uninstall` are updates, `batch`
/// has a list of such objects, and `sync` has no fields. Other keys are ignored.
///
/// # Errors
///
/// - `BadJson`: the line is neither blank nor a JSON text.
/// - `BadCommand`: of `cmd` and the fields, in their order, this one is the first at fault: it is missing or has
///   another form, or there are more than 64 frames, more than 512 headers in one list, or more than 256 updates.
/// - `BadUrl`: the first at fault is this one, and its text, or the one of a frame, is no URL that is decided.
/// - `RuleRefused`, `InBatch`: the first at fault is this rule of the update. `HostFault` is its cause only where the
///   host failed at the rule's pattern, and its count of faults rose in this call; with any other answer it stays.
/// - `NoMemory`: memory ran out.
pub fn read_line<H: RegexHost>(
    alloc: Global,
    line: u32,
    bytes: &[u8],
    host: &mut H,
) -> Result<Command, LineFault>
    ensures read { IfOk result (λ command. spec.command_of line bytes.now ≡ Ok (command_seen command)) }
    ensures within_limits { IfOk result (λ command. spec.IsWithinLimits (command_seen command)) }
    ensures refused { IfErr result
        (IsFaultOfLine line bytes.now (Rose (H.faults host.old) (H.faults host.new))) }
    ensures calm { IsCalm (H.faults host.old) (H.faults host.new) result }
    ensures later { H.faults host.old ≤ H.faults host.new }
{
    let mut memo = Memo::new(alloc);
    read_line_with(alloc, line, bytes, &mut memo, host)
}

/// The same with what was kept of the lines before, of the same script or of another.
pub fn read_line_with<H: RegexHost>(
    alloc: Global,
    line: u32,
    bytes: &[u8],
    memo: &mut Memo,
    host: &mut H,
) -> Result<Command, LineFault>
    ensures read { IfOk result (λ command. spec.command_of line bytes.now ≡ Ok (command_seen command)) }
    ensures within_limits { IfOk result (λ command. spec.IsWithinLimits (command_seen command)) }
    ensures refused { IfErr result
        (IsFaultOfLine line bytes.now (Rose (H.faults host.old) (H.faults host.new))) }
    ensures calm { IsCalm (H.faults host.old) (H.faults host.new) result }
    ensures later { H.faults host.old ≤ H.faults host.new }
{
    match ask_line(alloc, line, bytes, memo) {
        Ok(asked) => finish_line(alloc, line, bytes, asked, memo, host),
        Err(fault) => Err(fault),
    }
}

/// The first step of reading a line, which needs no pattern host: all of it, but for the fields of an update or of a
/// batch. So threads that share no host may read the lines of a script side by side, and `finish_line` does the rest.
///
/// # Errors
///
/// Those of `read_line`, but for `RuleRefused` and `InBatch`.
#[tactic(auto, unfolding(line_spec::specs::Line::command_of))]
pub fn ask_line(alloc: Global, line: u32, bytes: &[u8], memo: &mut Memo) -> Result<Asked, LineFault>
    ensures asks { IfOk result (AsksFor line bytes.now) }
    ensures refused { IfErr result (IsFaultOf (spec.command_of line bytes.now)) }
{
    if is_blank(bytes) {
        return Ok(Asked::Command(Command::Blank));
    }
    asked_of(alloc, line, bytes, memo)
}

/// The second step: the command of the line of this number that asks for this.
///
/// # Errors
///
/// Those of `read_line`.
pub fn finish_line<H: RegexHost>(
    alloc: Global,
    line: u32,
    bytes: &[u8],
    asked: Asked,
    memo: &mut Memo,
    host: &mut H,
) -> Result<Command, LineFault>
    requires asks { AsksFor line bytes.now asked }
    ensures read { IfOk result (λ command. spec.command_of line bytes.now ≡ Ok (command_seen command)) }
    ensures within_limits { IfOk result (λ command. spec.IsWithinLimits (command_seen command)) }
    ensures refused { IfErr result
        (IsFaultOfLine line bytes.now (Rose (H.faults host.old) (H.faults host.new))) }
    ensures calm { IsCalm (H.faults host.old) (H.faults host.new) result }
    ensures later { H.faults host.old ≤ H.faults host.new }
{
    match asked {
        Asked::Command(command) => Ok(command),
        Asked::Update(name) => update_of(alloc, line, bytes, name, &mut memo.scratch, host),
        Asked::Batch => batch_of(alloc, line, bytes, &mut memo.scratch, host),
    }
}

// Whether the line has spaces and tabs alone.
fn is_blank(bytes: &[u8]) -> bool
    ensures { result ≡ lines.is_blank bytes.now }
{
    bytes.iter().all(|byte| *byte == b' ' || *byte == b'\t')
}

// What a line that is not blank asks for.
fn asked_of(alloc: Global, line: u32, bytes: &[u8], memo: &mut Memo) -> Result<Asked, LineFault>
    ensures read { IfOk result (IsAsked line (tree_of bytes.now)) }
    ensures refused { IfErr result (IsFaultOf (spec.command_of_tree line (tree_of bytes.now))) }
{
    let mut fields = line_fields();
    asked_by(
        alloc,
        line,
        bytes,
        &mut memo.scratch,
        &mut memo.spare,
        &mut memo.asker,
        &mut fields,
    )
}

// The same by these fields, of which nothing was read yet.
fn asked_by<'a>(
    alloc: Global,
    line: u32,
    bytes: &'a [u8],
    scratch: &'a mut Scratch,
    spare: &mut Scratch,
    asker: &mut Option<Asker>,
    fields: &mut [Field<'static, 'a>],
) -> Result<Asked, LineFault>
    requires keys { map key_of fields.old ≡ line_keys }
    requires apart { AreApart fields.old }
    requires empty { All IsEmpty fields.old }
    ensures read { IfOk result (IsAsked line (tree_of bytes.now)) }
    ensures refused { IfErr result (IsFaultOf (spec.command_of_tree line (tree_of bytes.now))) }
{
    match read_fields(alloc, bytes, scratch, fields) {
        Ok(Form::Object) => asked_in(alloc, line, bytes, spare, asker, fields),
        Ok(Form::Other) => Err(LineFault::BadCommand(CommandPath::Cmd)),
        Err(Fault::BadJson) => Err(LineFault::BadJson),
        Err(Fault::NoMemory) => Err(LineFault::NoMemory),
    }
}

fn asked_in(
    alloc: Global,
    line: u32,
    bytes: &[u8],
    spare: &mut Scratch,
    asker: &mut Option<Asker>,
    fields: &[Field<'static, '_>],
) -> Result<Asked, LineFault>
    requires all { length fields.now ≡ 9 }
    requires given { AreFieldsOf bytes.now fields.now }
    ensures read { IfOk result (Reads line fields.now (tree_of bytes.now)) }
    ensures refused { IfErr result (IsFaultFrom line fields.now (tree_of bytes.now)) }
{
    match name_in(field_at(fields, CommandPath::Cmd)) {
        Some(CommandName::Request) => match request_in(alloc, line, bytes, spare, asker, fields) {
            Ok(request) => Ok(Asked::Command(Command::Request(request))),
            Err(fault) => Err(fault),
        },
        Some(CommandName::Explain) => match request_in(alloc, line, bytes, spare, asker, fields) {
            Ok(request) => Ok(Asked::Command(Command::Explain(request))),
            Err(fault) => Err(fault),
        },
        Some(CommandName::Sync) => Ok(Asked::Command(Command::Sync)),
        Some(CommandName::Update(name)) => Ok(Asked::Update(name)),
        Some(CommandName::Batch) => Ok(Asked::Batch),
        None => Err(LineFault::BadCommand(CommandPath::Cmd)),
    }
}

// What is asked for by the text in this field.
fn name_in(cmd: &Field<'_, '_>) -> Option<CommandName>
    ensures { result ≡ name_from (value_in cmd.now) }
{
    match &cmd.held {
        None => Some(CommandName::Request),
        Some(Held::Text(name)) => CommandName::named(name),
        Some(_) => None,
    }
}

// The request.
fn request_in(
    alloc: Global,
    line: u32,
    bytes: &[u8],
    spare: &mut Scratch,
    asker: &mut Option<Asker>,
    fields: &[Field<'static, '_>],
) -> Result<Request, LineFault>
    requires all { length fields.now ≡ 9 }
    requires given { AreFieldsOf bytes.now fields.now }
    ensures read { IfOk result (λ request. request_from line fields.now (tree_of bytes.now) ≡ Ok request) }
    ensures within_limits { IfOk result IsRequest }
    ensures refused { IfErr result (IsFaultOf (request_from line fields.now (tree_of bytes.now))) }
{
    let parts = parts_in(alloc, bytes, spare, fields)?;
    request_with(alloc, line, asker, fields, &parts)
}

// The request with these frames and headers. Its fields are tested in the order in which they stand here.
#[tactic(auto, using(request_texts::proofs::Stops::stops_there), unfolding(crate::specs::Fields::request_from))]
fn request_with(
    alloc: Global,
    line: u32,
    asker: &mut Option<Asker>,
    fields: &[Field<'static, '_>],
    parts: &Value,
) -> Result<Request, LineFault>
    requires { length fields.now ≡ 9 }
    ensures read { IfOk result (λ request. request_from line fields.now (Some (view parts.now)) ≡ Ok request) }
    ensures within_limits { IfOk result IsRequest }
    ensures refused { IfErr result (IsFaultOf (request_from line fields.now (Some (view parts.now)))) }
{
    let view = url_in(alloc, field_at(fields, CommandPath::Url))?;
    let kind = kind_in(field_at(fields, CommandPath::Kind))?;
    let initiator = initiator_in(alloc, asker, field_at(fields, CommandPath::Initiator))?;
    let method = method_in(field_at(fields, CommandPath::Method))?;
    let tab = tab_in(field_at(fields, CommandPath::Tab))?;
    let frames = frames_in(alloc, parts.get(CommandPath::Frames.name()))?;
    let request_headers = headers_in(
        alloc,
        CommandPath::RequestHeaders,
        parts.get(CommandPath::RequestHeaders.name()),
    )?;
    let response_headers = headers_in(
        alloc,
        CommandPath::ResponseHeaders,
        parts.get(CommandPath::ResponseHeaders.name()),
    )?;
    Ok(Request {
        line,
        view,
        initiator,
        kind,
        method,
        tab,
        frames,
        request_headers,
        response_headers,
    })
}

// The line that asks for the update of this name.
fn update_of<H: RegexHost>(
    alloc: Global,
    line: u32,
    bytes: &[u8],
    name: UpdateName,
    scratch: &mut Scratch,
    host: &mut H,
) -> Result<Command, LineFault>
    requires { Asks (tree_of bytes.now) (CommandName.Update name) }
    ensures read { IfOk result (λ command. spec.command_of_tree line (tree_of bytes.now) ≡ Ok (command_seen command)) }
    ensures within_limits { IfOk result (λ command. spec.IsWithinLimits (command_seen command)) }
    ensures refused { IfErr result (MayRefuse (spec.command_of_tree line (tree_of bytes.now)) (λ fault.
        Rose (H.faults host.old) (H.faults host.new) × StopsIn (tree_of bytes.now) fault)) }
    ensures calm { IsCalm (H.faults host.old) (H.faults host.new) result }
    ensures later { H.faults host.old ≤ H.faults host.new }
{
    let kept = match read_update(alloc, bytes, scratch) {
        Ok(kept) => kept,
        Err(Fault::BadJson) => return Err(LineFault::BadJson),
        Err(Fault::NoMemory) => return Err(LineFault::NoMemory),
    };
    match update_of_line(alloc, name, &kept, bytes, scratch, host) {
        Ok(update) => Ok(Command::Update(update)),
        Err(fault) => Err(fault_of(fault)),
    }
}

// What a fault of its update is to the line.
fn fault_of(fault: UpdateFault) -> LineFault
    ensures { result ≡ spec.fault_of fault }
{
    match fault {
        UpdateFault::BadField(field) => LineFault::BadCommand(CommandPath::Update(field)),
        UpdateFault::RuleRefused(refusal) => LineFault::RuleRefused(refusal),
        UpdateFault::NoMemory => LineFault::NoMemory,
    }
}

// The line that asks for several updates.
fn batch_of<H: RegexHost>(
    alloc: Global,
    line: u32,
    bytes: &[u8],
    scratch: &mut Scratch,
    host: &mut H,
) -> Result<Command, LineFault>
    requires { Asks (tree_of bytes.now) CommandName.Batch }
    ensures read { IfOk result (λ command. spec.command_of_tree line (tree_of bytes.now) ≡ Ok (command_seen command)) }
    ensures within_limits { IfOk result (λ command. spec.IsWithinLimits (command_seen command)) }
    ensures refused { IfErr result (MayRefuse (spec.command_of_tree line (tree_of bytes.now)) (λ fault.
        Rose (H.faults host.old) (H.faults host.new) × StopsIn (tree_of bytes.now) fault)) }
    ensures calm { IsCalm (H.faults host.old) (H.faults host.new) result }
    ensures later { H.faults host.old ≤ H.faults host.new }
{
    let kept = match read_batch(alloc, bytes, scratch) {
        Ok(kept) => kept,
        Err(Fault::BadJson) => return Err(LineFault::BadJson),
        Err(Fault::NoMemory) => return Err(LineFault::NoMemory),
    };
    match batch_in(alloc, &kept, host) {
        Ok(updates) => Ok(Command::Batch(updates)),
        Err(fault) => Err(fault),
    }
}
