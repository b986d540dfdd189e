// The request of parts. They are tested in the order in which those of a line are.
ghost use Rattle.std.specs.Prelude.{◌≡◌, ◌≤◌, length, Ok, IfOk, IfErr, option_map};
ghost use Rattle.std.specs.List.{slice_get};
ghost use Rattle.dnr_base.specs.Kind.{all_kinds};
ghost use Rattle.dnr_base.specs.Method.{all_methods};
ghost use Rattle.dnr_base.specs.Request.{max_frames};
ghost use Rattle.line_spec.specs.IsFault.{IsFaultOf};
ghost use Rattle.line_spec.specs.RequestLine as line;
ghost use Rattle.request_given.specs.Reads as spec;

use crate::{GivenFrame, GivenHeader, GivenRequest};
use dnr_base::{Frame, Header, Items, Kind, Method, Request, Text, View};
use line_spec::{CommandPath, LineFault};
use request_texts::{asking_host, header_of, view_at};
use std::alloc::Global;
use std::str;

// The most frames of a request, and the most headers of one list.
const MAX_FRAMES: usize = 64;

const MAX_HEADERS: usize = 512;

// The greatest number of a tab.
const MAX_TAB: u32 = 2_147_483_647;

/// The request of these parts, which has this number.
///
/// # Errors
///
/// - `BadCommand`: this part is the first at fault: it is no text, or no number of its list, or there are too many.
/// - `BadUrl`: this part is the first at fault, and its text, or the one of a frame, is no URL that is decided.
/// - `NoMemory`: memory ran out.
#[tactic(auto, using(request_texts::proofs::Stops::stops_there), unfolding(crate::specs::Reads::request_of))]
pub fn read_request(
    alloc: Global,
    number: u32,
    given: &GivenRequest<'_>,
) -> Result<Request, LineFault>
    ensures read { IfOk result (λ request. spec.request_of number given.now ≡ Ok request) }
    ensures few { IfOk result (λ request. length request.frames ≤ max_frames) }
    ensures refused { IfErr result (IsFaultOf (spec.request_of number given.now)) }
{
    let view = url_of(alloc, CommandPath::Url, given.url)?;
    let kind = kind_at(given.kind)?;
    let initiator = asker_of(
        alloc,
        CommandPath::Initiator,
        given.has_initiator,
        given.initiator,
    )?;
    let method = method_at(CommandPath::Method, given.method)?;
    let tab = tab_of(given.has_tab, given.tab)?;
    let frames = frames_of(alloc, given.frames)?;
    let request_headers = headers_of(
        alloc,
        CommandPath::RequestHeaders,
        given.has_request_headers,
        given.request_headers,
    )?;
    let response_headers = headers_of(
        alloc,
        CommandPath::ResponseHeaders,
        given.has_response_headers,
        given.response_headers,
    )?;
    Ok(Request {
        line: number,
        view,
        initiator,
        kind,
        method,
        tab,
        frames,
        request_headers,
        response_headers,
    })
}

// ---- one part

#[tactic(auto, using(crate::proofs::Texts::text_is, crate::proofs::Texts::no_text_is))]
fn text_of<'a>(bytes: &'a [u8]) -> Option<&'a str>
    ensures { option_map (λ text. text.now) result ≡ spec.as_text bytes.now }
{
    match str::from_utf8(bytes) {
        Ok(text) => Some(text),
        Err(_) => None,
    }
}

// The URL of a text, which is this part.
fn url_of(alloc: Global, part: CommandPath, bytes: &[u8]) -> Result<View, LineFault>
    ensures read { IfOk result (λ view. spec.url_of part bytes.now ≡ Ok view) }
    ensures refused { IfErr result (IsFaultOf (spec.url_of part bytes.now)) }
{
    match text_of(bytes) {
        Some(text) => view_at(alloc, part, text),
        None => Err(LineFault::BadCommand(part)),
    }
}

// The host of who asks, if anybody does.
fn asker_of(
    alloc: Global,
    part: CommandPath,
    is_given: bool,
    bytes: &[u8],
) -> Result<Option<Text>, LineFault>
    ensures read { IfOk result (λ host. spec.asker_of part is_given bytes.now ≡ Ok host) }
    ensures refused { IfErr result (IsFaultOf (spec.asker_of part is_given bytes.now)) }
{
    if !is_given {
        return Ok(None);
    }
    match text_of(bytes) {
        Some(text) => asking_host(alloc, part, text),
        None => Err(LineFault::BadCommand(part)),
    }
}

fn kind_at(place: u32) -> Result<Kind, LineFault>
    ensures read { IfOk result (λ kind. spec.kind_at place ≡ Ok kind) }
    ensures refused { IfErr result (IsFaultOf (spec.kind_at place)) }
{
    match kind_of(place) {
        Some(kind) => Ok(kind),
        None => Err(LineFault::BadCommand(CommandPath::Kind)),
    }
}

fn kind_of(place: u32) -> Option<Kind>
    ensures { result ≡ slice_get all_kinds place }
{
    Kind::ALL.get(place as usize).copied()
}

fn method_at(part: CommandPath, place: u32) -> Result<Method, LineFault>
    ensures read { IfOk result (λ method. spec.method_at part place ≡ Ok method) }
    ensures refused { IfErr result (IsFaultOf (spec.method_at part place)) }
{
    match method_of(place) {
        Some(method) => Ok(method),
        None => Err(LineFault::BadCommand(part)),
    }
}

fn method_of(place: u32) -> Option<Method>
    ensures { result ≡ slice_get all_methods place }
{
    Method::ALL.get(place as usize).copied()
}

fn tab_of(is_given: bool, tab: u32) -> Result<i32, LineFault>
    ensures read { IfOk result (λ number. spec.tab_of is_given tab ≡ Ok number) }
    ensures refused { IfErr result (IsFaultOf (spec.tab_of is_given tab)) }
{
    if !is_given {
        return Ok(-1);
    }
    if tab <= MAX_TAB {
        Ok(tab as i32)
    } else {
        Err(LineFault::BadCommand(CommandPath::Tab))
    }
}

// ---- frames

fn frames_of(alloc: Global, frames: &[GivenFrame<'_>]) -> Result<Items<Frame>, LineFault>
    ensures read { IfOk result (λ read. spec.frames_of frames.now ≡ Ok read) }
    ensures few { IfOk result (λ read. length read ≤ max_frames) }
    ensures refused { IfErr result (IsFaultOf (spec.frames_of frames.now)) }
{
    if frames.len() > MAX_FRAMES {
        return Err(LineFault::BadCommand(CommandPath::Frames));
    }
    each_frame(alloc, frames)
}

#[tactic(auto, using(crate::proofs::Each::each_begins, crate::proofs::Each::each_goes, crate::proofs::Each::each_stops, crate::proofs::Each::each_ends))]
fn each_frame(alloc: Global, frames: &[GivenFrame<'_>]) -> Result<Items<Frame>, LineFault>
    ensures read { IfOk result (λ read. spec.each_of spec.frame_of frames.now ≡ Ok read) }
    ensures count { IfOk result (λ read. length read ≡ length frames.now) }
    ensures refused { IfErr result (IsFaultOf (spec.each_of spec.frame_of frames.now)) }
{
    let mut read = Vec::with_capacity(alloc, frames.len())?;
    for frame in frames {
        read.push(frame_of(alloc, frame)?)?;
    }
    Ok(Items::build(read))
}

#[tactic(auto, using(request_texts::proofs::Stops::stops_there), unfolding(crate::specs::Reads::frame_of))]
fn frame_of(alloc: Global, frame: &GivenFrame<'_>) -> Result<Frame, LineFault>
    ensures read { IfOk result (λ read. spec.frame_of frame.now ≡ Ok read) }
    ensures refused { IfErr result (IsFaultOf (spec.frame_of frame.now)) }
{
    let view = frame_url(alloc, frame.has_url, frame.url)?;
    let initiator = asker_of(
        alloc,
        CommandPath::Frames,
        frame.has_initiator,
        frame.initiator,
    )?;
    let method = method_at(CommandPath::Frames, frame.method)?;
    Ok(Frame {
        view,
        initiator,
        method,
    })
}

#[tactic(auto, using(request_texts::proofs::Stops::stops_there))]
fn frame_url(alloc: Global, is_given: bool, bytes: &[u8]) -> Result<Option<View>, LineFault>
    ensures read { IfOk result (λ view. spec.frame_url is_given bytes.now ≡ Ok view) }
    ensures refused { IfErr result (IsFaultOf (spec.frame_url is_given bytes.now)) }
{
    if !is_given {
        return Ok(None);
    }
    let view = url_of(alloc, CommandPath::Frames, bytes)?;
    Ok(Some(view))
}

// ---- headers

#[tactic(auto, using(request_texts::proofs::Stops::stops_there))]
fn headers_of(
    alloc: Global,
    part: CommandPath,
    are_given: bool,
    headers: &[GivenHeader<'_>],
) -> Result<Option<Items<Header>>, LineFault>
    ensures read { IfOk result (λ read. spec.headers_of part are_given headers.now ≡ Ok read) }
    ensures refused { IfErr result (IsFaultOf (spec.headers_of part are_given headers.now)) }
{
    if !are_given {
        return Ok(None);
    }
    let read = few_headers(alloc, part, headers)?;
    Ok(Some(read))
}

fn few_headers(
    alloc: Global,
    part: CommandPath,
    headers: &[GivenHeader<'_>],
) -> Result<Items<Header>, LineFault>
    ensures read { IfOk result (λ read. spec.few_headers part headers.now ≡ Ok read) }
    ensures refused { IfErr result (IsFaultOf (spec.few_headers part headers.now)) }
{
    if headers.len() > MAX_HEADERS {
        return Err(LineFault::BadCommand(part));
    }
    each_header(alloc, part, headers)
}

#[tactic(auto, using(crate::proofs::Each::each_begins, crate::proofs::Each::each_goes, crate::proofs::Each::each_stops, crate::proofs::Each::each_ends))]
fn each_header(
    alloc: Global,
    part: CommandPath,
    headers: &[GivenHeader<'_>],
) -> Result<Items<Header>, LineFault>
    ensures read { IfOk result (λ read. spec.each_of (spec.header_at part) headers.now ≡ Ok read) }
    ensures refused { IfErr result (IsFaultOf (spec.each_of (spec.header_at part) headers.now)) }
{
    let mut read = Vec::with_capacity(alloc, headers.len())?;
    for header in headers {
        read.push(header_at(alloc, part, header)?)?;
    }
    Ok(Items::build(read))
}

fn header_at(
    alloc: Global,
    part: CommandPath,
    header: &GivenHeader<'_>,
) -> Result<Header, LineFault>
    ensures read { IfOk result (λ read. spec.header_at part header.now ≡ Ok read) }
    ensures refused { IfErr result (IsFaultOf (spec.header_at part header.now)) }
{
    match header_of(alloc, text_of(header.name), text_of(header.value))? {
        Some(header) => Ok(header),
        None => Err(LineFault::BadCommand(part)),
    }
}
