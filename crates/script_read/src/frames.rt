// The frames of a request.
ghost use Rattle.std.specs.Prelude.{◌≡◌, ◌≤◌, length, Ok, IfOk, IfErr, option_map};
ghost use Rattle.serde_json.specs.View.{view, items_view};
ghost use Rattle.dnr_base.specs.Request.{max_frames};
ghost use Rattle.line_spec.specs.IsFault.{IsFaultOf};
ghost use Rattle.line_spec.specs.RequestLine as spec;

use dnr_base::{Frame, Items, Method, Text, View};
use json_spec::as_method;
use line_spec::{CommandPath, LineFault};
use request_texts::{asking_host, view_at};
use serde_json::Value;
use std::alloc::Global;

// The most frames of a request.
const MAX_FRAMES: usize = 64;

// The frames in which the request is asked for.
#[tactic(auto, using(crate::proofs::Limits::count_is))]
pub(crate) fn frames_in(alloc: Global, frames: Option<&Value>) -> Result<Items<Frame>, LineFault>
    ensures read { IfOk result (λ read. spec.frames_given (option_map (λ v. view v.now) frames.entry) ≡ Ok read) }
    ensures few { IfOk result (λ read. length read ≤ max_frames) }
    ensures refused { IfErr result (IsFaultOf (spec.frames_given (option_map (λ v. view v.now) frames.entry))) }
{
    let Some(list) = frames else {
        return Ok(Items::build(Vec::new(alloc)));
    };
    match list.as_array() {
        Some(values) if values.len() <= MAX_FRAMES => each_frame(alloc, values.as_slice()),
        _ => Err(LineFault::BadCommand(CommandPath::Frames)),
    }
}

#[tactic(auto, using(crate::proofs::FramesRead::frames_begin, crate::proofs::FramesRead::frames_go, crate::proofs::FramesRead::frames_stop, crate::proofs::FramesRead::frames_end))]
fn each_frame(alloc: Global, values: &[Value]) -> Result<Items<Frame>, LineFault>
    ensures read { IfOk result (λ frames. spec.each_frame (items_view values.now) ≡ Ok frames) }
    ensures refused { IfErr result (IsFaultOf (spec.each_frame (items_view values.now))) }
{
    let mut frames = Vec::with_capacity(alloc, values.len())?;
    for value in values {
        frames.push(frame_in(alloc, value)?)?;
    }
    Ok(Items::build(frames))
}

#[tactic(auto, unfolding(line_spec::specs::RequestLine::frame_in))]
fn frame_in(alloc: Global, value: &Value) -> Result<Frame, LineFault>
    ensures read { IfOk result (λ frame. spec.frame_in (view value.now) ≡ Ok frame) }
    ensures refused { IfErr result (IsFaultOf (spec.frame_in (view value.now))) }
{
    let view = frame_url(alloc, value.get(CommandPath::Url.name()))?;
    let initiator = frame_initiator(alloc, value)?;
    let method = frame_method(value)?;
    Ok(Frame {
        view,
        initiator,
        method,
    })
}

// The URL of a frame, which must be given, by null where it has none.
fn frame_url(alloc: Global, url: Option<&Value>) -> Result<Option<View>, LineFault>
    ensures read { IfOk result (λ url_read. spec.frame_url (option_map (λ v. view v.now) url.entry) ≡ Ok url_read) }
    ensures refused { IfErr result (IsFaultOf (spec.frame_url (option_map (λ v. view v.now) url.entry))) }
{
    match url {
        Some(Value::Null) => Ok(None),
        Some(Value::String(text)) => Ok(Some(view_at(alloc, CommandPath::Frames, text.as_str())?)),
        _ => Err(LineFault::BadCommand(CommandPath::Frames)),
    }
}

// The host of who asked for the frame.
#[tactic(auto, unfolding(line_spec::specs::RequestLine::initiator_in))]
fn frame_initiator(alloc: Global, tree: &Value) -> Result<Option<Text>, LineFault>
    ensures read { IfOk result (λ host. spec.initiator_in CommandPath.Frames (view tree.now) ≡ Ok host) }
    ensures refused { IfErr result
        (IsFaultOf (spec.initiator_in CommandPath.Frames (view tree.now))) }
{
    match tree.get(CommandPath::Initiator.name()) {
        None | Some(Value::Null) => Ok(None),
        Some(Value::String(text)) => asking_host(alloc, CommandPath::Frames, text.as_str()),
        Some(_) => Err(LineFault::BadCommand(CommandPath::Frames)),
    }
}

// How the frame was asked for.
#[tactic(auto, unfolding(line_spec::specs::RequestLine::method_in))]
fn frame_method(tree: &Value) -> Result<Method, LineFault>
    ensures read { IfOk result (λ method. spec.method_in CommandPath.Frames (view tree.now) ≡ Ok method) }
    ensures refused { IfErr result
        (IsFaultOf (spec.method_in CommandPath.Frames (view tree.now))) }
{
    let Some(value) = tree.get(CommandPath::Method.name()) else {
        return Ok(Method::Get);
    };
    match as_method(value) {
        Some(method) => Ok(method),
        None => Err(LineFault::BadCommand(CommandPath::Frames)),
    }
}
