// What becomes of a request that is given by its parts.
ghost use Rattle.std.specs.Prelude.{◌≡◌, ◌≢◌, ◌<◌, ◌≤◌, ◌↔◌, None, length as length_of};
ghost use Rattle.engine.specs.Asking.{Stays};
ghost use Rattle.dnr_c.specs.Codes as codes;
ghost use Rattle.dnr_c.specs.Decides as spec;
ghost use Rattle.dnr_c.specs.Ends.{Keeps};

use crate::code::{
    BAD_FRAMES, BAD_INITIATOR, BAD_METHOD, BAD_REQUEST, BAD_REQUEST_HEADERS, BAD_RESPONSE_HEADERS,
    BAD_TAB, BAD_TYPE, BAD_URL, DONE, HOST_FAULT, IS_CLOSED, NO_MEMORY, NO_ROOM,
};
use crate::handle::Handle;
use crate::seat::Seat;
use engine::{Engine, GivenRequest, Undecided, Verdict};
use line_spec::{CommandPath, LineFault};
use std::alloc::Global;
use verdict_shown::{ShowRefusal, ShownChange, ShownRule, ShownText, ShownVerdict, show};

/// A code, and the verdict that goes with it.
#[derive(Clone, Copy)]
pub(crate) struct Judged {
    pub code: u32,
    pub verdict: ShownVerdict,
}

// The code alone.
fn unjudged(code: u32) -> Judged
    ensures { result.code ≡ code }
{
    let nowhere = ShownText { from: 0, length: 0 };
    Judged {
        code,
        verdict: ShownVerdict {
            rule: ShownRule {
                extension: nowhere,
                ruleset: nowhere,
                id: 0,
            },
            target: nowhere,
            bytes: 0,
            changes: 0,
            outcome: 0,
            generation: 0,
            has_rule: false,
            has_target: false,
        },
    }
}

// Has the seat's engine decide a request.
pub(crate) fn decided(
    seat: Seat,
    alloc: Global,
    request: &GivenRequest<'_>,
    changes: &mut [ShownChange],
    out: &mut [u8],
) -> (Seat, Judged)
    ensures decided { result.1.code ≡ codes.done
        → spec.DecidedBy seat.handle.engine request.now result.1.verdict out.new changes.new }
    ensures room { result.1.code ≡ codes.no_room → spec.LacksPlace seat.handle.engine request.now result.1.verdict
        (length_of out.old) (length_of changes.old) }
    ensures bad { codes.host_fault < result.1.code → spec.IsBad request.now result.1.code }
    ensures fault { result.1.code ≡ codes.host_fault → spec.HostFailed seat.handle.engine result.0.handle.engine }
    ensures stays { Keeps seat.handle.engine result.0.handle.engine }
    ensures untouched { result.1.code ≢ codes.done → out.new ≡ out.old }
    ensures unchanged { result.1.code ≢ codes.done → changes.new ≡ changes.old }
    ensures closed { (result.1.code ≡ codes.is_closed) ↔ (seat.handle.engine ≡ None) }
{
    if !seat.is_open {
        return (seat, unjudged(IS_CLOSED));
    }
    let mut engine = seat.handle.into_box();
    let judged = decide(&mut engine, alloc, request, changes, out);
    let handle = Handle::of(engine);
    (
        Seat {
            handle,
            is_open: true,
        },
        judged,
    )
}

fn decide(
    engine: &mut Engine,
    alloc: Global,
    request: &GivenRequest<'_>,
    changes: &mut [ShownChange],
    out: &mut [u8],
) -> Judged
    ensures decided { result.code ≡ codes.done
        → spec.Decided engine.old request.now result.verdict out.new changes.new }
    ensures room { result.code ≡ codes.no_room → spec.Lacks engine.old request.now result.verdict (length_of out.old)
        (length_of changes.old) }
    ensures bad { codes.host_fault < result.code → spec.IsBad request.now result.code }
    ensures fault { result.code ≡ codes.host_fault → spec.Failed engine.old engine.new }
    ensures stays { Stays engine.old engine.new }
    ensures untouched { result.code ≢ codes.done → out.new ≡ out.old }
    ensures unchanged { result.code ≢ codes.done → changes.new ≡ changes.old }
    ensures open { result.code ≢ codes.is_closed }
{
    let generation = engine.number();
    match engine.decide(alloc, 1, request) {
        Ok(verdict) => shown(alloc, generation, &verdict, changes, out),
        Err(Undecided::Bad(fault)) => unjudged(code_of(&fault)),
        Err(Undecided::HostFault(_)) => unjudged(HOST_FAULT),
        Err(Undecided::NoMemory) => unjudged(NO_MEMORY),
    }
}

// Shows what becomes of the request.
fn shown(
    alloc: Global,
    generation: u32,
    verdict: &Verdict,
    changes: &mut [ShownChange],
    out: &mut [u8],
) -> Judged
    ensures shown { result.code ≡ codes.done → spec.IsShown generation verdict.now result.verdict out.new changes.new }
    ensures room { result.code ≡ codes.no_room → spec.TakesMoreFor generation verdict.now result.verdict
        (length_of out.old) (length_of changes.old) }
    ensures untouched { result.code ≢ codes.done → out.new ≡ out.old }
    ensures unchanged { result.code ≢ codes.done → changes.new ≡ changes.old }
    ensures known { (result.code ≢ codes.is_closed) × (result.code < codes.host_fault) }
{
    match show(alloc, generation, verdict, out, changes) {
        Ok(verdict) => Judged {
            code: DONE,
            verdict,
        },
        Err(ShowRefusal::Room(verdict)) => Judged {
            code: NO_ROOM,
            verdict,
        },
        Err(ShowRefusal::NoMemory) => unjudged(NO_MEMORY),
    }
}

// The code of a fault of a request.
fn code_of(fault: &LineFault) -> u32
    ensures value { result ≡ spec.fault_code fault.now }
    ensures least { codes.host_fault < result }
{
    match fault {
        LineFault::BadCommand(part) => part_code(*part),
        LineFault::BadUrl(part, _) => part_code(*part),
        _ => BAD_REQUEST,
    }
}

fn part_code(part: CommandPath) -> u32
    ensures value { result ≡ spec.part_code part }
    ensures least { codes.host_fault < result }
{
    match part {
        CommandPath::Url => BAD_URL,
        CommandPath::Kind => BAD_TYPE,
        CommandPath::Initiator => BAD_INITIATOR,
        CommandPath::Method => BAD_METHOD,
        CommandPath::Tab => BAD_TAB,
        CommandPath::Frames => BAD_FRAMES,
        CommandPath::RequestHeaders => BAD_REQUEST_HEADERS,
        CommandPath::ResponseHeaders => BAD_RESPONSE_HEADERS,
        _ => BAD_REQUEST,
    }
}
