//! Where a request leads, by one of the hosts.
ghost use Rattle.std.specs.Prelude.{◌≡◌, ◌≤◌, length, IfOk, OnOk, string_bytes};
ghost use Rattle.dnr_base.specs.Request.{max_frames};
ghost use Rattle.follow_chain.specs.Refused.{Ends, IsBlamed};
ghost use Rattle.follow_spec.specs.Trace as spec;
ghost use Rattle.session_spec.specs.Answers.{AnswersBy, Follows};
ghost use Rattle.session_serve.specs.Told.{AnswerTold};

use crate::deciding::decide;
use dnr_base::{NoMemory, Request, Steps};
use explain_report::{write_hop_fault, write_trace};
use follow_chain::{FollowRefusal, Trace, follow};
use generation::Generation;
use regex_host::RegexHost;
use std::alloc::Global;
use std::marker::Brand;
use std::sync::ledger::{Blank, Ledger};

/// Appends what becomes of a request, or where it leads where requests are followed; or that the host failed.
pub(crate) fn answer_request<H: RegexHost>(
    alloc: Global,
    generation: &Generation,
    follows: bool,
    number: u32,
    request: &Request,
    finder: &mut H,
    into: &mut String,
) -> Result<(), NoMemory>
    requires { length request.now.frames ≤ max_frames }
    ensures told { OnOk result (AnswerTold (AnswersBy follows generation.now.suffixes request.now) generation.now.state number
        (string_bytes into.old) (string_bytes into.new) (H.faults finder.old) (H.faults finder.new)) }
    ensures later { H.faults finder.old ≤ H.faults finder.new }
{
    if follows {
        tell_trace(alloc, generation, number, request, finder, into)
    } else {
        decide(alloc, generation, number, request, finder, into)
    }
}

// Appends where a request leads, or at which hop the host failed.
fn tell_trace<H: RegexHost>(
    alloc: Global,
    generation: &Generation,
    number: u32,
    request: &Request,
    finder: &mut H,
    into: &mut String,
) -> Result<(), NoMemory>
    requires { length request.now.frames ≤ max_frames }
    ensures told { OnOk result (AnswerTold (Follows generation.now.suffixes request.now) generation.now.state number
        (string_bytes into.old) (string_bytes into.new) (H.faults finder.old) (H.faults finder.new)) }
    ensures later { H.faults finder.old ≤ H.faults finder.new }
{
    // The count is a `u64`, so it has not fallen where it rose.
    let _failed = finder.faults();
    match trace_of(alloc, generation, request, finder) {
        Ok(trace) => write_trace(alloc, number, &trace, into),
        Err(FollowRefusal::HostFault(hop, rule)) => write_hop_fault(
            alloc, number, hop, &rule, into,
        ),
        Err(FollowRefusal::NoMemory) => Err(NoMemory),
    }
}

// Where a request leads. No steps are counted.
fn trace_of<H: RegexHost>(
    alloc: Global,
    generation: &Generation,
    request: &Request,
    host: &mut H,
) -> Result<Trace, FollowRefusal>
    requires { length request.now.frames ≤ max_frames }
    ensures trace { IfOk result (λ told. told ≡ spec.trace generation.now.suffixes generation.now.state request.now) }
    ensures ends { Ends (IsBlamed generation.now.state (length (spec.trace generation.now.suffixes generation.now.state request.now).hops))
        (H.faults host.old) (H.faults host.new) result }
{
    trace_over::<H, Brand>(alloc, generation, request, host, Blank::new(1))
}

fn trace_over<H: RegexHost, L: Ledger>(
    alloc: Global,
    generation: &Generation,
    request: &Request,
    host: &mut H,
    blank: Blank,
) -> Result<Trace, FollowRefusal>
    requires frames { length request.now.frames ≤ max_frames }
    requires name { blank.name ≡ L.name }
    requires parts { blank.parts ≡ L.parts }
    requires one { blank.parts ≡ 1 }
    ensures trace { IfOk result (λ told. told ≡ spec.trace generation.now.suffixes generation.now.state request.now) }
    ensures ends { Ends (IsBlamed generation.now.state (length (spec.trace generation.now.suffixes generation.now.state request.now).hops))
        (H.faults host.old) (H.faults host.new) result }
{
    let mut steps = Steps::<L>::open(blank);
    follow(alloc, generation, request, host, &mut steps)
}
