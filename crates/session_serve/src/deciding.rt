//! The answer to a request, by one of the hosts.
ghost use Rattle.std.specs.Prelude.{◌≡◌, ◌≤◌, ◌++◌, length, OnOk, string_bytes};
ghost use Rattle.dnr_base.specs.Request.{max_frames};
ghost use Rattle.session_spec.specs.Answers.{Decides, Explains};
ghost use Rattle.session_spec.specs.Output.{fault_line};
ghost use Rattle.session_serve.specs.Told.{AnswerTold};

use dnr_base::{NoMemory, Request, RuleName};
use explain_report::{Reply, write_explain, write_reply, write_verdict};
use generation::{DecideRefusal, Generation};
use regex_host::RegexHost;
use std::alloc::Global;

/// Appends what becomes of a request, or that the host failed.
pub fn decide<H: RegexHost>(
    alloc: Global,
    generation: &Generation,
    number: u32,
    request: &Request,
    finder: &mut H,
    into: &mut String,
) -> Result<(), NoMemory>
    requires { length request.now.frames ≤ max_frames }
    ensures told { OnOk result (AnswerTold (Decides generation.now.suffixes request.now) generation.now.state number
        (string_bytes into.old) (string_bytes into.new) (H.faults finder.old) (H.faults finder.new)) }
    ensures later { H.faults finder.old ≤ H.faults finder.new }
{
    // The count is a `u64`, so it has not fallen where it rose.
    let _failed = finder.faults();
    match generation.decide_uncounted(alloc, request, finder) {
        Ok(verdict) => write_verdict(alloc, number, generation.number(), &verdict, into),
        Err(DecideRefusal::HostFault(rule)) => say_fault(
            alloc,
            number,
            generation.number(),
            rule,
            into,
        ),
        Err(DecideRefusal::NoMemory) => Err(NoMemory),
    }
}

/// Appends what becomes of a request and why, or that the host failed.
pub fn explain<H: RegexHost>(
    alloc: Global,
    generation: &Generation,
    number: u32,
    request: &Request,
    finder: &mut H,
    into: &mut String,
) -> Result<(), NoMemory>
    requires { length request.now.frames ≤ max_frames }
    ensures told { OnOk result (AnswerTold (Explains generation.now.suffixes request.now) generation.now.state number
        (string_bytes into.old) (string_bytes into.new) (H.faults finder.old) (H.faults finder.new)) }
    ensures later { H.faults finder.old ≤ H.faults finder.new }
{
    let _failed = finder.faults();
    match generation.explain_uncounted(alloc, request, finder) {
        Ok(explanation) => { write_explain(alloc, number, generation.number(), &explanation, into) }
        Err(DecideRefusal::HostFault(rule)) => say_fault(
            alloc,
            number,
            generation.number(),
            rule,
            into,
        ),
        Err(DecideRefusal::NoMemory) => Err(NoMemory),
    }
}

fn say_fault(
    alloc: Global,
    number: u32,
    count: u32,
    rule: RuleName,
    into: &mut String,
) -> Result<(), NoMemory>
    ensures { OnOk result (string_bytes into.new ≡ string_bytes into.old ++ fault_line number count rule) }
{
    write_reply(alloc, number, &Reply::Fault(count, rule), into)
}
