//! What becomes of a request that is given by its parts.
ghost use Rattle.std.specs.Prelude.{◌≡◌, ◌≤◌, length, IfOk, IfErr};
ghost use Rattle.dnr_base.specs.Request.{max_frames};
ghost use Rattle.request_given.specs.Reads.{request_of};
ghost use Rattle.rule_spec.specs.Scan.{scan};
ghost use Rattle.engine.specs.Decided.{Fails, IsDecidedBy, IsUndecidedBy};

use dnr_base::{Request, RuleName};
use generation::{DecideRefusal, Generation, Verdict};
use line_spec::LineFault;
use regex_host::RegexHost;
use request_given::{GivenRequest, read_request};
use std::alloc::Global;

/// Why a request is not decided.
#[derive(Debug, Drop)]
pub enum Undecided {
    /// This part of it is the first at fault.
    Bad(LineFault),
    /// The pattern host failed on the `regexFilter` of this rule, and its count of faults rose.
    HostFault(RuleName),
    /// Memory ran out.
    NoMemory,
}

// What becomes of the request of these parts, which has this number.
#[tactic(auto, using(crate::proofs::Decides::decided_so, crate::proofs::Decides::bad_so))]
pub(crate) fn decide<H: RegexHost>(
    alloc: Global,
    generation: &Generation,
    number: u32,
    given: &GivenRequest<'_>,
    host: &mut H,
) -> Result<Verdict, Undecided>
    ensures decided { IfOk result (IsDecidedBy generation.now.suffixes generation.now.state
        (request_of number given.now)) }
    ensures undecided { IfErr result (IsUndecidedBy generation.now.state (request_of number given.now)
        (H.faults host.old) (H.faults host.new)) }
    ensures later { H.faults host.old ≤ H.faults host.new }
{
    match read_request(alloc, number, given) {
        Ok(request) => judge(alloc, generation, &request, host),
        Err(LineFault::NoMemory) => Err(Undecided::NoMemory),
        Err(fault) => Err(Undecided::Bad(fault)),
    }
}

// What becomes of a request.
#[tactic(auto, using(crate::proofs::Decides::ends_later))]
fn judge<H: RegexHost>(
    alloc: Global,
    generation: &Generation,
    request: &Request,
    host: &mut H,
) -> Result<Verdict, Undecided>
    requires { length request.now.frames ≤ max_frames }
    ensures verdict { IfOk result (λ verdict. verdict ≡ scan generation.now.suffixes generation.now.state request.now) }
    ensures undecided { IfErr result (Fails generation.now.state (H.faults host.old) (H.faults host.new)) }
    ensures later { H.faults host.old ≤ H.faults host.new }
{
    // The count is a `u64`, so it has not fallen where it rose.
    let _failed = host.faults();
    match generation.decide_uncounted(alloc, request, host) {
        Ok(verdict) => Ok(verdict),
        Err(DecideRefusal::HostFault(rule)) => Err(Undecided::HostFault(rule)),
        Err(DecideRefusal::NoMemory) => Err(Undecided::NoMemory),
    }
}
