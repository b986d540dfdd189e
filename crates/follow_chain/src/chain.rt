ghost use Rattle.std.specs.Prelude.{◌≡◌, ◌≤◌, ◌+◌, length, sum_by, IfOk, OnOk};
ghost use Rattle.dnr_base.specs.Request.{max_frames};
ghost use Rattle.follow_chain.specs.Refused.{Ends, IsBlamed, IsBlamedAt};
ghost use Rattle.follow_spec.specs.Trace as spec;
ghost use Rattle.index_spec.specs.Pairs.{pairs_of};

use crate::next::{MAX_HOPS, push_hop};
use crate::sent::sent_to;
use crate::{FollowRefusal, Hop, Trace};
use dnr_base::{Items, Request, Steps};
use follow_spec::{End, Next};
use generation::{DecideRefusal, Generation};
use regex_host::RegexHost;
use std::alloc::Global;
use std::sync::ledger::Ledger;

/// Where a request leads, which has at most 64 frames: what becomes of it, and of it again at each URL that it is
/// redirected or upgraded to, until it is sent nowhere, to what is no URL of a view, to the URL of a hop, or on from
/// the 20th hop. All else that the request says of itself stays the same. Where it is not sent on this is what
/// `Generation::decide` does, and no more.
///
/// As many tests of rules are made as `Generation::decide` may make for the requests of the hops, at most.
///
/// Source: Fetch Standard, "HTTP-redirect fetch", which follows 20 redirects at most; here the request itself counts
/// among the 20 hops.
///
/// # Errors
///
/// - `HostFault`: the host failed at this hop, which is one of the trace and counted from 0, on the `regexFilter` of
///   the rule that is named, which is in force. Its count of faults rose in this call; without such an answer it
///   stays.
/// - `NoMemory`: memory ran out.
pub fn follow<H: RegexHost, L: Ledger>(
    alloc: Global,
    generation: &Generation,
    request: &Request,
    host: &mut H,
    steps: &mut Steps<L>,
) -> Result<Trace, FollowRefusal>
    requires { length request.now.frames ≤ max_frames }
    ensures trace { let known = generation.now in
        IfOk result (λ told. told ≡ spec.trace known.suffixes known.state request.now) }
    ensures bound { let known = generation.now in
        let requests = spec.requests_of known.suffixes known.state request.now in
        steps.new ≤ steps.old + sum_by (pairs_of known.state) requests }
    ensures ends { let known = generation.now in
        let told = spec.trace known.suffixes known.state request.now in
        Ends (IsBlamed known.state (length told.hops)) (H.faults host.old) (H.faults host.new) result }
{
    let mut hops = Vec::new(alloc);
    match add_hop(alloc, generation, 0, request, &mut hops, host, steps)? {
        Next::Ends(end) => Ok(Trace {
            hops: Items::build(hops),
            end,
        }),
        Next::Follows(view) => {
            let sent = sent_to(alloc, view, request)?;
            follow_on(alloc, generation, sent, hops, host, steps)
        }
    }
}

// Where a request leads that the first hop is sent on as.
fn follow_on<H: RegexHost, L: Ledger>(
    alloc: Global,
    generation: &Generation,
    mut request: Request,
    mut hops: Vec<Hop>,
    host: &mut H,
    steps: &mut Steps<L>,
) -> Result<Trace, FollowRefusal>
    requires frames { length request.frames ≤ max_frames }
    requires first { length hops.items ≡ 1 }
    ensures trace { let known = generation.now in
        IfOk result (λ told. told ≡ spec.trace_from known.suffixes known.state 19 hops.items request) }
    ensures bound { let known = generation.now in
        let requests = spec.requests_from known.suffixes known.state 19 hops.items request in
        steps.new ≤ steps.old + sum_by (pairs_of known.state) requests }
    ensures ends { let known = generation.now in
        let told = spec.trace_from known.suffixes known.state 19 hops.items request in
        Ends (IsBlamed known.state (length told.hops)) (H.faults host.old) (H.faults host.new) result }
{
    for place in 1..MAX_HOPS {
        match add_hop(alloc, generation, place, &request, &mut hops, host, steps)? {
            Next::Ends(end) => {
                return Ok(Trace {
                    hops: Items::build(hops),
                    end,
                });
            }
            Next::Follows(view) => request.view = view,
        }
    }
    Ok(Trace {
        hops: Items::build(hops),
        end: End::Bound,
    })
}

// Decides the request, whose hop has this place, and puts that behind the hops. It says what follows.
fn add_hop<H: RegexHost, L: Ledger>(
    alloc: Global,
    generation: &Generation,
    place: u32,
    request: &Request,
    hops: &mut Vec<Hop>,
    host: &mut H,
    steps: &mut Steps<L>,
) -> Result<Next, FollowRefusal>
    requires { length request.now.frames ≤ max_frames }
    ensures hops { let known = generation.now in
        let all = spec.with_hop known.suffixes known.state hops.old.items request.now in
        OnOk result (hops.new.items ≡ all) }
    ensures next { let known = generation.now in
        let next = spec.next_behind known.suffixes known.state hops.new.items request.now in
        IfOk result (λ told. told ≡ next) }
    ensures bound { steps.new ≤ steps.old + pairs_of generation.now.state request.now }
    ensures ends { let blamed = IsBlamedAt generation.now.state place in
        Ends blamed (H.faults host.old) (H.faults host.new) result }
{
    match generation.decide(alloc, request, host, steps) {
        Ok(verdict) => {
            push_hop(alloc, &request.view, verdict, hops).map_err(|_| FollowRefusal::NoMemory)
        }
        Err(DecideRefusal::HostFault(rule)) => Err(FollowRefusal::HostFault(place, rule)),
        Err(DecideRefusal::NoMemory) => Err(FollowRefusal::NoMemory),
    }
}
