ghost use Rattle.std.specs.Prelude.{◌≡◌, IsSome, IfOk, IsErrOf, Some, [], ◌∷◌};
ghost use Rattle.dnr_base.specs.Faults.{HasCauseOf};
ghost use Rattle.generation.specs.Choice as choice;
ghost use Rattle.generation.specs.Refused.{Ends, IsPattern};
ghost use Rattle.rule_match.specs.Answers.{IsCalm};
ghost use Rattle.rule_spec.specs.Scan as spec;

use crate::blame::refusal_by;
use crate::decision::{Decision, deciding};
use crate::kept::Kept;
use crate::operations::{list_after, operations};
use crate::refusal::DecideRefusal;
use crate::targets::target_by;
use dnr_base::{Direction, Items, NoMemory, Request, RuleName, Text, Verb};
use dnr_rules::Action;
use dnr_verdict::Verdict;
use redirect_transform::upgraded;
use regex_host::RegexHost;
use rule_match::MatchRefusal;
use rule_spec::Outcome;
use std::alloc::Global;

// A verdict that changes no headers.
fn plain(alloc: Global, outcome: Outcome, rule: Option<RuleName>, target: Option<Text>) -> Verdict
    ensures { result ≡ spec.plain_verdict outcome rule target }
{
    Verdict {
        outcome,
        rule,
        target,
        ops: Items::build(Vec::new(alloc)),
        request_headers: None,
        response_headers: None,
    }
}

// A verdict of a request that goes on, with the changes of its headers.
fn with_ops(
    alloc: Global,
    outcome: Outcome,
    rule: Option<RuleName>,
    request: &Request,
    kepts: &[Kept<'_>],
) -> Result<Verdict, NoMemory>
    ensures { IfOk result (λ verdict. verdict ≡ spec.with_ops outcome rule request.now (choice.ops_in kepts.now)) }
{
    let ops = operations(alloc, kepts)?;
    if ops.is_empty() {
        return Ok(plain(alloc, outcome, rule, None));
    }
    let request_headers = list_after(
        alloc,
        Direction::Request,
        ops.as_slice(),
        &request.request_headers,
    )?;
    let response_headers = list_after(
        alloc,
        Direction::Response,
        ops.as_slice(),
        &request.response_headers,
    )?;
    Ok(Verdict {
        outcome,
        rule,
        target: None,
        ops: Items::build(ops),
        request_headers,
        response_headers,
    })
}

// Where the rule that decides sends the request.
fn decided_target<H: RegexHost>(
    alloc: Global,
    decision: &Decision<'_>,
    request: &Request,
    host: &mut H,
) -> Result<Option<Text>, MatchRefusal>
    ensures value { IfOk result (λ target. target
        ≡ spec.decided_target decision.now decision.now.live.rule.action request.now) }
    ensures asked { IsErrOf result MatchRefusal.HostFault → IsSome decision.now.live.rule.condition.regex_filter }
    ensures cause { HasCauseOf MatchRefusal.HostFault (H.faults host.old) (H.faults host.new) result }
    ensures calm { IsCalm (H.faults host.old) (H.faults host.new) result }
{
    let rule = decision.live.rule;
    match rule.action() {
        Action::Redirect(redirect) => target_by(
            alloc,
            decision.extension,
            rule,
            redirect,
            &request.view,
            host,
        ),
        Action::UpgradeScheme => upgraded(alloc, &request.view).map_err(|_| MatchRefusal::NoMemory),
        _ => Ok(None),
    }
}

// The verdict of a rule that sends the request elsewhere.
fn sent<H: RegexHost>(
    alloc: Global,
    outcome: Outcome,
    decision: &Decision<'_>,
    request: &Request,
    host: &mut H,
) -> Result<Verdict, DecideRefusal>
    ensures verdict { IfOk result (λ verdict. verdict ≡ choice.sent outcome request.now decision.now) }
    ensures ends { Ends (IsPattern decision.now.extension (decision.now.live ∷ [])) (H.faults host.old)
        (H.faults host.new) result }
{
    let Ok(rule) = decision.rule(alloc) else {
        return Err(DecideRefusal::NoMemory);
    };
    match decided_target(alloc, decision, request, host) {
        Ok(target) => Ok(plain(alloc, outcome, Some(rule), target)),
        Err(refusal) => Err(refusal_by(refusal, rule)),
    }
}

// The verdict of a rule that decides without its target.
fn settled(
    alloc: Global,
    decision: &Decision<'_>,
    request: &Request,
    kepts: &[Kept<'_>],
) -> Result<Verdict, NoMemory>
    requires { choice.IsSettled decision.now.verb }
    ensures { IfOk result (λ verdict. verdict ≡ choice.decided_by request.now
        (choice.ops_in kepts.now) decision.now decision.now.verb) }
{
    let rule = Some(decision.rule(alloc)?);
    if decision.verb == Verb::Block {
        return Ok(plain(alloc, Outcome::Block, rule, None));
    }
    with_ops(alloc, Outcome::Allow, rule, request, kepts)
}

// The verdict of the rule that decides.
fn decided<H: RegexHost>(
    alloc: Global,
    decision: &Decision<'_>,
    request: &Request,
    kepts: &[Kept<'_>],
    host: &mut H,
) -> Result<Verdict, DecideRefusal>
    ensures verdict { IfOk result (λ verdict. verdict ≡ choice.decided_by request.now
        (choice.ops_in kepts.now) decision.now decision.now.verb) }
    ensures ends { Ends (IsPattern decision.now.extension (decision.now.live ∷ [])) (H.faults host.old)
        (H.faults host.new) result }
{
    match decision.verb {
        Verb::Redirect => sent(alloc, Outcome::Redirect, decision, request, host),
        Verb::UpgradeScheme => sent(alloc, Outcome::Upgrade, decision, request, host),
        _ => settled(alloc, decision, request, kepts).map_err(|_| DecideRefusal::NoMemory),
    }
}

// What becomes of the request.
pub(crate) fn conclude<H: RegexHost>(
    alloc: Global,
    request: &Request,
    kepts: &[Kept<'_>],
    host: &mut H,
) -> Result<Verdict, DecideRefusal>
    ensures verdict { IfOk result (λ verdict. verdict ≡ choice.verdict_of request.now (choice.ops_in kepts.now)
        (choice.deciding_in kepts.now)) }
    ensures ends { Ends (choice.IsDecidingPattern (choice.deciding_in kepts.now)) (H.faults host.old)
        (H.faults host.new) result }
{
    match deciding(kepts) {
        Some(decision) => decided(alloc, &decision, request, kepts, host),
        None => with_ops(alloc, Outcome::None, None, request, kepts).map_err(
            |_| DecideRefusal::NoMemory,
        ),
    }
}
