ghost use Rattle.std.specs.Prelude.{◌≡◌, ◌+◌, ◌≤◌, length, None, is_some, IfOk, OnErr, IsTrue};
ghost use Rattle.dnr_base.specs.Faults.{HasCauseOf};
ghost use Rattle.dnr_base.specs.Request.{max_frames};
ghost use Rattle.rule_spec.specs.Holds.{holds};
ghost use Rattle.rule_spec.specs.Reaches.{reach_of};
ghost use Rattle.rule_match.specs.Answers.{IsCalm};
ghost use Rattle.rule_match.specs.Patterns.{asks_for_match};
ghost use Rattle.rule_match.specs.Tested.{parts_tested};

use crate::{MatchRefusal, PreparedPart, PreparedRequest};
use dnr_base::{Part, Request, Steps};
use dnr_rules::Rule;
use regex_host::RegexHost;
use rule_spec::Reach;
use std::sync::ledger::Ledger;
use suffix_list::SuffixList;

// The part once more, which lends the same.
fn lent<'a>(part: &Part<'a>) -> Part<'a>
    ensures { result ≡ part.now }
{
    Part {
        view: part.view,
        initiator: part.initiator,
        kind: part.kind,
        method: part.method,
        tab: part.tab,
        response_headers: part.response_headers,
    }
}

/// Whether a rule's condition holds on a part of a request: Chrome's reference of declarativeNetRequest,
/// `RuleCondition`. It is one step.
///
/// # Errors
///
/// Only of a rule with a `regexFilter` of which all else holds:
///
/// - `HostFault`: the host failed, and its count of faults rose.
/// - `NoMemory`: memory ran out.
pub fn matches<H: RegexHost, L: Ledger>(
    rule: &Rule,
    part: &Part<'_>,
    list: &SuffixList,
    host: &mut H,
    steps: &mut Steps<L>,
) -> Result<bool, MatchRefusal>
    ensures value { IfOk result (λ is_match. is_match ≡ holds list.now rule.now part.now) }
    ensures steps { steps.new ≡ steps.old + 1 }
    ensures asked { OnErr result (IsTrue (asks_for_match list.now rule.now part.now)) }
    ensures cause { HasCauseOf MatchRefusal.HostFault (H.faults host.old) (H.faults host.new) result }
    ensures calm { IsCalm (H.faults host.old) (H.faults host.new) result }
{
    PreparedPart::new(lent(part), list).matches(rule, host, steps)
}

/// The same of a rule without `regexFilter`. It takes no memory.
pub fn plain_matches<L: Ledger>(
    rule: &Rule,
    part: &Part<'_>,
    list: &SuffixList,
    steps: &mut Steps<L>,
) -> bool
    requires { rule.now.condition.regex_filter ≡ None }
    ensures value { result ≡ holds list.now rule.now part.now }
    ensures steps { steps.new ≡ steps.old + 1 }
{
    PreparedPart::new(lent(part), list).plain_matches(rule, steps)
}

/// How a rule reaches a request: by the request itself, or, where it is an `allowAllRequests`, by the first frame
/// on which it holds, the outermost first. `None`: it does not reach it. Each part tested is one step.
///
/// # Errors
///
/// Only of a rule with a `regexFilter`:
///
/// - `HostFault`: the host failed, and its count of faults rose.
/// - `NoMemory`: memory ran out.
pub fn reaches<H: RegexHost, L: Ledger>(
    rule: &Rule,
    request: &Request,
    list: &SuffixList,
    host: &mut H,
    steps: &mut Steps<L>,
) -> Result<Option<Reach>, MatchRefusal>
    requires { length request.now.frames ≤ max_frames }
    ensures value { IfOk result (λ reach. reach ≡ reach_of list.now rule.now request.now) }
    ensures steps { IfOk result (λ reach. steps.new
        ≡ steps.old + parts_tested list.now rule.now request.now) }
    ensures few { steps.new ≤ steps.old + parts_tested list.now rule.now request.now }
    ensures asked { OnErr result (IsTrue (is_some rule.now.condition.regex_filter)) }
    ensures cause { HasCauseOf MatchRefusal.HostFault (H.faults host.old) (H.faults host.new) result }
    ensures calm { IsCalm (H.faults host.old) (H.faults host.new) result }
{
    PreparedRequest::new(request, list).reaches(rule, host, steps)
}

/// The same of a rule without `regexFilter`. It takes no memory.
pub fn plain_reaches<L: Ledger>(
    rule: &Rule,
    request: &Request,
    list: &SuffixList,
    steps: &mut Steps<L>,
) -> Option<Reach>
    requires plain { rule.now.condition.regex_filter ≡ None }
    requires frames { length request.now.frames ≤ max_frames }
    ensures value { result ≡ reach_of list.now rule.now request.now }
    ensures steps { steps.new ≡ steps.old + parts_tested list.now rule.now request.now }
{
    PreparedRequest::new(request, list).plain_reaches(rule, steps)
}
