ghost use Rattle.std.specs.Prelude.{◌≡◌, List, Option, IsSome, IfOk, IfSome, IsErrOf};
ghost use Rattle.dnr_base.specs.Faults.{HasCauseOf};
ghost use Rattle.dnr_base.specs.View.{text_of};
ghost use Rattle.dnr_spec.specs.Patterns.{ArePlacesIn};
ghost use Rattle.dnr_base.specs.declared.span.Span.{Span};
ghost use Rattle.dnr_spec.specs.Target.{target_of};
ghost use Rattle.generation.specs.Targets.{IsPlain};
ghost use Rattle.rule_match.specs.Answers.{IsCalm};
ghost use Rattle.rule_spec.specs.Scan as spec;

use crate::access::Access;
use dnr_base::{NoMemory, Redirect, Scheme, Span, Text, View};
use dnr_rules::{Action, Condition, Rule};
use redirect_transform::target;
use regex_host::{HostRefusal, RegexHost};
use rule_match::MatchRefusal;
use std::alloc::Global;

// What a fault of the host, or its want of memory, is to the test of a rule.
fn refusal_of(refusal: HostRefusal) -> MatchRefusal
    ensures fault { result ≡ MatchRefusal.HostFault → refusal ≡ HostRefusal.HostFault }
    ensures memory { refusal ≡ HostRefusal.HostFault → result ≡ MatchRefusal.HostFault }
{
    match refusal {
        HostRefusal::HostFault => MatchRefusal::HostFault,
        HostRefusal::NoMemory | HostRefusal::NoPattern => MatchRefusal::NoMemory,
    }
}

// Where the groups of the first match of the condition's regexFilter stand, if it has one that matches.
pub(crate) fn places<H: RegexHost>(
    condition: &Condition,
    view: &View,
    host: &mut H,
) -> Result<Option<[Option<Span>; 10]>, MatchRefusal>
    ensures value { IfOk result (λ places. places ≡ spec.first_match condition.now view.now) }
    ensures within { IfOk result (λ places. IfSome places (ArePlacesIn (text_of view.now))) }
    ensures asked { IsErrOf result MatchRefusal.HostFault → IsSome condition.now.regex_filter }
    ensures cause { HasCauseOf MatchRefusal.HostFault (H.faults host.old) (H.faults host.new) result }
    ensures calm { IsCalm (H.faults host.old) (H.faults host.new) result }
{
    let Some(pattern) = condition.regex_filter() else {
        return Ok(None);
    };
    let mut spans = [None; 10];
    let fold = !condition.case_sensitive();
    match host.find(pattern.as_str(), fold, view.text(), &mut spans) {
        Ok(true) => Ok(Some(spans)),
        Ok(false) => Ok(None),
        Err(refusal) => Err(refusal_of(refusal)),
    }
}

// Where a redirect leads that needs no places.
fn plain_target(
    alloc: Global,
    extension: &str,
    redirect: &Redirect,
    view: &View,
) -> Result<Option<Text>, NoMemory>
    requires { IsPlain redirect.now }
    ensures { IfOk result (λ target. (places : List (Option Span))
        → target ≡ target_of redirect.now extension.now view.now places) }
{
    target(alloc, redirect, extension, view, &[None; 10])
}

// Where the rule's redirect leads, if it leads anywhere.
pub(crate) fn target_by<H: RegexHost>(
    alloc: Global,
    extension: &str,
    rule: &Rule,
    redirect: &Redirect,
    view: &View,
    host: &mut H,
) -> Result<Option<Text>, MatchRefusal>
    ensures value { IfOk result (λ target. target ≡ spec.target_by extension.now rule.now redirect.now view.now) }
    ensures asked { IsErrOf result MatchRefusal.HostFault → IsSome rule.now.condition.regex_filter }
    ensures cause { HasCauseOf MatchRefusal.HostFault (H.faults host.old) (H.faults host.new) result }
    ensures calm { IsCalm (H.faults host.old) (H.faults host.new) result }
{
    if !matches!(redirect, Redirect::RegexSubstitution(_)) {
        return plain_target(alloc, extension, redirect, view).map_err(|_| MatchRefusal::NoMemory);
    }
    match places(rule.condition(), view, host)? {
        Some(spans) => target(alloc, redirect, extension, view, &spans).map_err(
            |_| MatchRefusal::NoMemory,
        ),
        None => Ok(None),
    }
}

// Whether a rule that reaches a request of this view may act on it.
pub(crate) fn may_act<H: RegexHost>(
    alloc: Global,
    extension: &str,
    access: &mut Access<'_>,
    rule: &Rule,
    view: &View,
    host: &mut H,
) -> Result<bool, MatchRefusal>
    ensures value { IfOk result (λ may. may ≡ spec.may_act extension.now access.old rule.now rule.now.action view.now) }
    ensures access { access.new ≡ access.old }
    ensures asked { IsErrOf result MatchRefusal.HostFault → IsSome rule.now.condition.regex_filter }
    ensures cause { HasCauseOf MatchRefusal.HostFault (H.faults host.old) (H.faults host.new) result }
    ensures calm { IsCalm (H.faults host.old) (H.faults host.new) result }
{
    match rule.action() {
        Action::Redirect(redirect) if access.is_given() => {
            Ok(target_by(alloc, extension, rule, redirect, view, host)?.is_some())
        }
        Action::Redirect(_) => Ok(false),
        Action::ModifyHeaders(_) => Ok(access.is_given()),
        Action::UpgradeScheme => Ok(matches!(view.scheme(), Scheme::Http | Scheme::Ftp)),
        _ => Ok(true),
    }
}
