// What follows a hop.
ghost use Rattle.std.specs.Prelude.{◌≡◌, ◌++◌, ◌∷◌, [], IfOk, OnOk};
ghost use Rattle.follow_spec.specs.Trace as spec;

use crate::{Hop, Verdict};
use dnr_base::{NoMemory, Text, View};
use follow_spec::{End, Next};
use rule_spec::Outcome;
use std::alloc::Global;
use url_view::{ViewRefusal, parse};

// The most hops.
pub(crate) const MAX_HOPS: u32 = 20;

// Whether the request is sent on.
fn leads_on(outcome: Outcome) -> bool
    ensures { result ≡ spec.leads_on outcome }
{
    matches!(outcome, Outcome::Redirect | Outcome::Upgrade)
}

// The URL that it is sent to, where that can be read.
fn next_view(alloc: Global, verdict: &Verdict) -> Result<Option<View>, NoMemory>
    ensures { IfOk result (λ view. view ≡ spec.next_view verdict.now) }
{
    let Some(target) = &verdict.target else {
        return Ok(None);
    };
    match parse(alloc, target.as_str()) {
        Ok(view) => Ok(Some(view)),
        Err(ViewRefusal::NoMemory) => Err(NoMemory),
        Err(_) => Ok(None),
    }
}

// Whether one of the hops was sent to this URL.
fn was_sent(hops: &[Hop], view: &View) -> bool
    ensures { result ≡ spec.was_sent hops.now view.now }
{
    hops.iter().any(|hop| hop.url.as_str() == view.full())
}

// What follows these hops, of which the last is sent to this URL, if it is one.
fn next_to(hops: &[Hop], view: Option<View>) -> Next
    ensures { result ≡ spec.next_to hops.now view }
{
    match view {
        None => Next::Ends(End::Unreadable),
        Some(view) if was_sent(hops, &view) => Next::Ends(End::Repeated),
        Some(_) if hops.len() == MAX_HOPS as usize => Next::Ends(End::Bound),
        Some(view) => Next::Follows(view),
    }
}

// What follows these hops, of which the last has this verdict.
fn next_after(alloc: Global, hops: &[Hop], verdict: &Verdict) -> Result<Next, NoMemory>
    ensures { IfOk result (λ next. next ≡ spec.next_after hops.now verdict.now) }
{
    if !leads_on(verdict.outcome) {
        return Ok(Next::Ends(End::Settled));
    }
    Ok(next_to(hops, next_view(alloc, verdict)?))
}

// Puts the hop of this URL and verdict behind the hops, and says what follows it.
pub(crate) fn push_hop(
    alloc: Global,
    view: &View,
    verdict: Verdict,
    hops: &mut Vec<Hop>,
) -> Result<Next, NoMemory>
    ensures hops { OnOk result (hops.new.items
        ≡ hops.old.items ++ record { url = view.now.full; verdict = verdict } ∷ []) }
    ensures next { IfOk result (λ next. next ≡ spec.next_after hops.new.items verdict) }
{
    let url = Text::build(String::from_str(alloc, view.full())?);
    hops.push(Hop { url, verdict })?;
    let last = &hops[hops.len() - 1];
    next_after(alloc, hops.as_slice(), &last.verdict)
}
