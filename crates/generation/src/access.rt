// Whether an extension has access to a request: Chrome's reference, "Host permissions". None takes memory.
ghost use Rattle.std.specs.Prelude.{◌≡◌};
ghost use Rattle.std.specs.Option.{option_copied};
ghost use Rattle.rule_spec.specs.Access as spec;

use dnr_base::{Items, Kind, Request, Text, View};
use match_patterns::MatchPattern;
use ruleset_store::InstalledExtension;
use std::marker::Model;

fn some_fits(patterns: &[MatchPattern], view: &View) -> bool
    ensures { result ≡ spec.some_fits patterns.now view.now }
{
    patterns.iter().any(|pattern| pattern.fits(view))
}

fn some_covers(patterns: &[MatchPattern], host: &str) -> bool
    ensures { result ≡ spec.some_covers patterns.now host.now }
{
    patterns.iter().any(|pattern| pattern.covers(host))
}

fn may_serve(patterns: &[MatchPattern], kind: Kind, initiator: Option<&Text>) -> bool
    ensures { result ≡ spec.may_serve patterns.now kind (option_copied initiator.entry) }
{
    match initiator {
        None => true,
        Some(host) => matches!(kind, Kind::MainFrame) || some_covers(patterns, host.as_str()),
    }
}

// By the extension's match patterns; without a list it has access to every request.
fn has_access(patterns: Option<&Items<MatchPattern>>, request: &Request) -> bool
    ensures { result ≡ spec.has_access (option_copied patterns.entry) request.now }
{
    let Some(patterns) = patterns else {
        return true;
    };
    let patterns = patterns.as_slice();
    some_fits(patterns, &request.view)
        && may_serve(patterns, request.kind, request.initiator.as_ref())
}

// Whether an extension has access to a request. It is told when the first rule asks for it, which most rules never do,
// and known from then on. A clause sees the answer.
#[derive(Drop)]
pub(crate) struct Access<'a> {
    patterns: Option<&'a Items<MatchPattern>>,
    request: &'a Request,
    told: Option<bool>,
}

impl<'a> Model for Access<'a> {
    ghost use Rattle.std.specs.Prelude.{◌≡◌, Bool, IfSome};
    ghost use Rattle.std.specs.Option.{option_copied};
    ghost use Rattle.rule_spec.specs.Access as spec;

    ghost Value = { Bool };

    ghost view = { λ a. spec.has_access (option_copied a.patterns) a.request.now };

    ghost invariant = { λ a. IfSome a.told
        (λ told. told ≡ spec.has_access (option_copied a.patterns) a.request.now) };
}

impl<'a> Access<'a> {
    // Before any rule has asked.
    pub(crate) fn of(extension: &'a InstalledExtension, request: &'a Request) -> Access<'a>
        ensures { result ≡ spec.has_access extension.now.access request.now }
    {
        Access {
            patterns: extension.access(),
            request,
            told: None,
        }
    }

    pub(crate) fn is_given(&mut self) -> bool
        ensures answer { result ≡ self.old }
        ensures same { self.new ≡ self.old }
    {
        if let Some(told) = self.told {
            return told;
        }
        let told = has_access(self.patterns, self.request);
        self.told = Some(told);
        told
    }
}
