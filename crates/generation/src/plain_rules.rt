// Whether the rules in force are plain: without a match of a pattern to ask for, and no redirects.
ghost use Rattle.std.specs.Prelude.{◌≡◌, ◌&&◌, ◌||◌, map};
ghost use Rattle.std.specs.List.{list_all};
ghost use Rattle.dnr_rules.specs.Seen.{action_seen};
ghost use Rattle.rule_segments.specs.Segments.{live_in};
ghost use Rattle.rule_spec.specs.State.{has_number};
ghost use Rattle.update_spec.specs.Update.{without_ids};
ghost use Rattle.generation.specs.Plain as spec;
ghost use Rattle.generation.specs.Plain.{are_plain, rules_of, rules_of_set};

use dnr_rules::{Action, Rule};
use ruleset_store::{
    InstalledExtension, InstalledSet, KnownRules, LendsRule, OffIds, RuleList, Segment,
};

fn is_redirect(action: &Action) -> bool
    ensures { result ≡ spec.is_redirect (action_seen action.now) }
{
    matches!(action, Action::Redirect(_))
}

fn is_plain(rule: &Rule) -> bool
    ensures { result ≡ spec.is_plain_rule rule.now }
{
    !rule.uses_regex() && !is_redirect(rule.action())
}

// Whether a rule is plain or off.
fn is_plain_or_off(rule: &Rule, off: &OffIds) -> bool
    ensures { result ≡ (spec.is_plain_rule rule.now || has_number off.now rule.now.id) }
{
    is_plain(rule) || off.has(rule.id())
}

fn are_plain_or_off<R: LendsRule>(rules: &[R], off: &OffIds) -> bool
    ensures { result ≡ list_all (λ rule. spec.is_plain_rule rule || has_number off.now rule.id) (map R.lent rules.now) }
{
    rules.iter().all(|rule| is_plain_or_off(rule.lent(), off))
}

// Whether those are plain that are not off.
fn live_are_plain<R: LendsRule>(rules: &KnownRules<R>, off: &OffIds) -> bool
    ensures { result ≡ are_plain (without_ids off.now rules.now) }
{
    are_plain_or_off(rules.as_slice(), off)
}

fn segment_is_plain(segment: &Segment) -> bool
    ensures { result ≡ are_plain (live_in segment.now) }
{
    live_are_plain(segment.rules().rules(), segment.removed())
}

fn added_are_plain(segments: &[Segment]) -> bool
    ensures { result ≡ list_all (λ segment. are_plain (live_in segment)) segments.now }
{
    segments.iter().all(|segment| segment_is_plain(segment))
}

fn set_is_plain(set: &InstalledSet) -> bool
    ensures { result ≡ are_plain (rules_of_set set.now) }
{
    !set.is_enabled() || live_are_plain(set.rules(), set.disabled())
}

fn sets_are_plain(sets: &[InstalledSet]) -> bool
    ensures { result ≡ list_all (λ set. are_plain (rules_of_set set)) sets.now }
{
    sets.iter().all(|set| set_is_plain(set))
}

fn list_is_plain(list: &RuleList) -> bool
    ensures { result ≡ are_plain list.now }
{
    added_are_plain(list.segments())
}

fn parts_are_plain(extension: &InstalledExtension) -> bool
    ensures { result ≡ (are_plain extension.now.session && are_plain extension.now.dynamic
        && list_all (λ set. are_plain (rules_of_set set)) extension.now.sets) }
{
    list_is_plain(extension.session())
        && list_is_plain(extension.dynamic())
        && sets_are_plain(extension.sets())
}

fn extension_is_plain(extension: &InstalledExtension) -> bool
    ensures { result ≡ are_plain (rules_of extension.now) }
{
    parts_are_plain(extension)
}

/// Whether all rules in force of the extensions are plain.
pub(crate) fn all_are_plain(extensions: &[InstalledExtension]) -> bool
    ensures { result ≡ list_all (λ extension. are_plain (rules_of extension)) extensions.now }
{
    extensions
        .iter()
        .all(|extension| extension_is_plain(extension))
}
