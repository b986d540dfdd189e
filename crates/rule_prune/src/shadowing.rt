// Whether one rule makes another needless.
ghost use Rattle.std.specs.Prelude.{◌≡◌, ◌∷◌, option_copied, bytes_eq, nat_eq};
ghost use Rattle.std.specs.List.{ends_with};
ghost use Rattle.std.specs.Cmp.Lexicographic.{pointwise};
ghost use Rattle.std.specs.Option.{option_eq};
ghost use Rattle.prune_spec.specs.Shadows as spec;
ghost use Rattle.dnr_rules.specs.Seen.{action_seen};

use crate::lists::{
    excludes_less_domains, excludes_less_methods, excludes_less_tabs, includes_domains,
    includes_kinds, includes_methods, includes_tabs,
};
use dnr_base::{Items, Text};
use dnr_rules::{Action, Condition, HeaderTest, Rule, ValuePattern};
use plain_domains::plain_domain;
use url_filter::Pattern;

// ---- filters

fn has_same_url_filter(k: &Condition, s: &Condition) -> bool
    ensures { result ≡ spec.has_same_url_filter k.now s.now }
{
    same_patterns(k.url_filter(), s.url_filter()) && (!k.case_sensitive() || s.case_sensitive())
}

// Whether both are there, and are one text.
fn same_patterns(one: Option<&Pattern>, other: Option<&Pattern>) -> bool
    ensures { result ≡ spec.same_text (option_copied one.entry) (option_copied other.entry) }
{
    let Some(one) = one else {
        return false;
    };
    let Some(other) = other else {
        return false;
    };
    one.text() == other.text()
}

fn has_same_regex_filter(k: &Condition, s: &Condition) -> bool
    ensures { result ≡ spec.has_same_regex_filter k.now s.now }
{
    same_texts(k.regex_filter(), s.regex_filter()) && k.case_sensitive() == s.case_sensitive()
}

fn same_texts(one: Option<&Text>, other: Option<&Text>) -> bool
    ensures { result ≡ spec.same_text (option_copied one.entry) (option_copied other.entry) }
{
    let Some(one) = one else {
        return false;
    };
    let Some(other) = other else {
        return false;
    };
    one.as_str() == other.as_str()
}

pub(crate) fn filter_domain(condition: &Condition) -> Option<&str>
    ensures { option_copied result ≡ spec.filter_domain condition.now }
{
    plain_domain(condition.url_filter()?.text())
}

fn lies_under(domain: Option<&str>, under: Option<&str>) -> bool
    ensures { result ≡ spec.lies_under (option_copied domain.entry) (option_copied under.entry) }
{
    let Some(domain) = domain else {
        return false;
    };
    let Some(under) = under else {
        return false;
    };
    domain == under || is_behind_dot(domain.as_bytes(), under.as_bytes())
}

// Whether the second text ends with a dot and the first.
fn is_behind_dot(domain: &[u8], under: &[u8]) -> bool
    ensures { result ≡ ends_with nat_eq under.now (46 ∷ domain.now) }
{
    if under.len() <= domain.len() {
        return false;
    }
    is_dot_and(domain, &under[under.len() - domain.len() - 1..])
}

fn is_dot_and(domain: &[u8], end: &[u8]) -> bool
    ensures { result ≡ bytes_eq (46 ∷ domain.now) end.now }
{
    match end.split_first() {
        Some((dot, rest)) => *dot == b'.' && rest == domain,
        None => false,
    }
}

fn has_weaker_filter(k: &Condition, s: &Condition) -> bool
    ensures { result ≡ spec.has_weaker_filter k.now s.now }
{
    has_no_filter(k)
        || has_same_url_filter(k, s)
        || lies_under(filter_domain(k), filter_domain(s))
        || has_same_regex_filter(k, s)
}

pub(crate) fn has_no_filter(k: &Condition) -> bool
    ensures { result ≡ spec.has_no_filter k.now }
{
    k.url_filter().is_none() && k.regex_filter().is_none()
}

// ---- response headers

fn same_values(one: &[ValuePattern], other: &[ValuePattern]) -> bool
    ensures { result ≡ pointwise bytes_eq one.now other.now }
{
    match (one, other) {
        ([], []) => true,
        ([first, ones @ ..], [second, others @ ..]) => {
            first.text() == second.text() && same_values(ones, others)
        }
        _ => false,
    }
}

fn same_given(one: &Option<Items<ValuePattern>>, other: &Option<Items<ValuePattern>>) -> bool
    ensures { result ≡ option_eq (pointwise bytes_eq) one.now other.now }
{
    match (one, other) {
        (Some(one), Some(other)) => same_values(one.as_slice(), other.as_slice()),
        (None, None) => true,
        _ => false,
    }
}

fn same_test(one: &HeaderTest, other: &HeaderTest) -> bool
    ensures { result ≡ spec.same_test one.now other.now }
{
    one.name.as_str() == other.name.as_str()
        && same_given(&one.values, &other.values)
        && same_values(one.excluded.as_slice(), other.excluded.as_slice())
}

fn same_tests(one: &[HeaderTest], other: &[HeaderTest]) -> bool
    ensures { result ≡ pointwise spec.same_test one.now other.now }
{
    match (one, other) {
        ([], []) => true,
        ([first, ones @ ..], [second, others @ ..]) => {
            same_test(first, second) && same_tests(ones, others)
        }
        _ => false,
    }
}

fn same_given_tests(one: Option<&Items<HeaderTest>>, other: Option<&Items<HeaderTest>>) -> bool
    ensures { result ≡ option_eq (pointwise spec.same_test) (option_copied one.entry) (option_copied other.entry) }
{
    match (one, other) {
        (Some(one), Some(other)) => same_tests(one.as_slice(), other.as_slice()),
        (None, None) => true,
        _ => false,
    }
}

fn tests_no_others(k: &Condition, s: &Condition) -> bool
    ensures { result ≡ spec.tests_no_others k.now s.now }
{
    has_no_tests(k.header_tests(), k.not_header_tests())
        || (same_given_tests(k.header_tests(), s.header_tests())
            && same_tests(k.not_header_tests(), s.not_header_tests()))
}

pub(crate) fn has_no_tests(tests: Option<&Items<HeaderTest>>, others: &[HeaderTest]) -> bool
    ensures { result ≡ spec.has_no_tests (option_copied tests.entry) others.now }
{
    tests.is_none() && others.is_empty()
}

// ---- the whole

fn asks_no_other_party(k: Option<bool>, s: Option<bool>) -> bool
    ensures { result ≡ spec.asks_no_other_party k s }
{
    match (k, s) {
        (None, _) => true,
        (Some(_), None) => false,
        (Some(k), Some(s)) => k == s,
    }
}

fn asks_less(k: &Condition, s: &Condition) -> bool
    ensures { result ≡ spec.asks_less k.now s.now }
{
    has_weaker_filter(k, s)
        && includes_domains(k.initiators(), s.initiators())
        && excludes_less_domains(k.not_initiators(), s.not_initiators())
        && includes_domains(k.hosts(), s.hosts())
        && excludes_less_domains(k.not_hosts(), s.not_hosts())
        && asks_no_other_party(k.third_party(), s.third_party())
        && includes_kinds(k.kinds(), s.kinds())
        && includes_methods(k.methods(), s.methods())
        && excludes_less_methods(k.not_methods(), s.not_methods())
        && includes_tabs(k.tabs(), s.tabs())
        && excludes_less_tabs(k.not_tabs(), s.not_tabs())
        && tests_no_others(k, s)
}

fn same_safe_action(k: &Action, s: &Action) -> bool
    ensures { result ≡ spec.same_safe_action (action_seen k.now) (action_seen s.now) }
{
    match (k, s) {
        (Action::Block, Action::Block) => true,
        (Action::Allow, Action::Allow) => true,
        (Action::UpgradeScheme, Action::UpgradeScheme) => true,
        (Action::AllowAllRequests, Action::AllowAllRequests) => true,
        _ => false,
    }
}

/// Whether `k` makes `s` needless. It takes no memory.
pub fn shadows(k: &Rule, s: &Rule) -> bool
    ensures { result ≡ spec.shadows k.now s.now }
{
    k.id() != s.id()
        && same_safe_action(k.action(), s.action())
        && s.priority() <= k.priority()
        && asks_less(k.condition(), s.condition())
}
