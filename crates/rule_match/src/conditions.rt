// The fields of a condition, each tested alone. None takes memory.
ghost use Rattle.std.specs.Prelude.{◌≡◌, not, option_map};
ghost use Rattle.std.specs.Option.{option_copied};
ghost use Rattle.dnr_base.specs.MethodSet.{methods_of};
ghost use Rattle.dnr_base.specs.View.{host_of};
ghost use Rattle.dnr_spec.specs.Domains.{covers_some};
ghost use Rattle.rule_spec.specs.Holds as spec;

use dnr_base::{Header, Items, Method, MethodSet, Scheme, Text, View};
use domain_set::DomainSet;
use header_tests::{HeaderTest, some_holds};
use url_filter::Pattern;

// ---- methods and tabs

fn has_methods(scheme: Scheme) -> bool
    ensures { result ≡ spec.has_methods scheme }
{
    matches!(scheme, Scheme::Http | Scheme::Https)
}

pub(crate) fn is_by(methods: Option<MethodSet>, scheme: Scheme, method: Method) -> bool
    ensures { result ≡ spec.is_by (option_map methods_of methods) scheme method }
{
    match methods {
        None => true,
        Some(methods) => has_methods(scheme) && methods.contains(method),
    }
}

pub(crate) fn is_not_by(methods: MethodSet, scheme: Scheme, method: Method) -> bool
    ensures { result ≡ spec.is_not_by (methods_of methods) scheme method }
{
    !has_methods(scheme) || !methods.contains(method)
}

pub(crate) fn has_tab(tabs: &[i32], tab: i32) -> bool
    ensures { result ≡ spec.has_tab tabs.now tab }
{
    tabs.iter().any(|other| tab == *other)
}

pub(crate) fn is_in(tabs: Option<&Items<i32>>, tab: i32) -> bool
    ensures { result ≡ spec.is_in (option_copied tabs.entry) tab }
{
    match tabs {
        None => true,
        Some(tabs) => has_tab(tabs.as_slice(), tab),
    }
}

// ---- the URL

pub(crate) fn is_among(domains: Option<&DomainSet>, view: &View) -> bool
    ensures { result ≡ spec.is_among (option_copied domains.entry) (host_of view.now) }
{
    match domains {
        None => true,
        Some(domains) => domains.covers(view.host()),
    }
}

// Most rules exclude no domains, so an empty list is asked nothing.
pub(crate) fn is_not_among(domains: &DomainSet, view: &View) -> bool
    ensures { result ≡ not (covers_some domains.now (host_of view.now)) }
{
    domains.entries().is_empty() || !domains.covers(view.host())
}

pub(crate) fn fits(filter: Option<&Pattern>, fold: bool, view: &View) -> bool
    ensures { result ≡ spec.fits_url (option_copied filter.entry) fold view.now }
{
    match filter {
        None => true,
        Some(filter) => filter.matches(view.text(), view.host_span(), fold),
    }
}

// ---- who asks

pub(crate) fn is_from(domains: Option<&DomainSet>, initiator: Option<&Text>) -> bool
    ensures { result ≡ spec.is_from (option_copied domains.entry) (option_copied initiator.entry) }
{
    match (domains, initiator) {
        (None, _) => true,
        (Some(_), None) => false,
        (Some(domains), Some(host)) => domains.covers(host.as_str()),
    }
}

pub(crate) fn is_not_from(domains: &DomainSet, initiator: Option<&Text>) -> bool
    ensures { result ≡ spec.is_not_from domains.now (option_copied initiator.entry) }
{
    match initiator {
        None => true,
        Some(host) => !domains.covers(host.as_str()),
    }
}

// ---- the headers of the response

pub(crate) fn has_response(
    tests: Option<&Items<HeaderTest>>,
    headers: Option<&Items<Header>>,
) -> bool
    ensures { result ≡ spec.has_response (option_copied tests.entry) (option_copied headers.entry) }
{
    let Some(tests) = tests else {
        return true;
    };
    match headers {
        None => false,
        Some(headers) => some_holds(tests.as_slice(), headers.as_slice()),
    }
}

pub(crate) fn has_no_response(tests: &[HeaderTest], headers: Option<&Items<Header>>) -> bool
    ensures { result ≡ spec.has_no_response tests.now (option_copied headers.entry) }
{
    if tests.is_empty() {
        return true;
    }
    match headers {
        None => false,
        Some(headers) => !some_holds(tests, headers.as_slice()),
    }
}
