ghost use Rattle.std.specs.Prelude.{◌≡◌, ◌≤◌, ◌==◌, false, [], List, filter, not, Ok, OnOk, IfOk};
ghost use Rattle.std.specs.Prelude.{◌&&◌, IfErr, is_some, length, option_map, unwrap_or};
ghost use Rattle.std.specs.Option.{option_copied, option_map_or};
ghost use Rattle.dnr_base.specs.Faults.{Rose};
ghost use Rattle.dnr_base.specs.Kind.{all_kinds, has_kind};
ghost use Rattle.dnr_base.specs.KindSet.{kinds_of};
ghost use Rattle.dnr_base.specs.MethodSet.{methods_of};
ghost use Rattle.dnr_spec.specs.Patterns.{groups_of};
ghost use Rattle.json_spec.specs.ReadRule as spec;
ghost use Rattle.json_spec.specs.ReadRule.{filters_in, domains_in, domain_lists_in, lists_in};
ghost use Rattle.json_spec.specs.ReadRule.{tabs_in, IsAtPattern, kinds_from};
ghost use Rattle.rule_spec.specs.IsRule.{is_regex_text};
ghost use Rattle.json_spec.specs.MayRefuse.{MayRefuse, IsRefused, RefusesTest};
ghost use Rattle.regex_host.specs.Asked.{AsksFor};
ghost use Rattle.rule_fields.specs.Seen.{fields_seen};
ghost use Rattle.rule_read.specs.Asking.{asked_by, AsksOrNot};
ghost use Rattle.rule_read.specs.Calm.{IsCalmBy};
ghost use Rattle.rule_read.specs.Seen.{lists_seen};

use crate::response_tests::{has_no_test, has_no_value};
use dnr_base::{Items, Kind, KindSet, MethodSet, Text};
use dnr_spec::{DomainRefusal, PatternRefusal};
use domain_set::DomainSet;
use regex_host::{HostRefusal, RegexHost};
use rule_fields::Fields;
use rule_spec::{RuleKind, RulePath, RuleRefusal};
use std::alloc::Global;
use url_filter::Pattern;

// The most bytes of a regexFilter.
const MAX_REGEX: usize = 4096;

// The filters of a condition, and the count of groups of the regexFilter.
#[derive(Drop)]
pub(crate) struct Filters {
    pub url_filter: Option<Pattern>,
    pub regex_filter: Option<Text>,
    pub groups: Option<u32>,
}

// Reads the filters. The host is asked where nothing is refused that is tested before the regexFilter's pattern.
#[tactic(auto, unfolding(json_spec::specs::ReadRule::filters_in))]
pub(crate) fn read_filters<H: RegexHost>(
    alloc: Global,
    fields: &Fields<'_>,
    host: &mut H,
) -> Result<Filters, RuleRefusal>
    ensures ok { OnOk result (filters_in (fields_seen fields.now) ≡ Ok tt) }
    ensures url_filter { IfOk result (λ filters.
        filters.url_filter ≡ option_copied fields.now.url_filter) }
    ensures regex_filter { IfOk result (λ filters.
        filters.regex_filter ≡ option_copied fields.now.regex_filter) }
    ensures groups { IfOk result (λ filters.
        filters.groups ≡ option_map_or groups_of (option_copied fields.now.regex_filter) None) }
    ensures refused { IfErr result (MayRefuse (filters_in (fields_seen fields.now))
        (Rose (H.faults host.old) (H.faults host.new) × IsAtPattern (fields_seen fields.now))) }
    ensures asked { OnOk result
        (AsksFor H.asks host.old (asked_by (fields_seen fields.now)) host.new) }
    ensures tried { AsksOrNot H.asks host.old (asked_by (fields_seen fields.now)) host.new }
    ensures calm { OnOk result (H.faults host.new ≡ H.faults host.old) }
    ensures quiet { IfErr result (IsCalmBy (H.faults host.old) (H.faults host.new)) }
    ensures later { H.faults host.old ≤ H.faults host.new }
{
    match (fields.url_filter, fields.regex_filter) {
        (None, None) => Ok(Filters {
            url_filter: None,
            regex_filter: None,
            groups: None,
        }),
        (Some(text), None) => Ok(Filters {
            url_filter: Some(read_pattern(alloc, text)?),
            regex_filter: None,
            groups: None,
        }),
        (None, Some(text)) => {
            if !is_regex_text(text) {
                return Err(RuleRefusal::BadRegex);
            }
            let fold = !fields.case_sensitive.unwrap_or(false);
            let groups = check_pattern(text, fold, host)?;
            let text = String::from_str(alloc, text)?;
            Ok(Filters {
                url_filter: None,
                regex_filter: Some(Text::build(text)),
                groups: Some(groups),
            })
        }
        (Some(_), Some(_)) => Err(RuleRefusal::BothFilters),
    }
}

fn read_pattern(alloc: Global, text: &str) -> Result<Pattern, RuleRefusal>
    ensures ok { IfOk result (λ pattern. pattern ≡ text.now) }
    ensures passes { OnOk result (spec.url_filter_test (Some text.now) ≡ None) }
    ensures refused { IfErr result (RefusesTest (spec.url_filter_test (Some text.now)) ⊥) }
{
    match Pattern::read(alloc, text) {
        Ok(pattern) => Ok(pattern),
        Err(PatternRefusal::NoMemory) => Err(RuleRefusal::NoMemory),
        Err(refusal) => Err(RuleRefusal::BadUrlFilter(refusal)),
    }
}

// ASCII, not empty and not too long.
#[tactic(auto, using(crate::proofs::Texts::ascii_is))]
fn is_regex_text(text: &str) -> bool
    ensures { result ≡ is_regex_text text.now }
{
    !text.is_empty() && text.len() <= MAX_REGEX && text.is_ascii()
}

// The count of groups of a regexFilter's pattern.
fn check_pattern<H: RegexHost>(text: &str, fold: bool, host: &mut H) -> Result<u32, RuleRefusal>
    ensures groups { IfOk result (λ groups. groups_of text.now ≡ Some groups) }
    ensures refused { IfErr result (RefusesTest (spec.pattern_test (Some text.now))
        (Rose (H.faults host.old) (H.faults host.new))) }
    ensures asked { H.asks host.old (record { pattern = text.now; fold = fold }) host.new }
    ensures calm { OnOk result (H.faults host.new ≡ H.faults host.old) }
    ensures quiet { IfErr result (IsCalmBy (H.faults host.old) (H.faults host.new)) }
    ensures later { H.faults host.old ≤ H.faults host.new }
{
    match host.check(text, fold) {
        Ok(groups) => Ok(groups),
        Err(HostRefusal::NoPattern) => Err(RuleRefusal::BadRegex),
        Err(HostRefusal::HostFault) => Err(RuleRefusal::HostFault),
        Err(HostRefusal::NoMemory) => Err(RuleRefusal::NoMemory),
    }
}

// The domain lists of a condition. A list under its old name stands for the new one.
#[derive(Drop)]
pub(crate) struct DomainLists {
    pub initiators: Option<DomainSet>,
    pub not_initiators: DomainSet,
    pub hosts: Option<DomainSet>,
    pub not_hosts: DomainSet,
}

// Reads the domain lists, in the order in which they are tested.
#[tactic(auto, using(json_spec::proofs::Refused::refused_on), unfolding(json_spec::specs::ReadRule::domain_lists_in))]
pub(crate) fn read_domain_lists(
    alloc: Global,
    fields: &Fields<'_>,
) -> Result<DomainLists, RuleRefusal>
    ensures ok { IfOk result (λ lists.
        domain_lists_in (fields_seen fields.now) ≡ Ok (lists_seen lists)) }
    ensures refused { IfErr result (IsRefused (domain_lists_in (fields_seen fields.now))) }
{
    let initiators = read_domains(alloc, RulePath::InitiatorDomains, &fields.initiators)?;
    let not_initiators = read_domains(
        alloc,
        RulePath::ExcludedInitiatorDomains,
        &fields.not_initiators,
    )?;
    let old_initiators = read_domains(alloc, RulePath::Domains, &fields.old_initiators)?;
    let old_not_initiators = read_domains(
        alloc,
        RulePath::ExcludedDomains,
        &fields.old_not_initiators,
    )?;
    let hosts = read_domains(alloc, RulePath::RequestDomains, &fields.hosts)?;
    let not_hosts = read_domains(alloc, RulePath::ExcludedRequestDomains, &fields.not_hosts)?;
    Ok(DomainLists {
        initiators: either(initiators, old_initiators),
        not_initiators: or_empty(either(not_initiators, old_not_initiators)),
        hosts,
        not_hosts: or_empty(not_hosts),
    })
}

#[tactic(auto, unfolding(json_spec::specs::ReadRule::domains_in))]
fn read_domains(
    alloc: Global,
    field: RulePath,
    texts: &Option<Items<Text>>,
) -> Result<Option<DomainSet>, RuleRefusal>
    ensures ok { IfOk result (λ set. domains_in field texts.now ≡ Ok set) }
    ensures refused { IfErr result (IsRefused (domains_in field texts.now)) }
{
    let Some(texts) = texts else {
        return Ok(None);
    };
    match DomainSet::read(alloc, texts.as_slice()) {
        Ok(set) => Ok(Some(set)),
        Err(DomainRefusal::BadDomain(_)) => Err(RuleRefusal::BadDomain(field)),
        Err(DomainRefusal::NoMemory) => Err(RuleRefusal::NoMemory),
    }
}

// The first of two lists that is given.
fn either(first: Option<DomainSet>, other: Option<DomainSet>) -> Option<DomainSet>
    ensures { result ≡ spec.either first other }
{
    match first {
        Some(set) => Some(set),
        None => other,
    }
}

fn or_empty(set: Option<DomainSet>) -> DomainSet
    ensures { result ≡ unwrap_or set [] }
{
    match set {
        Some(set) => set,
        None => DomainSet::empty(),
    }
}

// Refuses a list that is given and empty, and lists of types beside lists of other types.
#[tactic(auto, unfolding(json_spec::specs::ReadRule::lists_in))]
pub(crate) fn test_lists(fields: &Fields<'_>) -> Result<(), RuleRefusal>
    ensures ok { OnOk result (lists_in (fields_seen fields.now) ≡ Ok tt) }
    ensures refused { IfErr result (IsRefused (lists_in (fields_seen fields.now))) }
{
    if is_empty(&fields.initiators) {
        return Err(RuleRefusal::EmptyList(RulePath::InitiatorDomains));
    }
    if is_empty(&fields.old_initiators) {
        return Err(RuleRefusal::EmptyList(RulePath::Domains));
    }
    if is_empty(&fields.hosts) {
        return Err(RuleRefusal::EmptyList(RulePath::RequestDomains));
    }
    if has_no_kind(fields.kinds) {
        return Err(RuleRefusal::EmptyList(RulePath::ResourceTypes));
    }
    if has_no_method(fields.methods) {
        return Err(RuleRefusal::EmptyList(RulePath::RequestMethods));
    }
    if has_no_tab(&fields.tabs) {
        return Err(RuleRefusal::EmptyList(RulePath::TabIds));
    }
    if has_no_test(&fields.header_tests) {
        return Err(RuleRefusal::EmptyList(RulePath::ResponseHeaders));
    }
    if has_no_value(&fields.header_tests) {
        return Err(RuleRefusal::EmptyList(RulePath::ResponseHeaderValues));
    }
    if has_no_value(&fields.not_header_tests) {
        return Err(RuleRefusal::EmptyList(RulePath::ExcludedResponseHeaderValues));
    }
    if are_both_given(fields.kinds, fields.not_kinds) {
        return Err(RuleRefusal::BothTypeLists);
    }
    Ok(())
}

fn are_both_given(kinds: Option<KindSet>, excluded: Option<KindSet>) -> bool
    ensures { result ≡ (is_some (option_map kinds_of kinds)
        && is_some (option_map kinds_of excluded)) }
{
    kinds.is_some() && excluded.is_some()
}

fn is_empty(texts: &Option<Items<Text>>) -> bool
    ensures { result ≡ option_map_or (λ list. length list == 0) texts.now false }
{
    match texts {
        Some(texts) => texts.as_slice().is_empty(),
        None => false,
    }
}

fn has_no_tab(tabs: &Option<Items<i32>>) -> bool
    ensures { result ≡ option_map_or (λ list. length list == 0) tabs.now false }
{
    match tabs {
        Some(tabs) => tabs.as_slice().is_empty(),
        None => false,
    }
}

fn has_no_kind(kinds: Option<KindSet>) -> bool
    ensures { result ≡ option_map_or (λ list. length list == 0) (option_map kinds_of kinds) false }
{
    match kinds {
        Some(kinds) => is_no_kind(kinds),
        None => false,
    }
}

pub(crate) fn is_no_kind(kinds: KindSet) -> bool
    ensures { result ≡ (length (kinds_of kinds) == 0) }
{
    KindSet::same_types_are_one_set();
    kinds == KindSet::empty()
}

fn has_no_method(methods: Option<MethodSet>) -> bool
    ensures { result ≡ option_map_or (λ list. length list == 0) (option_map methods_of methods) false }
{
    match methods {
        Some(methods) => is_no_method(methods),
        None => false,
    }
}

fn is_no_method(methods: MethodSet) -> bool
    ensures { result ≡ (length (methods_of methods) == 0) }
{
    MethodSet::same_methods_are_one_set();
    methods == MethodSet::empty()
}

// Refuses tabs in another rule than one of a session.
#[tactic(auto, unfolding(json_spec::specs::ReadRule::tabs_in))]
pub(crate) fn test_tabs(kind: RuleKind, fields: &Fields<'_>) -> Result<(), RuleRefusal>
    ensures ok { OnOk result (tabs_in kind (fields_seen fields.now) ≡ Ok tt) }
    ensures refused { IfErr result (IsRefused (tabs_in kind (fields_seen fields.now))) }
{
    if kind != RuleKind::Session && (fields.tabs.is_some() || fields.not_tabs.is_some()) {
        return Err(RuleRefusal::TabsNotSession);
    }
    Ok(())
}

// All types but these.
#[tactic(auto, using(crate::proofs::TypeSets::all_begins, crate::proofs::TypeSets::all_removed, crate::proofs::TypeSets::all_kept, crate::proofs::TypeSets::all_ends))]
fn all_but(excluded: KindSet) -> KindSet
    ensures { kinds_of result ≡ filter (λ kind. not (has_kind (kinds_of excluded) kind)) all_kinds }
{
    let mut kinds = KindSet::all();
    for kind in Kind::ALL {
        if excluded.contains(kind) {
            kinds.remove(kind);
        }
    }
    kinds
}

// The types on which a rule holds that gives these lists.
pub(crate) fn kinds_in(kinds: Option<KindSet>, excluded: Option<KindSet>) -> KindSet
    ensures { kinds_of result ≡ kinds_from (option_map kinds_of kinds) (option_map kinds_of excluded) }
{
    match (kinds, excluded) {
        (Some(kinds), _) => kinds,
        (None, Some(excluded)) => all_but(excluded),
        (None, None) => KindSet::all_but_main_frame(),
    }
}
