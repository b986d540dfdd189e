ghost use Rattle.std.specs.Prelude.{◌≡◌, Ok, OnOk, IfOk, IfErr, option_map};
ghost use Rattle.std.specs.Option.{option_copied};
ghost use Rattle.serde_json.specs.View.{view};
ghost use Rattle.serde_json.specs.Find.{as_str, as_bool};
ghost use Rattle.dnr_base.specs.KindSet.{kinds_of};
ghost use Rattle.dnr_base.specs.MethodSet.{methods_of};
ghost use Rattle.json_spec.specs.RuleFields.{as_texts, as_party, as_kinds, as_methods, as_tabs};
ghost use Rattle.json_spec.specs.RuleFields.{as_header_tests};
ghost use Rattle.json_spec.specs.RuleFields.{field_in, absent_in, old_list_in, fields_in};
ghost use Rattle.json_spec.specs.RuleFields.{first_refusal};
ghost use Rattle.json_spec.specs.MayRefuse.{IsRefused, RefusesTest};
ghost use Rattle.rule_fields.specs.Groups.{forbidden_tests, filter_tests, domain_tests, set_tests};
ghost use Rattle.rule_fields.specs.Groups.{response_tests, HasResponse};
ghost use Rattle.rule_fields.specs.Groups.{HasNoForbidden, HasFilters, HasDomains, HasSets};
ghost use Rattle.rule_fields.specs.Seen.{fields_seen};

use crate::condition::Condition;
use crate::forms;
use crate::response_tests::{self, TestFields};
use dnr_base::{Items, KindSet, MethodSet, Text};
use rule_spec::{RulePath, RuleRefusal};
use serde_json::Value;
use std::alloc::Global;

/// The fields of a condition as they stand in the file. Each is `None` where it is absent.
#[derive(Drop)]
pub struct Fields<'a> {
    pub url_filter: Option<&'a str>,
    pub regex_filter: Option<&'a str>,
    pub case_sensitive: Option<bool>,
    pub initiators: Option<Items<Text>>,
    pub not_initiators: Option<Items<Text>>,
    pub old_initiators: Option<Items<Text>>,
    pub old_not_initiators: Option<Items<Text>>,
    pub hosts: Option<Items<Text>>,
    pub not_hosts: Option<Items<Text>>,
    pub third_party: Option<bool>,
    pub kinds: Option<KindSet>,
    pub not_kinds: Option<KindSet>,
    pub methods: Option<MethodSet>,
    pub not_methods: Option<MethodSet>,
    pub tabs: Option<Items<i32>>,
    pub not_tabs: Option<Items<i32>>,
    pub header_tests: Option<Items<TestFields>>,
    pub not_header_tests: Option<Items<TestFields>>,
}

/// Reads the fields of a condition, which are tested in this order: those that no rule may have, the filters, the
/// lists of domains (new names, then old ones, then hosts), the party, types, methods, tabs and tests of response
/// headers.
///
/// # Errors
///
/// - `BadField`: the first that no rule may have, that has another form than its own, or that stands under its old
///   name beside the new one.
/// - `NoMemory`: memory ran out.
pub fn read_fields(alloc: Global, condition: &Value) -> Result<Fields<'_>, RuleRefusal>
    ensures ok { IfOk result (λ fields. fields_in (view condition.now) ≡ Ok (fields_seen fields)) }
    ensures refused { IfErr result (IsRefused (fields_in (view condition.now))) }
{
    read_told(alloc, &Condition::new(condition))
}

fn read_told<'a>(alloc: Global, condition: &Condition<'a>) -> Result<Fields<'a>, RuleRefusal>
    ensures ok { IfOk result (λ fields. fields_in (view condition.now.value.now) ≡ Ok (fields_seen fields)) }
    ensures refused { IfErr result (IsRefused (fields_in (view condition.now.value.now))) }
{
    test_forbidden(condition)?;
    let filters = read_filters(condition)?;
    let domains = read_domains(alloc, condition)?;
    let sets = read_sets(alloc, condition)?;
    let response = read_response(alloc, condition)?;
    Ok(Fields {
        url_filter: filters.url_filter,
        regex_filter: filters.regex_filter,
        case_sensitive: filters.case_sensitive,
        initiators: domains.initiators,
        not_initiators: domains.not_initiators,
        old_initiators: domains.old_initiators,
        old_not_initiators: domains.old_not_initiators,
        hosts: domains.hosts,
        not_hosts: domains.not_hosts,
        third_party: sets.third_party,
        kinds: sets.kinds,
        not_kinds: sets.not_kinds,
        methods: sets.methods,
        not_methods: sets.not_methods,
        tabs: sets.tabs,
        not_tabs: sets.not_tabs,
        header_tests: response.header_tests,
        not_header_tests: response.not_header_tests,
    })
}

// Refuses the fields that no rule may have.
fn test_forbidden(condition: &Condition<'_>) -> Result<(), RuleRefusal>
    ensures absent { OnOk result (HasNoForbidden (view condition.now.value.now)) }
    ensures refused { IfErr result (RefusesTest (first_refusal (forbidden_tests (view condition.now.value.now))) ⊥) }
{
    test_absent(condition, RulePath::TopDomains)?;
    test_absent(condition, RulePath::ExcludedTopDomains)
}

#[derive(Drop)]
struct FilterFields<'a> {
    url_filter: Option<&'a str>,
    regex_filter: Option<&'a str>,
    case_sensitive: Option<bool>,
}

fn read_filters<'a>(condition: &Condition<'a>) -> Result<FilterFields<'a>, RuleRefusal>
    ensures read { IfOk result (HasFilters (view condition.now.value.now)) }
    ensures refused { IfErr result (RefusesTest (first_refusal (filter_tests (view condition.now.value.now))) ⊥) }
{
    let url_filter = text_field(condition, RulePath::UrlFilter)?;
    let regex_filter = text_field(condition, RulePath::RegexFilter)?;
    let case_sensitive = bool_field(condition, RulePath::IsUrlFilterCaseSensitive)?;
    Ok(FilterFields {
        url_filter,
        regex_filter,
        case_sensitive,
    })
}

#[derive(Drop)]
struct DomainFields {
    initiators: Option<Items<Text>>,
    not_initiators: Option<Items<Text>>,
    old_initiators: Option<Items<Text>>,
    old_not_initiators: Option<Items<Text>>,
    hosts: Option<Items<Text>>,
    not_hosts: Option<Items<Text>>,
}

fn read_domains(alloc: Global, condition: &Condition<'_>) -> Result<DomainFields, RuleRefusal>
    ensures read { IfOk result (HasDomains (view condition.now.value.now)) }
    ensures refused { IfErr result (RefusesTest (first_refusal (domain_tests (view condition.now.value.now))) ⊥) }
{
    let initiators = texts_field(alloc, condition, RulePath::InitiatorDomains)?;
    let not_initiators = texts_field(alloc, condition, RulePath::ExcludedInitiatorDomains)?;
    let (new, old) = (RulePath::InitiatorDomains, RulePath::Domains);
    let old_initiators = old_field(alloc, condition, new, old)?;
    let (new, old) = (
        RulePath::ExcludedInitiatorDomains,
        RulePath::ExcludedDomains,
    );
    let old_not_initiators = old_field(alloc, condition, new, old)?;
    let hosts = texts_field(alloc, condition, RulePath::RequestDomains)?;
    let not_hosts = texts_field(alloc, condition, RulePath::ExcludedRequestDomains)?;
    Ok(DomainFields {
        initiators,
        not_initiators,
        old_initiators,
        old_not_initiators,
        hosts,
        not_hosts,
    })
}

#[derive(Drop)]
struct SetFields {
    third_party: Option<bool>,
    kinds: Option<KindSet>,
    not_kinds: Option<KindSet>,
    methods: Option<MethodSet>,
    not_methods: Option<MethodSet>,
    tabs: Option<Items<i32>>,
    not_tabs: Option<Items<i32>>,
}

fn read_sets(alloc: Global, condition: &Condition<'_>) -> Result<SetFields, RuleRefusal>
    ensures read { IfOk result (HasSets (view condition.now.value.now)) }
    ensures refused { IfErr result (RefusesTest (first_refusal (set_tests (view condition.now.value.now))) ⊥) }
{
    let third_party = party_field(condition, RulePath::DomainType)?;
    let kinds = kinds_field(alloc, condition, RulePath::ResourceTypes)?;
    let not_kinds = kinds_field(alloc, condition, RulePath::ExcludedResourceTypes)?;
    let methods = methods_field(alloc, condition, RulePath::RequestMethods)?;
    let not_methods = methods_field(alloc, condition, RulePath::ExcludedRequestMethods)?;
    let tabs = tabs_field(alloc, condition, RulePath::TabIds)?;
    let not_tabs = tabs_field(alloc, condition, RulePath::ExcludedTabIds)?;
    Ok(SetFields {
        third_party,
        kinds,
        not_kinds,
        methods,
        not_methods,
        tabs,
        not_tabs,
    })
}

#[derive(Drop)]
struct ResponseFields {
    header_tests: Option<Items<TestFields>>,
    not_header_tests: Option<Items<TestFields>>,
}

fn read_response(alloc: Global, condition: &Condition<'_>) -> Result<ResponseFields, RuleRefusal>
    ensures read { IfOk result (HasResponse (view condition.now.value.now)) }
    ensures refused { IfErr result (RefusesTest (first_refusal (response_tests (view condition.now.value.now))) ⊥) }
{
    let header_tests = tests_field(alloc, condition, RulePath::ResponseHeaders)?;
    let not_header_tests = tests_field(alloc, condition, RulePath::ExcludedResponseHeaders)?;
    Ok(ResponseFields {
        header_tests,
        not_header_tests,
    })
}

// Refuses a field that no rule may have.
#[tactic(auto, unfolding(json_spec::specs::RuleFields::absent_in))]
fn test_absent(condition: &Condition<'_>, field: RulePath) -> Result<(), RuleRefusal>
    ensures ok { OnOk result (absent_in field (view condition.now.value.now) ≡ Ok tt) }
    ensures refused { IfErr result (IsRefused (absent_in field (view condition.now.value.now))) }
{
    match condition.get(field) {
        None => Ok(()),
        Some(_) => Err(RuleRefusal::BadField(field)),
    }
}

#[tactic(auto, unfolding(json_spec::specs::RuleFields::field_in))]
fn text_field<'a>(
    condition: &Condition<'a>,
    field: RulePath,
) -> Result<Option<&'a str>, RuleRefusal>
    ensures ok { IfOk result (λ text. field_in as_str field (view condition.now.value.now) ≡ Ok (option_copied text)) }
    ensures refused { IfErr result (IsRefused (field_in as_str field (view condition.now.value.now))) }
{
    match condition.get(field) {
        None => Ok(None),
        Some(value) => match value.as_str() {
            Some(text) => Ok(Some(text)),
            None => Err(RuleRefusal::BadField(field)),
        },
    }
}

#[tactic(auto, unfolding(json_spec::specs::RuleFields::field_in))]
fn bool_field(condition: &Condition<'_>, field: RulePath) -> Result<Option<bool>, RuleRefusal>
    ensures ok { IfOk result (λ value. field_in as_bool field (view condition.now.value.now) ≡ Ok value) }
    ensures refused { IfErr result (IsRefused (field_in as_bool field (view condition.now.value.now))) }
{
    match condition.get(field) {
        None => Ok(None),
        Some(value) => match value.as_bool() {
            Some(value) => Ok(Some(value)),
            None => Err(RuleRefusal::BadField(field)),
        },
    }
}

#[tactic(auto, unfolding(json_spec::specs::RuleFields::field_in))]
fn party_field(condition: &Condition<'_>, field: RulePath) -> Result<Option<bool>, RuleRefusal>
    ensures ok { IfOk result (λ party. field_in as_party field (view condition.now.value.now) ≡ Ok party) }
    ensures refused { IfErr result (IsRefused (field_in as_party field (view condition.now.value.now))) }
{
    match condition.get(field) {
        None => Ok(None),
        Some(value) => match forms::as_party(value) {
            Some(party) => Ok(Some(party)),
            None => Err(RuleRefusal::BadField(field)),
        },
    }
}

#[tactic(auto, unfolding(json_spec::specs::RuleFields::field_in))]
fn texts_field(
    alloc: Global,
    condition: &Condition<'_>,
    field: RulePath,
) -> Result<Option<Items<Text>>, RuleRefusal>
    ensures ok { IfOk result (λ texts. field_in as_texts field (view condition.now.value.now) ≡ Ok texts) }
    ensures refused { IfErr result (IsRefused (field_in as_texts field (view condition.now.value.now))) }
{
    let Some(value) = condition.get(field) else {
        return Ok(None);
    };
    match forms::as_texts(alloc, value)? {
        Some(texts) => Ok(Some(texts)),
        None => Err(RuleRefusal::BadField(field)),
    }
}

// The list of an old name, which does not stand beside that of the new one.
#[tactic(auto, unfolding(json_spec::specs::RuleFields::old_list_in))]
fn old_field(
    alloc: Global,
    condition: &Condition<'_>,
    new: RulePath,
    old: RulePath,
) -> Result<Option<Items<Text>>, RuleRefusal>
    ensures ok { IfOk result (λ texts. old_list_in new old (view condition.now.value.now) ≡ Ok texts) }
    ensures refused { IfErr result (IsRefused (old_list_in new old (view condition.now.value.now))) }
{
    let texts = texts_field(alloc, condition, old)?;
    if texts.is_some() && condition.get(new).is_some() {
        return Err(RuleRefusal::BadField(old));
    }
    Ok(texts)
}

#[tactic(auto, unfolding(json_spec::specs::RuleFields::field_in))]
fn kinds_field(
    alloc: Global,
    condition: &Condition<'_>,
    field: RulePath,
) -> Result<Option<KindSet>, RuleRefusal>
    ensures ok { IfOk result (λ kinds. field_in as_kinds field (view condition.now.value.now) ≡ Ok (option_map kinds_of kinds)) }
    ensures refused { IfErr result (IsRefused (field_in as_kinds field (view condition.now.value.now))) }
{
    let Some(value) = condition.get(field) else {
        return Ok(None);
    };
    match forms::as_kinds(alloc, value)? {
        Some(kinds) => Ok(Some(kinds)),
        None => Err(RuleRefusal::BadField(field)),
    }
}

#[tactic(auto, unfolding(json_spec::specs::RuleFields::field_in))]
fn methods_field(
    alloc: Global,
    condition: &Condition<'_>,
    field: RulePath,
) -> Result<Option<MethodSet>, RuleRefusal>
    ensures ok { IfOk result (λ methods. field_in as_methods field (view condition.now.value.now) ≡ Ok
        (option_map methods_of methods)) }
    ensures refused { IfErr result (IsRefused (field_in as_methods field (view condition.now.value.now))) }
{
    let Some(value) = condition.get(field) else {
        return Ok(None);
    };
    match forms::as_methods(alloc, value)? {
        Some(methods) => Ok(Some(methods)),
        None => Err(RuleRefusal::BadField(field)),
    }
}

#[tactic(auto, unfolding(json_spec::specs::RuleFields::field_in))]
fn tabs_field(
    alloc: Global,
    condition: &Condition<'_>,
    field: RulePath,
) -> Result<Option<Items<i32>>, RuleRefusal>
    ensures ok { IfOk result (λ tabs. field_in as_tabs field (view condition.now.value.now) ≡ Ok tabs) }
    ensures refused { IfErr result (IsRefused (field_in as_tabs field (view condition.now.value.now))) }
{
    let Some(value) = condition.get(field) else {
        return Ok(None);
    };
    match forms::as_tabs(alloc, value)? {
        Some(tabs) => Ok(Some(tabs)),
        None => Err(RuleRefusal::BadField(field)),
    }
}

#[tactic(auto, unfolding(json_spec::specs::RuleFields::field_in))]
fn tests_field(
    alloc: Global,
    condition: &Condition<'_>,
    field: RulePath,
) -> Result<Option<Items<TestFields>>, RuleRefusal>
    ensures ok { IfOk result (λ tests. field_in as_header_tests field (view condition.now.value.now) ≡ Ok tests) }
    ensures refused { IfErr result (IsRefused (field_in as_header_tests field (view condition.now.value.now))) }
{
    let Some(value) = condition.get(field) else {
        return Ok(None);
    };
    match response_tests::as_header_tests(alloc, value)? {
        Some(tests) => Ok(Some(tests)),
        None => Err(RuleRefusal::BadField(field)),
    }
}
