ghost use Rattle.std.specs.Prelude.{◌≡◌, IfOk, OnOk, map, option_map};
ghost use Rattle.serde_json.specs.Data.{string};
ghost use Rattle.serde_json.specs.View.{view, members_view};
ghost use Rattle.json_spec.specs.Written as spec;
ghost use Rattle.json_spec.specs.Written.{with_fields, domains_written, kinds_written};
ghost use Rattle.json_spec.specs.Written.{exclusion_written, method_written, methods_written};
ghost use Rattle.json_spec.specs.Written.{party_written, tabs_written, condition_written};
ghost use Rattle.std.specs.Option.{option_copied};
ghost use Rattle.dnr_base.specs.KindSet.{kinds_of};
ghost use Rattle.dnr_base.specs.MethodSet.{methods_of};
ghost use Rattle.json_spec.specs.RuleFields.{method_set};

use crate::fields::{put, put_text, true_or_none, unless_empty};
use crate::response_tests::{given_tests, test_values};
use crate::sets::{
    are_default, domain_values, kind_values, kinds_in, method_values, methods_in, tab_values,
};
use dnr_base::{Items, Kind, KindSet, MethodSet, NoMemory, Text};
use dnr_rules::Condition;
use domain_set::DomainSet;
use serde_json::{Map, Value};
use std::alloc::Global;
use url_filter::Pattern;

#[tactic(auto, unfolding(json_spec::specs::Written::condition_written))]
pub(crate) fn condition_value(alloc: Global, condition: &Condition) -> Result<Value, NoMemory>
    ensures { IfOk result (λ value. view value ≡ condition_written condition.now) }
{
    let mut members = Map::new(alloc);
    put_filters(alloc, &mut members, condition)?;
    put_domains(alloc, &mut members, condition)?;
    put_kinds(alloc, &mut members, condition)?;
    put_methods(alloc, &mut members, condition)?;
    put_tabs(alloc, &mut members, condition)?;
    put_tests(alloc, &mut members, condition)?;
    Ok(Value::Object(members))
}

fn put_filters(
    alloc: Global,
    members: &mut Map<String, Value>,
    condition: &Condition,
) -> Result<(), NoMemory>
    ensures { OnOk result (members_view members.new.entries
        ≡ with_fields (members_view members.old.entries) (spec.filter_fields condition.now)) }
{
    put_text(
        alloc,
        members,
        "urlFilter",
        filter_text(condition.url_filter()),
    )?;
    put_text(
        alloc,
        members,
        "regexFilter",
        text_of(condition.regex_filter()),
    )?;
    let case_sensitive = true_or_none(condition.case_sensitive());
    put(alloc, members, "isUrlFilterCaseSensitive", case_sensitive)?;
    put_text(
        alloc,
        members,
        "domainType",
        party_name(condition.third_party()),
    )
}

fn filter_text(filter: Option<&Pattern>) -> Option<&str>
    ensures { option_copied result ≡ option_copied filter.entry }
{
    match filter {
        Some(filter) => Some(filter.text()),
        None => None,
    }
}

fn text_of(text: Option<&Text>) -> Option<&str>
    ensures { option_copied result ≡ option_copied text.entry }
{
    match text {
        Some(text) => Some(text.as_str()),
        None => None,
    }
}

fn party_name(third_party: Option<bool>) -> Option<&'static str>
    ensures { option_map string (option_copied result) ≡ option_map party_written third_party }
{
    match third_party {
        Some(true) => Some("thirdParty"),
        Some(false) => Some("firstParty"),
        None => None,
    }
}

fn put_domains(
    alloc: Global,
    members: &mut Map<String, Value>,
    condition: &Condition,
) -> Result<(), NoMemory>
    ensures { OnOk result (members_view members.new.entries
        ≡ with_fields (members_view members.old.entries) (spec.domain_fields condition.now)) }
{
    let initiators = given_domains(alloc, condition.initiators())?;
    put(alloc, members, "initiatorDomains", initiators)?;
    let excluded = domain_values(alloc, condition.not_initiators())?;
    put(
        alloc,
        members,
        "excludedInitiatorDomains",
        unless_empty(excluded),
    )?;
    let hosts = given_domains(alloc, condition.hosts())?;
    put(alloc, members, "requestDomains", hosts)?;
    let excluded = domain_values(alloc, condition.not_hosts())?;
    put(
        alloc,
        members,
        "excludedRequestDomains",
        unless_empty(excluded),
    )
}

fn given_domains(alloc: Global, domains: Option<&DomainSet>) -> Result<Option<Value>, NoMemory>
    ensures { IfOk result (λ value. option_map view value ≡ option_map domains_written (option_copied domains.entry)) }
{
    match domains {
        Some(domains) => Ok(Some(Value::Array(domain_values(alloc, domains)?))),
        None => Ok(None),
    }
}

fn put_kinds(
    alloc: Global,
    members: &mut Map<String, Value>,
    condition: &Condition,
) -> Result<(), NoMemory>
    ensures { OnOk result (members_view members.new.entries
        ≡ with_fields (members_view members.old.entries) (spec.kind_fields condition.now)) }
{
    let kinds = condition.kinds();
    put(alloc, members, "resourceTypes", given_kinds(alloc, kinds)?)?;
    put(
        alloc,
        members,
        "excludedResourceTypes",
        exclusion(alloc, kinds)?,
    )
}

// The list of the types, unless they are those of a rule that lists none.
#[tactic(auto, unfolding(json_spec::specs::Written::kinds_written))]
fn given_kinds(alloc: Global, kinds: KindSet) -> Result<Option<Value>, NoMemory>
    ensures { IfOk result (λ value. option_map view value ≡ kinds_written (kinds_of kinds)) }
{
    if are_default(kinds) {
        return Ok(None);
    }
    let list = kinds_in(alloc, kinds)?;
    Ok(unless_empty(kind_values(alloc, list.as_slice())?))
}

// All types, where the set has none.
#[tactic(auto, unfolding(json_spec::specs::Written::exclusion_written))]
fn exclusion(alloc: Global, kinds: KindSet) -> Result<Option<Value>, NoMemory>
    ensures { IfOk result (λ value. option_map view value ≡ exclusion_written (kinds_of kinds)) }
{
    if !kinds_in(alloc, kinds)?.is_empty() {
        return Ok(None);
    }
    Ok(Some(Value::Array(kind_values(alloc, Kind::ALL.as_slice())?)))
}

fn put_methods(
    alloc: Global,
    members: &mut Map<String, Value>,
    condition: &Condition,
) -> Result<(), NoMemory>
    ensures { OnOk result (members_view members.new.entries
        ≡ with_fields (members_view members.old.entries) (spec.method_fields condition.now)) }
{
    let methods = given_methods(alloc, condition.methods())?;
    put(alloc, members, "requestMethods", methods)?;
    let excluded = method_names(alloc, condition.not_methods())?;
    put(
        alloc,
        members,
        "excludedRequestMethods",
        unless_empty(excluded),
    )
}

fn method_names(alloc: Global, methods: MethodSet) -> Result<Vec<Value>, NoMemory>
    ensures { IfOk result (λ values. map view values.items ≡ map method_written (method_set (methods_of methods))) }
{
    let list = methods_in(alloc, methods)?;
    method_values(alloc, list.as_slice())
}

fn given_methods(alloc: Global, methods: Option<MethodSet>) -> Result<Option<Value>, NoMemory>
    ensures { IfOk result (λ value. option_map view value ≡ option_map methods_written
        (option_map methods_of methods)) }
{
    match methods {
        Some(methods) => Ok(Some(Value::Array(method_names(alloc, methods)?))),
        None => Ok(None),
    }
}

fn put_tabs(
    alloc: Global,
    members: &mut Map<String, Value>,
    condition: &Condition,
) -> Result<(), NoMemory>
    ensures { OnOk result (members_view members.new.entries
        ≡ with_fields (members_view members.old.entries) (spec.tab_fields condition.now)) }
{
    let tabs = given_tabs(alloc, condition.tabs())?;
    put(alloc, members, "tabIds", tabs)?;
    let excluded = tab_values(alloc, condition.not_tabs())?;
    put(alloc, members, "excludedTabIds", unless_empty(excluded))
}

fn given_tabs(alloc: Global, tabs: Option<&Items<i32>>) -> Result<Option<Value>, NoMemory>
    ensures { IfOk result (λ value. option_map view value ≡ option_map tabs_written (option_copied tabs.entry)) }
{
    match tabs {
        Some(tabs) => Ok(Some(Value::Array(tab_values(alloc, tabs.as_slice())?))),
        None => Ok(None),
    }
}

fn put_tests(
    alloc: Global,
    members: &mut Map<String, Value>,
    condition: &Condition,
) -> Result<(), NoMemory>
    ensures { OnOk result (members_view members.new.entries
        ≡ with_fields (members_view members.old.entries) (spec.test_fields condition.now)) }
{
    let tests = given_tests(alloc, condition.header_tests())?;
    put(alloc, members, "responseHeaders", tests)?;
    let excluded = test_values(alloc, condition.not_header_tests())?;
    put(
        alloc,
        members,
        "excludedResponseHeaders",
        unless_empty(excluded),
    )
}
