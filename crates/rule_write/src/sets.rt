ghost use Rattle.std.specs.Prelude.{◌≡◌, IfOk, OnOk, map, filter, string_bytes};
ghost use Rattle.std.specs.List.{list_all};
ghost use Rattle.dnr_base.specs.Kind.{has_kind};
ghost use Rattle.dnr_base.specs.Method.{has_method};
ghost use Rattle.serde_json.specs.Data.{string};
ghost use Rattle.serde_json.specs.View.{view};
ghost use Rattle.dnr_base.specs.KindSet.{kinds_of};
ghost use Rattle.dnr_base.specs.MethodSet.{methods_of};
ghost use Rattle.json_spec.specs.RuleFields.{kind_set, method_set};
ghost use Rattle.json_spec.specs.Written as spec;
ghost use Rattle.json_spec.specs.Written.{ascending_domains, ascending_tabs, with_tab_in_place};
ghost use Rattle.json_spec.specs.Written.{tab_written, kind_written, method_written};

use dnr_base::{Kind, KindSet, Method, MethodSet, NoMemory, Text};
use domain_set::DomainSet;
use serde_json::Value;
use std::alloc::Global;
use std::collections::BTreeSet;

// The domains, each once, ascending by bytes.
pub(crate) fn domain_values(alloc: Global, domains: &DomainSet) -> Result<Vec<Value>, NoMemory>
    ensures { IfOk result (λ values. map view values.items ≡ map string (ascending_domains domains.now)) }
{
    let set = domains_in_order(alloc, domains.entries())?;
    texts_of(alloc, &set)
}

fn texts_of(alloc: Global, set: &BTreeSet<String>) -> Result<Vec<Value>, NoMemory>
    ensures { IfOk result (λ values. map view values.items ≡ map string (map string_bytes set.now.keys)) }
{
    let mut values = Vec::with_capacity(alloc, set.len())?;
    for text in set.iter() {
        values.push(Value::try_from_str(alloc, text.as_str())?)?;
    }
    Ok(values)
}

fn domains_in_order(alloc: Global, domains: &[Text]) -> Result<BTreeSet<String>, NoMemory>
    ensures { IfOk result (λ set. map string_bytes set.keys ≡ ascending_domains domains.now) }
{
    let mut set = BTreeSet::new(alloc);
    for domain in domains {
        set.insert(String::from_str(alloc, domain.as_str())?)?;
    }
    Ok(set)
}

// The tabs, each once, ascending.
pub(crate) fn tab_values(alloc: Global, tabs: &[i32]) -> Result<Vec<Value>, NoMemory>
    ensures { IfOk result (λ values. map view values.items ≡ map tab_written (ascending_tabs tabs.now)) }
{
    let set = tabs_in_order(alloc, tabs)?;
    numbers_of(alloc, &set)
}

fn numbers_of(alloc: Global, set: &BTreeSet<i32>) -> Result<Vec<Value>, NoMemory>
    ensures { IfOk result (λ values. map view values.items ≡ map tab_written set.now.keys) }
{
    let mut values = Vec::with_capacity(alloc, set.len())?;
    for tab in set.iter() {
        values.push(Value::from(*tab))?;
    }
    Ok(values)
}

fn tabs_in_order(alloc: Global, tabs: &[i32]) -> Result<BTreeSet<i32>, NoMemory>
    ensures { IfOk result (λ set. set.keys ≡ ascending_tabs tabs.now) }
{
    let mut set = BTreeSet::new(alloc);
    for tab in tabs {
        insert_tab(&mut set, *tab)?;
    }
    Ok(set)
}

#[tactic(auto, unfolding(json_spec::specs::Written::with_tab_in_place))]
fn insert_tab(set: &mut BTreeSet<i32>, tab: i32) -> Result<(), NoMemory>
    ensures { OnOk result (set.new.keys ≡ with_tab_in_place set.old.keys tab) }
{
    set.insert(tab)?;
    Ok(())
}

// Whether these are the types of a rule that lists none.
pub(crate) fn are_default(kinds: KindSet) -> bool
    ensures { result ≡ spec.are_default (kinds_of kinds) }
{
    !kinds.contains(Kind::MainFrame) && has_all(kinds, &Kind::ALL[1..])
}

fn has_all(kinds: KindSet, these: &[Kind]) -> bool
    ensures { result ≡ list_all (has_kind (kinds_of kinds)) these.now }
{
    these.iter().all(|kind| kinds.contains(*kind))
}

// The types of a set, in the order of the reference.
pub(crate) fn kinds_in(alloc: Global, kinds: KindSet) -> Result<Vec<Kind>, NoMemory>
    ensures { IfOk result (λ list. list.items ≡ kind_set (kinds_of kinds)) }
{
    kinds_among(alloc, kinds, Kind::ALL.as_slice())
}

#[tactic(auto, using(crate::proofs::Inserted::filter_snoc))]
fn kinds_among(alloc: Global, kinds: KindSet, these: &[Kind]) -> Result<Vec<Kind>, NoMemory>
    ensures { IfOk result (λ list. list.items ≡ filter (has_kind (kinds_of kinds)) these.now) }
{
    let mut list = Vec::new(alloc);
    for kind in these {
        if kinds.contains(*kind) {
            list.push(*kind)?;
        }
    }
    Ok(list)
}

pub(crate) fn kind_values(alloc: Global, kinds: &[Kind]) -> Result<Vec<Value>, NoMemory>
    ensures { IfOk result (λ values. map view values.items ≡ map kind_written kinds.now) }
{
    let mut values = Vec::with_capacity(alloc, kinds.len())?;
    for kind in kinds {
        values.push(Value::try_from_str(alloc, kind.name())?)?;
    }
    Ok(values)
}

// The methods of a set, in the order of the reference.
pub(crate) fn methods_in(alloc: Global, methods: MethodSet) -> Result<Vec<Method>, NoMemory>
    ensures { IfOk result (λ list. list.items ≡ method_set (methods_of methods)) }
{
    methods_among(alloc, methods, Method::ALL.as_slice())
}

#[tactic(auto, using(crate::proofs::Inserted::filter_snoc))]
fn methods_among(
    alloc: Global,
    methods: MethodSet,
    these: &[Method],
) -> Result<Vec<Method>, NoMemory>
    ensures { IfOk result (λ list. list.items ≡ filter (has_method (methods_of methods)) these.now) }
{
    let mut list = Vec::new(alloc);
    for method in these {
        if methods.contains(*method) {
            list.push(*method)?;
        }
    }
    Ok(list)
}

pub(crate) fn method_values(alloc: Global, methods: &[Method]) -> Result<Vec<Value>, NoMemory>
    ensures { IfOk result (λ values. map view values.items ≡ map method_written methods.now) }
{
    let mut values = Vec::with_capacity(alloc, methods.len())?;
    for method in methods {
        values.push(Value::try_from_str(alloc, method.name())?)?;
    }
    Ok(values)
}
