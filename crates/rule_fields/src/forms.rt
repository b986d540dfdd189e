// The forms that fields have, item by item.
ghost use Rattle.std.specs.Prelude.{◌≡◌, List, map, length, ◌==◌, IfOk, option_map, option_and_then};
ghost use Rattle.std.specs.Option.{option_copied};
ghost use Rattle.serde_json.specs.View.{view, items_view};
ghost use Rattle.serde_json.specs.Find.{as_array, as_str};
ghost use Rattle.dnr_base.specs.KindSet.{kinds_of};
ghost use Rattle.dnr_base.specs.MethodSet.{methods_of};
ghost use Rattle.json_spec.specs.RuleFields as form;

use dnr_base::{Items, Kind, KindSet, Method, MethodSet, NoMemory, Text};
use json_spec::{as_kind, as_method, as_tab};
use serde_json::Value;
use std::alloc::Global;
use std::collections::BTreeSet;

// The texts of a list.
pub(crate) fn as_texts(alloc: Global, value: &Value) -> Result<Option<Items<Text>>, NoMemory>
    ensures { IfOk result (λ texts. texts ≡ form.as_texts (view value.now)) }
{
    match value.as_array() {
        Some(values) => texts_in(alloc, values),
        None => Ok(None),
    }
}

fn texts_in(alloc: Global, values: &[Value]) -> Result<Option<Items<Text>>, NoMemory>
    ensures { IfOk result (λ texts. texts ≡ form.each as_str (items_view values.now)) }
{
    let mut texts = Vec::with_capacity(alloc, values.len())?;
    for value in values {
        let Some(text) = value.as_str() else {
            return Ok(None);
        };
        texts.push(Text::build(String::from_str(alloc, text)?))?;
    }
    Ok(Some(Items::build(texts)))
}

// Whether requests are to be third party.
pub(crate) fn as_party(value: &Value) -> Option<bool>
    ensures { result ≡ form.as_party (view value.now) }
{
    match value.as_str()? {
        "firstParty" => Some(false),
        "thirdParty" => Some(true),
        _ => None,
    }
}

// The types of a list of their names.
pub(crate) fn as_kinds(alloc: Global, value: &Value) -> Result<Option<KindSet>, NoMemory>
    ensures { IfOk result (λ kinds. option_map kinds_of kinds ≡ form.as_kinds (view value.now)) }
{
    let Some(values) = value.as_array() else {
        return Ok(None);
    };
    match kinds_in(alloc, values)? {
        Some(kinds) => Ok(Some(kind_set(kinds.as_slice()))),
        None => Ok(None),
    }
}

fn kinds_in(alloc: Global, values: &[Value]) -> Result<Option<Vec<Kind>>, NoMemory>
    ensures { IfOk result (λ kinds. option_map (λ list. list.items) kinds ≡ form.each form.as_kind
        (items_view values.now)) }
{
    let mut kinds = Vec::with_capacity(alloc, values.len())?;
    for value in values {
        let Some(kind) = as_kind(value) else {
            return Ok(None);
        };
        kinds.push(kind)?;
    }
    Ok(Some(kinds))
}

fn kind_set(kinds: &[Kind]) -> KindSet
    ensures { kinds_of result ≡ form.kind_set kinds.now }
{
    let mut set = KindSet::empty();
    for kind in kinds {
        set.insert(*kind);
    }
    set
}

// The methods of a list of their names.
pub(crate) fn as_methods(alloc: Global, value: &Value) -> Result<Option<MethodSet>, NoMemory>
    ensures { IfOk result (λ methods. option_map methods_of methods ≡ form.as_methods (view value.now)) }
{
    let Some(values) = value.as_array() else {
        return Ok(None);
    };
    match methods_in(alloc, values)? {
        Some(methods) => Ok(Some(method_set(methods.as_slice()))),
        None => Ok(None),
    }
}

fn methods_in(alloc: Global, values: &[Value]) -> Result<Option<Vec<Method>>, NoMemory>
    ensures { IfOk result (λ methods. option_map (λ list. list.items) methods ≡ form.each form.as_method
        (items_view values.now)) }
{
    let mut methods = Vec::with_capacity(alloc, values.len())?;
    for value in values {
        let Some(method) = as_method(value) else {
            return Ok(None);
        };
        methods.push(method)?;
    }
    Ok(Some(methods))
}

fn method_set(methods: &[Method]) -> MethodSet
    ensures { methods_of result ≡ form.method_set methods.now }
{
    let mut set = MethodSet::empty();
    for method in methods {
        set.insert(*method);
    }
    set
}

// The tabs of a list, each once.
pub(crate) fn as_tabs(alloc: Global, value: &Value) -> Result<Option<Items<i32>>, NoMemory>
    ensures { IfOk result (λ tabs. tabs ≡ form.as_tabs (view value.now)) }
{
    let Some(values) = value.as_array() else {
        return Ok(None);
    };
    match tabs_in(alloc, values)? {
        Some(tabs) => Ok(Some(Items::build(tab_set(alloc, tabs.as_slice())?))),
        None => Ok(None),
    }
}

fn tabs_in(alloc: Global, values: &[Value]) -> Result<Option<Vec<i32>>, NoMemory>
    ensures { IfOk result (λ tabs. option_map (λ list. list.items) tabs ≡ form.each form.as_tab
        (items_view values.now)) }
{
    let mut tabs = Vec::with_capacity(alloc, values.len())?;
    for value in values {
        let Some(tab) = as_tab(value) else {
            return Ok(None);
        };
        tabs.push(tab)?;
    }
    Ok(Some(tabs))
}

fn tab_set(alloc: Global, tabs: &[i32]) -> Result<Vec<i32>, NoMemory>
    ensures { IfOk result (λ set. set.items ≡ form.tab_set tabs.now) }
{
    let mut seen = BTreeSet::new(alloc);
    let mut set = Vec::new(alloc);
    for tab in tabs {
        if seen.insert(*tab)? {
            set.push(*tab)?;
        }
    }
    Ok(set)
}
