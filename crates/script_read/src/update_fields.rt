// The fields of an update that bring no rules.
ghost use Rattle.std.specs.Prelude.{◌≡◌, Ok, OnOk, IfOk, IfErr, option_map};
ghost use Rattle.serde_json.specs.Find.{as_str};
ghost use Rattle.serde_json.specs.View.{view, items_view};
ghost use Rattle.json_spec.specs.RuleFields.{each, as_texts};
ghost use Rattle.line_spec.specs.Updates as spec;
ghost use Rattle.script_read.specs.Faults.{IsFaultOf};
ghost use Rattle.script_read.specs.Ids.{ids_in, with_id};

use dnr_base::{Items, NoMemory, Text};
use line_spec::{UpdateFault, UpdateField};
use serde_json::Value;
use std::alloc::Global;

// The greatest id of a rule.
const MAX_ID: i128 = 2_147_483_647;

// The text in a field.
#[tactic(auto, unfolding(line_spec::specs::Updates::text_in))]
pub(crate) fn text_in(alloc: Global, field: UpdateField, tree: &Value) -> Result<Text, UpdateFault>
    ensures read { IfOk result (λ text. spec.text_in field (view tree.now) ≡ Ok text) }
    ensures refused { IfErr result (IsFaultOf (spec.text_in field (view tree.now))) }
{
    match tree.get(field.name()).and_then(Value::as_str) {
        Some(text) => Ok(Text::build(String::from_str(alloc, text)?)),
        None => Err(UpdateFault::BadField(field)),
    }
}

// The texts of a list in a field, none where no list is given.
#[tactic(auto, unfolding(line_spec::specs::Updates::texts_in))]
pub(crate) fn texts_in(
    alloc: Global,
    field: UpdateField,
    tree: &Value,
) -> Result<Items<Text>, UpdateFault>
    ensures read { IfOk result (λ texts. spec.texts_in field (view tree.now) ≡ Ok texts) }
    ensures refused { IfErr result (IsFaultOf (spec.texts_in field (view tree.now))) }
{
    let Some(list) = tree.get(field.name()) else {
        return Ok(Items::build(Vec::new(alloc)));
    };
    match as_texts(alloc, list)? {
        Some(texts) => Ok(texts),
        None => Err(UpdateFault::BadField(field)),
    }
}

fn as_texts(alloc: Global, list: &Value) -> Result<Option<Items<Text>>, NoMemory>
    ensures { IfOk result (λ texts. texts ≡ as_texts (view list.now)) }
{
    match list.as_array() {
        Some(values) => each_text(alloc, values),
        None => Ok(None),
    }
}

fn each_text(alloc: Global, values: &[Value]) -> Result<Option<Items<Text>>, NoMemory>
    ensures { IfOk result (λ texts. texts ≡ each as_str (items_view values.now)) }
{
    let mut texts = Vec::with_capacity(alloc, values.len())?;
    for value in values {
        let Some(text) = value.as_str() else {
            return Ok(None);
        };
        let text = Text::build(String::from_str(alloc, text)?);
        texts.push(text)?;
    }
    Ok(Some(Items::build(texts)))
}

// The whole numbers of a list in a field, none where no list is given.
#[tactic(auto, unfolding(line_spec::specs::Updates::wholes_in))]
pub(crate) fn wholes_in(
    alloc: Global,
    field: UpdateField,
    tree: &Value,
) -> Result<Items<i128>, UpdateFault>
    ensures read { IfOk result (λ numbers. spec.wholes_in field (view tree.now) ≡ Ok numbers) }
    ensures refused { IfErr result (IsFaultOf (spec.wholes_in field (view tree.now))) }
{
    let Some(list) = tree.get(field.name()) else {
        return Ok(Items::build(Vec::new(alloc)));
    };
    match as_wholes(alloc, list)? {
        Some(numbers) => Ok(numbers),
        None => Err(UpdateFault::BadField(field)),
    }
}

fn as_wholes(alloc: Global, list: &Value) -> Result<Option<Items<i128>>, NoMemory>
    ensures { IfOk result (λ numbers. numbers ≡ spec.as_wholes (view list.now)) }
{
    match list.as_array() {
        Some(values) => each_whole(alloc, values),
        None => Ok(None),
    }
}

#[tactic(auto, using(json_spec::proofs::Each::read_begins, json_spec::proofs::Each::read_goes, json_spec::proofs::Each::read_stops, json_spec::proofs::Each::read_ends))]
fn each_whole(alloc: Global, values: &[Value]) -> Result<Option<Items<i128>>, NoMemory>
    ensures { IfOk result (λ numbers. numbers ≡ each spec.as_whole (items_view values.now)) }
{
    let mut numbers = Vec::with_capacity(alloc, values.len())?;
    for value in values {
        let Some(number) = as_whole(value) else {
            return Ok(None);
        };
        numbers.push(number)?;
    }
    Ok(Some(Items::build(numbers)))
}

fn as_whole(value: &Value) -> Option<i128>
    ensures { result ≡ spec.as_whole (view value.now) }
{
    match value {
        Value::Number(number) => number.as_i128(),
        _ => None,
    }
}

// The ids of the rules to remove. One that no rule can have is left out.
#[tactic(auto, unfolding(line_spec::specs::Updates::remove_in))]
pub(crate) fn remove_in(alloc: Global, tree: &Value) -> Result<Items<u32>, UpdateFault>
    ensures read { IfOk result (λ ids. spec.remove_in (view tree.now) ≡ Ok ids) }
    ensures refused { IfErr result (IsFaultOf (spec.remove_in (view tree.now))) }
{
    let Some(list) = tree.get(UpdateField::RemoveRuleIds.name()) else {
        return Ok(Items::build(Vec::new(alloc)));
    };
    match as_rule_ids(alloc, list)? {
        Some(ids) => Ok(ids),
        None => Err(UpdateFault::BadField(UpdateField::RemoveRuleIds)),
    }
}

fn as_rule_ids(alloc: Global, list: &Value) -> Result<Option<Items<u32>>, NoMemory>
    ensures { IfOk result (λ ids. ids ≡ spec.as_rule_ids (view list.now)) }
{
    match list.as_array() {
        Some(values) => each_rule_id(alloc, values),
        None => Ok(None),
    }
}

#[tactic(auto, using(crate::proofs::Ids::ids_begin, crate::proofs::Ids::ids_stop, crate::proofs::Ids::ids_end))]
fn each_rule_id(alloc: Global, values: &[Value]) -> Result<Option<Items<u32>>, NoMemory>
    ensures { IfOk result (λ ids. ids ≡ ids_in (items_view values.now)) }
{
    let mut ids = Vec::with_capacity(alloc, values.len())?;
    for value in values {
        let Some(id) = as_rule_id(value) else {
            return Ok(None);
        };
        push_id(&mut ids, id)?;
    }
    Ok(Some(Items::build(ids)))
}

// Puts the id behind the others, where there is one.
fn push_id(ids: &mut Vec<u32>, id: Option<u32>) -> Result<(), NoMemory>
    ensures { OnOk result (ids.new.items ≡ with_id id ids.old.items) }
{
    if let Some(id) = id {
        ids.push(id)?;
    }
    Ok(())
}

// Of a whole number the id of a rule, where a rule may have it.
fn as_rule_id(value: &Value) -> Option<Option<u32>>
    ensures { result ≡ option_map spec.rule_id (spec.as_whole (view value.now)) }
{
    match as_whole(value) {
        Some(number) => Some(rule_id(number)),
        None => None,
    }
}

fn rule_id(number: i128) -> Option<u32>
    ensures { result ≡ spec.rule_id number }
{
    if (1..=MAX_ID).contains(&number) {
        Some(number as u32)
    } else {
        None
    }
}
