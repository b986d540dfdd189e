ghost use Rattle.std.specs.Prelude.{◌≡◌, IfOk, OnOk, map, option_map};
ghost use Rattle.std.specs.Option.{option_copied};
ghost use Rattle.serde_json.specs.Data.{string};
ghost use Rattle.serde_json.specs.View.{view, members_view};
ghost use Rattle.json_spec.specs.Written as spec;
ghost use Rattle.json_spec.specs.Written.{with_field, if_true};

use dnr_base::{NoMemory, Text};
use serde_json::{Map, Value};
use std::alloc::Global;

// Puts the field in where it is there.
pub(crate) fn put(
    alloc: Global,
    members: &mut Map<String, Value>,
    key: &str,
    value: Option<Value>,
) -> Result<(), NoMemory>
    ensures { OnOk result (members_view members.new.entries
        ≡ with_field (members_view members.old.entries) (key.now, option_map view value)) }
{
    match value {
        Some(value) => Ok(serde_json::put(members, alloc, key, value)?),
        None => Ok(()),
    }
}

pub(crate) fn put_text(
    alloc: Global,
    members: &mut Map<String, Value>,
    key: &str,
    text: Option<&str>,
) -> Result<(), NoMemory>
    ensures { OnOk result (members_view members.new.entries
        ≡ with_field (members_view members.old.entries) (key.now, option_map string (option_copied text.entry))) }
{
    match text {
        Some(text) => put(alloc, members, key, Some(Value::try_from_str(alloc, text)?)),
        None => Ok(()),
    }
}

pub(crate) fn true_or_none(flag: bool) -> Option<Value>
    ensures { option_map view result ≡ if_true flag }
{
    match flag {
        true => Some(Value::Bool(true)),
        false => None,
    }
}

// The list, unless it is empty.
pub(crate) fn unless_empty(values: Vec<Value>) -> Option<Value>
    ensures { option_map view result ≡ spec.unless_empty (map view values.items) }
{
    if values.is_empty() {
        return None;
    }
    Some(Value::Array(values))
}

pub(crate) fn text_values(alloc: Global, texts: &[Text]) -> Result<Vec<Value>, NoMemory>
    ensures { IfOk result (λ values. map view values.items ≡ map string texts.now) }
{
    let mut values = Vec::with_capacity(alloc, texts.len())?;
    for text in texts {
        values.push(Value::try_from_str(alloc, text.as_str())?)?;
    }
    Ok(values)
}
