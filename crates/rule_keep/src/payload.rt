// The text of an update that is kept.
ghost use Rattle.std.specs.Prelude.{◌≡◌, IfOk, OnOk, IsTrue, All, Some, map};
ghost use Rattle.std.specs.List.{list_all};
ghost use Rattle.serde_json.specs.View.{view, members_view};
ghost use Rattle.rule_spec.specs.IsRule.{IsRule, is_number};
ghost use Rattle.json_spec.specs.Written.{with_field, rule_written};
ghost use Rattle.written_laws.specs.Normal.{normal};
ghost use Rattle.written_laws.specs.Read.{IdsDiffer};
ghost use Rattle.update_spec.specs.Update.{dynamic};
ghost use Rattle.keep_spec.specs.Kept.{update_at};
ghost use Rattle.keep_spec.specs.Written.{id_written, update_written, payload_text, are_tabless};

use dnr_base::NoMemory;
use keep_laws::written_updates_are_read;
use rule_write::rule_value;
use ruleset_store::SharedRule;
use serde_json::{Map, Value};
use std::alloc::Global;

// The text of the dynamic update of the extension that removes rules of these ids and adds others, which reads as it.
pub(crate) fn payload_of(
    alloc: Global,
    name: &str,
    remove: &[u32],
    add: &[SharedRule],
) -> Result<Vec<u8>, NoMemory>
    requires ids { IsTrue (list_all is_number remove.now) }
    requires differ { IdsDiffer add.now }
    requires tabless { IsTrue (are_tabless add.now) }
    ensures text { IfOk result (λ text. text.items ≡ payload_text name.now remove.now add.now) }
    ensures read { IfOk result (λ text. update_at name.now text.items
        ≡ Some (dynamic name.now remove.now (map normal add.now))) }
{
    are_rules(add);
    written_updates_are_read();
    let value = update_value(alloc, name, remove, add)?;
    Ok(value.to_vec(alloc)?)
}

// What each rule keeps is known of all of them.
fn are_rules(rules: &[SharedRule])
    ensures { All IsRule rules.now }
{
    for shared in rules {
        let _condition = shared.rule().condition();
    }
}

#[tactic(auto, unfolding(keep_spec::specs::Written::update_written))]
fn update_value(
    alloc: Global,
    name: &str,
    remove: &[u32],
    add: &[SharedRule],
) -> Result<Value, NoMemory>
    ensures { IfOk result (λ value. view value ≡ update_written name.now remove.now add.now) }
{
    let mut members = Map::new(alloc);
    let rules = Value::Array(rule_values(alloc, add)?);
    put(alloc, &mut members, "addRules", rules)?;
    let command = Value::try_from_str(alloc, "dynamic")?;
    put(alloc, &mut members, "cmd", command)?;
    let extension = Value::try_from_str(alloc, name)?;
    put(alloc, &mut members, "extension", extension)?;
    let ids = Value::Array(id_values(alloc, remove)?);
    put(alloc, &mut members, "removeRuleIds", ids)?;
    Ok(Value::Object(members))
}

fn put(
    alloc: Global,
    members: &mut Map<String, Value>,
    key: &str,
    value: Value,
) -> Result<(), NoMemory>
    ensures { OnOk result (members_view members.new.entries
        ≡ with_field (members_view members.old.entries) (key.now, Some (view value))) }
{
    Ok(serde_json::put(members, alloc, key, value)?)
}

fn rule_values(alloc: Global, rules: &[SharedRule]) -> Result<Vec<Value>, NoMemory>
    ensures { IfOk result (λ values. map view values.items ≡ map rule_written rules.now) }
{
    let mut values = Vec::with_capacity(alloc, rules.len())?;
    for shared in rules {
        values.push(rule_value(alloc, shared.rule())?)?;
    }
    Ok(values)
}

fn id_values(alloc: Global, ids: &[u32]) -> Result<Vec<Value>, NoMemory>
    ensures { IfOk result (λ values. map view values.items ≡ map id_written ids.now) }
{
    let mut values = Vec::with_capacity(alloc, ids.len())?;
    for id in ids {
        values.push(Value::from(*id))?;
    }
    Ok(values)
}
