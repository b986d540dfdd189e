ghost use Rattle.std.specs.Prelude.{◌≡◌, IfOk, OnOk};
ghost use Rattle.serde_json.specs.View.{view};
ghost use Rattle.serde_json.specs.Written.{compact_text};
ghost use Rattle.json_spec.specs.Written.{rule_written, written};
ghost use Rattle.rule_write.specs.Texts.{with_rule};

use crate::action::action_value;
use crate::condition::condition_value;
use crate::fields::put;
use dnr_base::NoMemory;
use dnr_rules::Rule;
use serde_json::{Map, Value};
use std::alloc::Global;

/// The text of rules: their list in JSON with no space, in the form in which rules are read. A field that says no
/// more than its absence is left out, and lists of domains and tabs are ascending, without repeats.
///
/// `NoMemory`: no memory is left for the text.
pub fn write_rules(alloc: Global, rules: &[Rule]) -> Result<Vec<u8>, NoMemory>
    ensures { IfOk result (λ text. text.items ≡ written rules.now) }
{
    let mut text = Vec::new(alloc);
    text.push(b'[')?;
    for rule in rules {
        write_rule(alloc, &mut text, rule)?;
    }
    text.push(b']')?;
    Ok(text)
}

// Writes a rule behind the others.
fn write_rule(alloc: Global, text: &mut Vec<u8>, rule: &Rule) -> Result<(), NoMemory>
    ensures { OnOk result (text.new.items ≡ with_rule text.old.items rule.now) }
{
    if text.len() > 1 {
        text.push(b',')?;
    }
    let bytes = rule_text(alloc, rule)?;
    text.extend_from_slice(bytes.as_slice())?;
    Ok(())
}

#[tactic(auto, using(crate::proofs::Plain::rule_plain))]
fn rule_text(alloc: Global, rule: &Rule) -> Result<Vec<u8>, NoMemory>
    ensures { IfOk result (λ text. text.items ≡ compact_text (rule_written rule.now)) }
{
    let value = rule_value(alloc, rule)?;
    Ok(value.to_vec(alloc)?)
}

/// A rule as a JSON value, in the form in which rules are read.
///
/// `NoMemory`: no memory is left for the value.
#[tactic(auto, unfolding(json_spec::specs::Written::rule_written))]
pub fn rule_value(alloc: Global, rule: &Rule) -> Result<Value, NoMemory>
    ensures { IfOk result (λ value. view value ≡ rule_written rule.now) }
{
    let mut members = Map::new(alloc);
    put(alloc, &mut members, "id", Some(Value::from(rule.id())))?;
    put(
        alloc,
        &mut members,
        "priority",
        Some(Value::from(rule.priority())),
    )?;
    let condition = condition_value(alloc, rule.condition())?;
    put(alloc, &mut members, "condition", Some(condition))?;
    let action = action_value(alloc, rule.action())?;
    put(alloc, &mut members, "action", Some(action))?;
    Ok(Value::Object(members))
}
