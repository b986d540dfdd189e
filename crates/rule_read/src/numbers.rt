ghost use Rattle.std.specs.Prelude.{◌≡◌, codes, Ok, IfOk, IfErr, option_map};
ghost use Rattle.std.specs.Option.{option_copied};
ghost use Rattle.serde_json.specs.View.{view};
ghost use Rattle.serde_json.specs.Find.{get};
ghost use Rattle.json_spec.specs.ReadRule as spec;
ghost use Rattle.json_spec.specs.ReadRule.{numbers_in, condition_at};
ghost use Rattle.json_spec.specs.MayRefuse.{IsRefused};
ghost use Rattle.rule_read.specs.Reading.{is_taken};
ghost use Rattle.rule_read.specs.Seen.{numbers_seen};

use crate::taken_ids::TakenIds;
use rule_spec::{RulePath, RuleRefusal};
use serde_json::Value;

// The numbers of a rule, and its condition.
#[derive(Clone, Copy)]
pub(crate) struct Numbers<'a> {
    pub id: u32,
    pub priority: u32,
    pub condition: &'a Value,
}

// Reads an object with an id that is not taken, a priority and a condition.
#[tactic(auto, unfolding(json_spec::specs::ReadRule::numbers_in))]
pub(crate) fn read_numbers<'a>(
    value: &'a Value,
    taken: &TakenIds,
) -> Result<Numbers<'a>, RuleRefusal>
    ensures ok { IfOk result (λ numbers.
        numbers_in (is_taken taken.now) (view value.now)
        ≡ Ok (numbers_seen numbers)) }
    ensures condition { IfOk result (λ numbers.
        view numbers.condition.now ≡ condition_at (view value.now)) }
    ensures refused { IfErr result
        (IsRefused (numbers_in (is_taken taken.now) (view value.now))) }
{
    if value.as_object().is_none() {
        return Err(RuleRefusal::NotObject);
    }
    let Some(id) = id_of(value) else {
        return Err(RuleRefusal::BadId);
    };
    if taken.has(id) {
        return Err(RuleRefusal::DuplicateId);
    }
    let Some(priority) = priority_of(value) else {
        return Err(RuleRefusal::BadPriority);
    };
    match value.get("condition") {
        Some(condition) if condition.as_object().is_some() => Ok(Numbers {
            id,
            priority,
            condition,
        }),
        _ => Err(RuleRefusal::BadField(RulePath::Condition)),
    }
}

// The id, where it is a valid one.
pub(crate) fn id_of(value: &Value) -> Option<u32>
    ensures { result ≡ spec.id_of (view value.now) }
{
    as_id(value.get("id")?)
}

// A priority that is absent is 1.
fn priority_of(value: &Value) -> Option<u32>
    ensures { result ≡ spec.priority_of (view value.now) }
{
    match value.get("priority") {
        Some(priority) => as_id(priority),
        None => Some(1),
    }
}

// A whole number from 1 to 2,147,483,647, written without a fraction or an exponent.
fn as_id(value: &Value) -> Option<u32>
    ensures { result ≡ spec.as_id (view value.now) }
{
    let number = value.as_u64()?;
    if (1..=2_147_483_647).contains(&number) {
        Some(number as u32)
    } else {
        None
    }
}
