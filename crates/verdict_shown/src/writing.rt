// The texts of a verdict, one behind another, and where they stand.
ghost use Rattle.std.specs.Prelude.{◌≡◌, ◌≤◌, length, map, IfOk, OnOk, option_map};
ghost use Rattle.std.specs.Option.{option_copied};
ghost use Rattle.verdict_shown.specs.Shown as spec;
ghost use Rattle.verdict_shown.specs.Written.{AreWithin, Grows, IsChangeWithin, IsRuleWithin, text_ends};

use crate::{ShownChange, ShownRule, ShownText};
use dnr_base::{Direction, NoMemory, Operation, RuleName, Text};
use dnr_verdict::NamedOp;
use rule_spec::Outcome;
use std::alloc::Global;

// A text behind the others.
#[tactic(auto, using(crate::proofs::Places::text_put, crate::proofs::Places::text_grows))]
fn put_text(text: &str, into: &mut Vec<u8>) -> Result<ShownText, NoMemory>
    ensures read { IfOk result (λ place. spec.text_at into.new.items place ≡ text.now) }
    ensures within { IfOk result (λ place. text_ends place ≤ length into.new.items) }
    ensures grows { OnOk result (Grows into.old.items into.new.items) }
{
    let from = into.len();
    into.extend_from_slice(text.as_bytes())?;
    Ok(ShownText {
        from,
        length: text.len(),
    })
}

// No text.
fn nowhere() -> ShownText
    ensures { result ≡ record { from = 0; length = 0 } }
{
    ShownText { from: 0, length: 0 }
}

// A text, if there is one, and whether there is.
#[tactic(auto, using(crate::proofs::Places::grows_same))]
fn put_if(text: Option<&str>, into: &mut Vec<u8>) -> Result<(bool, ShownText), NoMemory>
    ensures read { IfOk result (λ put. spec.if_given put.0 (spec.text_at into.new.items put.1)
        ≡ option_copied text.entry) }
    ensures within { IfOk result (λ put. text_ends put.1 ≤ length into.new.items) }
    ensures grows { OnOk result (Grows into.old.items into.new.items) }
{
    match text {
        Some(text) => {
            let place = put_text(text, into)?;
            Ok((true, place))
        }
        None => Ok((false, nowhere())),
    }
}

#[tactic(auto, using(crate::proofs::Places::text_stays, crate::proofs::Places::grows_on, crate::proofs::Places::grows_longer))]
fn put_rule(rule: &RuleName, into: &mut Vec<u8>) -> Result<ShownRule, NoMemory>
    ensures read { IfOk result (λ shown. spec.rule_at into.new.items shown ≡ rule.now) }
    ensures within { IfOk result (IsRuleWithin (length into.new.items)) }
    ensures grows { OnOk result (Grows into.old.items into.new.items) }
{
    let extension = put_text(rule.ext.as_str(), into)?;
    let ruleset = put_text(rule.set.as_str(), into)?;
    Ok(ShownRule {
        extension,
        ruleset,
        id: rule.id,
    })
}

fn direction_number(direction: Direction) -> u32
    ensures { result ≡ spec.direction_number direction }
{
    match direction {
        Direction::Request => 0,
        Direction::Response => 1,
    }
}

fn operation_number(operation: Operation) -> u32
    ensures { result ≡ spec.operation_number operation }
{
    match operation {
        Operation::Append => 0,
        Operation::Set => 1,
        Operation::Remove => 2,
    }
}

pub(crate) fn outcome_number(outcome: Outcome) -> u32
    ensures { result ≡ spec.outcome_number outcome }
{
    match outcome {
        Outcome::None => 0,
        Outcome::Block => 1,
        Outcome::Redirect => 2,
        Outcome::Upgrade => 3,
        Outcome::Allow => 4,
    }
}

#[tactic(auto, using(crate::proofs::Places::text_stays, crate::proofs::Places::given_stays, crate::proofs::Places::grows_on, crate::proofs::Places::grows_longer))]
fn put_change(named: &NamedOp, into: &mut Vec<u8>) -> Result<ShownChange, NoMemory>
    ensures read { IfOk result (λ shown. spec.change_at into.new.items shown ≡ spec.change_of named.now) }
    ensures within { IfOk result (IsChangeWithin (length into.new.items)) }
    ensures grows { OnOk result (Grows into.old.items into.new.items) }
{
    let name = put_text(named.op.name(), into)?;
    let (has_value, value) = put_if(named.op.value(), into)?;
    let rule = put_rule(&named.rule, into)?;
    Ok(ShownChange {
        name,
        value,
        rule,
        direction: direction_number(named.direction),
        operation: operation_number(named.op.operation()),
        has_value,
    })
}

// The changes in their order.
#[tactic(auto, using(crate::proofs::Changes::shown_begin, crate::proofs::Changes::shown_go_on, crate::proofs::Changes::shown_end, crate::proofs::Changes::shown_within))]
pub(crate) fn put_changes(
    alloc: Global,
    ops: &[NamedOp],
    into: &mut Vec<u8>,
) -> Result<Vec<ShownChange>, NoMemory>
    ensures read { IfOk result (λ shown. map (spec.change_at into.new.items) shown.items ≡ map spec.change_of ops.now) }
    ensures within { IfOk result (λ shown. AreWithin (length into.new.items) shown.items) }
{
    let mut shown = Vec::with_capacity(alloc, ops.len())?;
    for named in ops {
        shown.push(put_change(named, into)?)?;
    }
    Ok(shown)
}

// The rule that decides, if there is one, and whether there is.
#[tactic(auto, using(crate::proofs::Places::grows_same))]
pub(crate) fn put_rule_if(
    rule: &Option<RuleName>,
    into: &mut Vec<u8>,
) -> Result<(bool, ShownRule), NoMemory>
    ensures read { IfOk result (λ put. spec.if_given put.0 (spec.rule_at into.new.items put.1) ≡ rule.now) }
    ensures within { IfOk result (λ put. IsRuleWithin (length into.new.items) put.1) }
    ensures grows { OnOk result (Grows into.old.items into.new.items) }
{
    match rule {
        Some(rule) => {
            let shown = put_rule(rule, into)?;
            Ok((true, shown))
        }
        None => Ok((
            false,
            ShownRule {
                extension: nowhere(),
                ruleset: nowhere(),
                id: 0,
            },
        )),
    }
}

// The same of the URL that a request is sent to.
pub(crate) fn put_target(
    target: &Option<Text>,
    into: &mut Vec<u8>,
) -> Result<(bool, ShownText), NoMemory>
    ensures read { IfOk result (λ put. spec.if_given put.0 (spec.text_at into.new.items put.1) ≡ target.now) }
    ensures within { IfOk result (λ put. text_ends put.1 ≤ length into.new.items) }
    ensures grows { OnOk result (Grows into.old.items into.new.items) }
{
    put_if(target.as_ref().map(Text::as_str), into)
}
