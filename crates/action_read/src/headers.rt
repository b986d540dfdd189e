ghost use Rattle.std.specs.Prelude.{◌≡◌, ◌++◌, ◌&&◌, [], List, Ok, IfOk, IfErr, map, option_map};
ghost use Rattle.std.specs.Option.{option_copied};
ghost use Rattle.serde_json.specs.View.{view, items_view};
ghost use Rattle.json_spec.specs.RuleFields.{each};
ghost use Rattle.json_spec.specs.RuleAction as spec;
ghost use Rattle.json_spec.specs.RuleAction.{changes_at, ops_in, modify_in};
ghost use Rattle.dnr_rules.specs.Seen.{action_seen};
ghost use Rattle.json_spec.specs.MayRefuse.{IsRefused};
ghost use Rattle.action_read.specs.Changes.{change_seen, changes_seen};
ghost use Rattle.action_read.specs.Seen.{data_in};

use dnr_base::{Direction, Items, NoMemory, Operation};
use dnr_rules::Action;
use dnr_spec::HeaderRefusal;
use header_actions::HeaderOp;
use rule_spec::{HeaderCause, RuleRefusal};
use serde_json::Value;
use std::alloc::Global;

// A change as it stands in the list.
#[derive(Clone, Copy, Debug)]
pub(crate) struct Change<'a> {
    pub header: &'a str,
    pub operation: Operation,
    pub value: Option<&'a str>,
}

// Reads the header changes of an action. Both lists have their shape before an operation is tested.
#[tactic(auto, unfolding(json_spec::specs::RuleAction::modify_in))]
pub(crate) fn read_changes(alloc: Global, action: &Value) -> Result<Action, RuleRefusal>
    ensures ok { IfOk result (λ read. modify_in (view action.now) ≡ Ok (action_seen read)) }
    ensures refused { IfErr result (IsRefused (modify_in (view action.now))) }
{
    let request = action.get("requestHeaders");
    let response = action.get("responseHeaders");
    if have_no_changes(request, response) {
        return Err(RuleRefusal::BadHeader(HeaderCause::NoHeaders));
    }
    let request = changes_of(alloc, request)?;
    let response = changes_of(alloc, response)?;
    let request = read_ops(alloc, Direction::Request, request.as_slice())?;
    let response = read_ops(alloc, Direction::Response, response.as_slice())?;
    let request = Items::build(request);
    let response = Items::build(response);
    Ok(Action::modify_headers(alloc, request, response)?)
}

fn have_no_changes(request: Option<&Value>, response: Option<&Value>) -> bool
    ensures { result ≡ (spec.is_empty_list (data_in request.entry)
        && spec.is_empty_list (data_in response.entry)) }
{
    is_empty_list(request) && is_empty_list(response)
}

// Absent, or a list without items.
fn is_empty_list(list: Option<&Value>) -> bool
    ensures { result ≡ spec.is_empty_list (data_in list.entry) }
{
    match list {
        None => true,
        Some(value) => match value.as_array() {
            Some(values) => values.is_empty(),
            None => false,
        },
    }
}

// The changes of a list, which are none where it is absent.
fn changes_of<'a>(alloc: Global, list: Option<&'a Value>) -> Result<Vec<Change<'a>>, RuleRefusal>
    ensures ok { IfOk result (λ changes.
        changes_at (data_in list.entry) ≡ Some (changes_seen changes.items)) }
    ensures refused { IfErr result (IsRefused (spec.or_bad_shape (changes_at (data_in list.entry)))) }
{
    match changes_in(alloc, list)? {
        Some(changes) => Ok(changes),
        None => Err(RuleRefusal::BadHeader(HeaderCause::BadShape)),
    }
}

#[tactic(auto, unfolding(json_spec::specs::RuleAction::changes_at))]
fn changes_in<'a>(
    alloc: Global,
    list: Option<&'a Value>,
) -> Result<Option<Vec<Change<'a>>>, NoMemory>
    ensures { IfOk result (λ changes.
        option_map (λ list. changes_seen list.items) changes ≡ changes_at (data_in list.entry)) }
{
    match list {
        None => Ok(Some(Vec::new(alloc))),
        Some(value) => match value.as_array() {
            Some(values) => changes_among(alloc, values),
            None => Ok(None),
        },
    }
}

fn changes_among(alloc: Global, values: &[Value]) -> Result<Option<Vec<Change<'_>>>, NoMemory>
    ensures { IfOk result (λ changes. option_map (λ list. changes_seen list.items) changes
        ≡ each spec.as_change (items_view values.now)) }
{
    let mut changes = Vec::with_capacity(alloc, values.len())?;
    for value in values {
        let Some(change) = as_change(value) else {
            return Ok(None);
        };
        changes.push(change)?;
    }
    Ok(Some(changes))
}

fn as_change(value: &Value) -> Option<Change<'_>>
    ensures { option_map change_seen result ≡ spec.as_change (view value.now) }
{
    let header = value.get("header").and_then(Value::as_str)?;
    let operation = operation_named(value.get("operation").and_then(Value::as_str)?)?;
    match value.get("value") {
        None => Some(Change {
            header,
            operation,
            value: None,
        }),
        Some(value) => Some(Change {
            header,
            operation,
            value: Some(value.as_str()?),
        }),
    }
}

fn operation_named(name: &str) -> Option<Operation>
    ensures { result ≡ spec.operation_named name.now }
{
    match name {
        "append" => Some(Operation::Append),
        "set" => Some(Operation::Set),
        "remove" => Some(Operation::Remove),
        _ => None,
    }
}

// Reads the operations, up to the first that is refused.
#[tactic(auto, unfolding(json_spec::specs::RuleAction::ops_in))]
fn read_ops(
    alloc: Global,
    direction: Direction,
    changes: &[Change<'_>],
) -> Result<Vec<HeaderOp>, RuleRefusal>
    ensures ok { IfOk result (λ ops.
        ops_in direction (changes_seen changes.now) ≡ Ok ops.items) }
    ensures refused { IfErr result (IsRefused (ops_in direction (changes_seen changes.now))) }
{
    let mut ops = Vec::with_capacity(alloc, changes.len())?;
    for change in changes {
        let op = read_op(alloc, direction, change)?;
        ops.push(op)?;
    }
    Ok(ops)
}

fn read_op(
    alloc: Global,
    direction: Direction,
    change: &Change<'_>,
) -> Result<HeaderOp, RuleRefusal>
    ensures ok { IfOk result (λ op.
        spec.read_change direction (change_seen change.now) ≡ Ok op) }
    ensures refused { IfErr result
        (IsRefused (spec.or_bad_change (spec.read_change direction (change_seen change.now)))) }
{
    match HeaderOp::read(
        alloc,
        direction,
        change.header,
        change.operation,
        change.value,
    ) {
        Ok(op) => Ok(op),
        Err(HeaderRefusal::NoMemory) => Err(RuleRefusal::NoMemory),
        Err(refusal) => Err(RuleRefusal::BadHeader(HeaderCause::Op(refusal))),
    }
}
