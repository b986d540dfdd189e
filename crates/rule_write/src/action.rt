ghost use Rattle.std.specs.Prelude.{◌≡◌, [], ◌∷◌, Some, IfOk, OnOk, map, option_map};
ghost use Rattle.serde_json.specs.Data.{string};
ghost use Rattle.serde_json.specs.View.{view, members_view};
ghost use Rattle.dnr_rules.specs.Seen.{action_seen};
ghost use Rattle.json_spec.specs.Written as spec;
ghost use Rattle.json_spec.specs.Written.{with_fields, action_written, redirect_written};
ghost use Rattle.json_spec.specs.Written.{transform_written, changes_written, pair_written};
ghost use Rattle.json_spec.specs.Written.{op_written, operation_name};

use crate::fields::{put, put_text, text_values, true_or_none, unless_empty};
use dnr_base::{NoMemory, Operation, QueryPair, QueryTransform, Redirect, Text, Transform};
use dnr_rules::Action;
use header_actions::HeaderOp;
use serde_json::{Map, Value};
use std::alloc::Global;

#[tactic(auto, unfolding(json_spec::specs::Written::action_written))]
pub(crate) fn action_value(alloc: Global, action: &Action) -> Result<Value, NoMemory>
    ensures { IfOk result (λ value. view value ≡ action_written (action_seen action.now)) }
{
    let mut members = Map::new(alloc);
    put_text(alloc, &mut members, "type", Some(type_name(action)))?;
    put_target(alloc, &mut members, action)?;
    Ok(Value::Object(members))
}

fn type_name(action: &Action) -> &'static str
    ensures { result.now ≡ spec.type_name (action_seen action.now) }
{
    match action {
        Action::Block => "block",
        Action::Redirect(_) => "redirect",
        Action::Allow => "allow",
        Action::UpgradeScheme => "upgradeScheme",
        Action::ModifyHeaders(_) => "modifyHeaders",
        Action::AllowAllRequests => "allowAllRequests",
    }
}

// Puts in what the action has beside its type.
fn put_target(
    alloc: Global,
    members: &mut Map<String, Value>,
    action: &Action,
) -> Result<(), NoMemory>
    ensures { OnOk result (members_view members.new.entries
        ≡ with_fields (members_view members.old.entries) (spec.target_fields (action_seen action.now))) }
{
    match action {
        Action::Redirect(target) => {
            let target = redirect_value(alloc, target)?;
            put(alloc, members, "redirect", Some(target))
        }
        Action::ModifyHeaders(ops) => {
            let request = op_values(alloc, ops.request.as_slice())?;
            put(alloc, members, "requestHeaders", unless_empty(request))?;
            let response = op_values(alloc, ops.response.as_slice())?;
            put(alloc, members, "responseHeaders", unless_empty(response))
        }
        _ => Ok(()),
    }
}

fn redirect_value(alloc: Global, target: &Redirect) -> Result<Value, NoMemory>
    ensures { IfOk result (λ value. view value ≡ redirect_written target.now) }
{
    match target {
        Redirect::ExtensionPath(path) => text_alone(alloc, "extensionPath", path),
        Redirect::Transform(transform) => {
            let transform = transform_value(alloc, transform)?;
            field_alone(alloc, "transform", transform)
        }
        Redirect::Url(url) => text_alone(alloc, "url", url),
        Redirect::RegexSubstitution(text) => text_alone(alloc, "regexSubstitution", text),
    }
}

fn text_alone(alloc: Global, key: &str, text: &Text) -> Result<Value, NoMemory>
    ensures { IfOk result (λ value. view value ≡ spec.object_of ((key.now, Some (string text.now)) ∷ [])) }
{
    let text = Value::try_from_str(alloc, text.as_str())?;
    field_alone(alloc, key, text)
}

// An object of one field.
fn field_alone(alloc: Global, key: &str, value: Value) -> Result<Value, NoMemory>
    ensures { IfOk result (λ object. view object ≡ spec.object_of ((key.now, Some (view value)) ∷ [])) }
{
    let mut members = Map::new(alloc);
    put(alloc, &mut members, key, Some(value))?;
    Ok(Value::Object(members))
}

#[tactic(auto, unfolding(json_spec::specs::Written::transform_written))]
fn transform_value(alloc: Global, transform: &Transform) -> Result<Value, NoMemory>
    ensures { IfOk result (λ value. view value ≡ transform_written transform.now) }
{
    let mut members = Map::new(alloc);
    put_place(alloc, &mut members, transform)?;
    put_query(alloc, &mut members, transform)?;
    put_end(alloc, &mut members, transform)?;
    Ok(Value::Object(members))
}

fn put_part(
    alloc: Global,
    members: &mut Map<String, Value>,
    key: &str,
    text: &Option<Text>,
) -> Result<(), NoMemory>
    ensures { OnOk result (members_view members.new.entries
        ≡ spec.with_field (members_view members.old.entries) (key.now, option_map string text.now)) }
{
    match text {
        Some(text) => put_text(alloc, members, key, Some(text.as_str())),
        None => Ok(()),
    }
}

fn put_place(
    alloc: Global,
    members: &mut Map<String, Value>,
    transform: &Transform,
) -> Result<(), NoMemory>
    ensures { OnOk result (members_view members.new.entries
        ≡ with_fields (members_view members.old.entries) (spec.place_fields transform.now)) }
{
    let scheme = match transform.scheme {
        Some(scheme) => Some(scheme.name()),
        None => None,
    };
    put_text(alloc, members, "scheme", scheme)?;
    put_part(alloc, members, "host", &transform.host)?;
    put_part(alloc, members, "port", &transform.port)?;
    put_part(alloc, members, "path", &transform.path)
}

fn put_query(
    alloc: Global,
    members: &mut Map<String, Value>,
    transform: &Transform,
) -> Result<(), NoMemory>
    ensures { OnOk result (members_view members.new.entries
        ≡ with_fields (members_view members.old.entries) (spec.query_fields transform.now)) }
{
    put_part(alloc, members, "query", &transform.query)?;
    let changes = given_changes(alloc, &transform.query_transform)?;
    put(alloc, members, "queryTransform", changes)
}

fn put_end(
    alloc: Global,
    members: &mut Map<String, Value>,
    transform: &Transform,
) -> Result<(), NoMemory>
    ensures { OnOk result (members_view members.new.entries
        ≡ with_fields (members_view members.old.entries) (spec.end_fields transform.now)) }
{
    put_part(alloc, members, "fragment", &transform.fragment)?;
    put_part(alloc, members, "username", &transform.username)?;
    put_part(alloc, members, "password", &transform.password)
}

fn given_changes(alloc: Global, changes: &Option<QueryTransform>) -> Result<Option<Value>, NoMemory>
    ensures { IfOk result (λ value. option_map view value ≡ option_map changes_written changes.now) }
{
    match changes {
        Some(changes) => Ok(Some(changes_value(alloc, changes)?)),
        None => Ok(None),
    }
}

fn changes_value(alloc: Global, changes: &QueryTransform) -> Result<Value, NoMemory>
    ensures { IfOk result (λ value. view value ≡ changes_written changes.now) }
{
    let mut members = Map::new(alloc);
    let remove = text_values(alloc, changes.remove.as_slice())?;
    put(alloc, &mut members, "removeParams", unless_empty(remove))?;
    let add = pair_values(alloc, changes.add.as_slice())?;
    put(alloc, &mut members, "addOrReplaceParams", unless_empty(add))?;
    Ok(Value::Object(members))
}

fn pair_values(alloc: Global, pairs: &[QueryPair]) -> Result<Vec<Value>, NoMemory>
    ensures { IfOk result (λ values. map view values.items ≡ map pair_written pairs.now) }
{
    let mut values = Vec::with_capacity(alloc, pairs.len())?;
    for pair in pairs {
        values.push(pair_value(alloc, pair)?)?;
    }
    Ok(values)
}

fn pair_value(alloc: Global, pair: &QueryPair) -> Result<Value, NoMemory>
    ensures { IfOk result (λ value. view value ≡ pair_written pair.now) }
{
    let mut members = Map::new(alloc);
    put_text(alloc, &mut members, "key", Some(pair.key.as_str()))?;
    put_text(alloc, &mut members, "value", Some(pair.value.as_str()))?;
    put(
        alloc,
        &mut members,
        "replaceOnly",
        true_or_none(pair.replace_only),
    )?;
    Ok(Value::Object(members))
}

fn op_values(alloc: Global, ops: &[HeaderOp]) -> Result<Vec<Value>, NoMemory>
    ensures { IfOk result (λ values. map view values.items ≡ map op_written ops.now) }
{
    let mut values = Vec::with_capacity(alloc, ops.len())?;
    for op in ops {
        values.push(op_value(alloc, op)?)?;
    }
    Ok(values)
}

fn op_value(alloc: Global, op: &HeaderOp) -> Result<Value, NoMemory>
    ensures { IfOk result (λ value. view value ≡ op_written op.now) }
{
    let mut members = Map::new(alloc);
    put_text(alloc, &mut members, "header", Some(op.name()))?;
    let operation = operation_text(op.operation());
    put_text(alloc, &mut members, "operation", Some(operation))?;
    put_text(alloc, &mut members, "value", op.value())?;
    Ok(Value::Object(members))
}

fn operation_text(operation: Operation) -> &'static str
    ensures { result.now ≡ operation_name operation }
{
    match operation {
        Operation::Append => "append",
        Operation::Set => "set",
        Operation::Remove => "remove",
    }
}
