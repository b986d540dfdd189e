// Batches of updates.
ghost use Rattle.std.specs.Prelude.{◌≡◌, ◌<◌, ◌≤◌, length, Ok, IfOk, IfErr};
ghost use Rattle.serde_json.specs.View.{view, items_view};
ghost use Rattle.dnr_base.specs.Faults.{Rose};
ghost use Rattle.line_spec.specs.Batch as spec;
ghost use Rattle.line_spec.specs.CommandName as names;
ghost use Rattle.line_spec.specs.IsFault.{MayRefuse, IsCalm};
ghost use Rattle.ruleset_store.specs.Seen.{update_seen, updates_seen};
ghost use Rattle.script_read.specs.Stops.{StopsInElement, StopsInList, StopsInEach};
ghost use Rattle.update_parts.specs.Batch.{items_kept};

use crate::updates::update_in;
use dnr_base::Items;
use line_spec::{CommandName, CommandPath, LineFault, UpdateFault};
use regex_host::RegexHost;
use ruleset_store::Update;
use serde_json::Value;
use std::alloc::Global;
use update_parts::MAX_BATCH;

// The updates of a batch, of which this list was kept.
#[tactic(auto, using(crate::proofs::Limits::count_is))]
pub(crate) fn batch_in<H: RegexHost>(
    alloc: Global,
    kept: &Option<Vec<Value>>,
    host: &mut H,
) -> Result<Items<Update>, LineFault>
    ensures read { IfOk result (λ updates. spec.elements_of (items_kept kept.now) ≡ Ok (updates_seen updates)) }
    ensures some { IfOk result (λ updates. 0 < length updates) }
    ensures few { IfOk result (λ updates. length updates ≤ spec.max_batch) }
    ensures refused { IfErr result (MayRefuse (spec.elements_of (items_kept kept.now)) (λ fault.
        Rose (H.faults host.old) (H.faults host.new) × StopsInList (items_kept kept.now) fault)) }
    ensures calm { IsCalm (H.faults host.old) (H.faults host.new) result }
    ensures later { H.faults host.old ≤ H.faults host.new }
{
    match kept {
        Some(values) if 1 <= values.len() && values.len() <= MAX_BATCH => {
            each_update(alloc, values.as_slice(), host)
        }
        _ => Err(LineFault::BadCommand(CommandPath::Updates)),
    }
}

#[tactic(auto, using(crate::proofs::BatchRead::batch_begins, crate::proofs::BatchRead::batch_ends))]
fn each_update<H: RegexHost>(
    alloc: Global,
    values: &[Value],
    host: &mut H,
) -> Result<Items<Update>, LineFault>
    requires { length values.now ≤ spec.max_batch }
    ensures read { IfOk result (λ updates. spec.elements_from 0 (items_view values.now) ≡ Ok (updates_seen updates)) }
    ensures all { IfOk result (λ updates. length updates ≡ length values.now) }
    ensures refused { IfErr result (MayRefuse (spec.elements_from 0 (items_view values.now)) (λ fault.
        Rose (H.faults host.old) (H.faults host.new) × StopsInEach 0 (items_view values.now) fault)) }
    ensures calm { IsCalm (H.faults host.old) (H.faults host.new) result }
    ensures later { H.faults host.old ≤ H.faults host.new }
{
    let mut updates = Vec::with_capacity(alloc, values.len())?;
    let mut place = 0;
    for value in values {
        match element_in(alloc, place, value, host) {
            Ok(update) => updates.push(update)?,
            Err(fault) => return Err(fault),
        }
        place += 1;
    }
    Ok(Items::build(updates))
}

// The update at this place.
#[tactic(auto, unfolding(line_spec::specs::Batch::element_in))]
fn element_in<H: RegexHost>(
    alloc: Global,
    place: u32,
    tree: &Value,
    host: &mut H,
) -> Result<Update, LineFault>
    ensures read { IfOk result (λ update. spec.element_in place (view tree.now) ≡ Ok (update_seen update)) }
    ensures refused { IfErr result (MayRefuse (spec.element_in place (view tree.now)) (λ fault.
        Rose (H.faults host.old) (H.faults host.new) × StopsInElement place (view tree.now) fault)) }
    ensures calm { IsCalm (H.faults host.old) (H.faults host.new) result }
    ensures later { H.faults host.old ≤ H.faults host.new }
{
    if tree.as_object().is_none() {
        return Err(LineFault::BadCommand(CommandPath::Updates));
    }
    match name_in(tree) {
        Some(CommandName::Update(name)) => match update_in(alloc, name, tree, host) {
            Ok(update) => Ok(update),
            Err(fault) => Err(fault_at(place, fault)),
        },
        _ => Err(LineFault::BadCommand(CommandPath::UpdatesCmd)),
    }
}

// What the object asks for.
fn name_in(tree: &Value) -> Option<CommandName>
    ensures { result ≡ names.name_in (view tree.now) }
{
    match tree.get(CommandPath::Cmd.name()) {
        None => Some(CommandName::Request),
        Some(Value::String(name)) => CommandName::named(name.as_str()),
        Some(_) => None,
    }
}

// What a fault of the update at this place is to the batch.
fn fault_at(place: u32, fault: UpdateFault) -> LineFault
    ensures { result ≡ spec.fault_at place fault }
{
    match fault {
        UpdateFault::BadField(field) => LineFault::BadCommand(CommandPath::InUpdates(field)),
        UpdateFault::RuleRefused(refusal) => LineFault::InBatch(place, refusal),
        UpdateFault::NoMemory => LineFault::NoMemory,
    }
}
