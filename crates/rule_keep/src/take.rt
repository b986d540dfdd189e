// One payload of a file: how it is read, and whether its update is accepted.
ghost use Rattle.std.specs.Prelude.{◌≡◌, ◌≤◌, true, false, Some, None, Ok};
ghost use Rattle.std.specs.Prelude.{IfOk, IsErrOf, IsTrue, IsFalse};
ghost use Rattle.dnr_base.specs.Faults.{Rose};
ghost use Rattle.update_spec.specs.Entries as entries;
ghost use Rattle.ruleset_store.specs.Seen.{update_seen};
ghost use Rattle.script_read.specs.Seen.{command_seen};
ghost use Rattle.keep_spec.specs.Kept as spec;
ghost use Rattle.rule_keep.specs.Refusals.{stop_by_cause, stop_by_fault, stop_by_refusal};

use crate::refusals::Stop;
use line_spec::LineFault;
use regex_host::RegexHost;
use rule_spec::RuleRefusal;
use ruleset_store::{Store, Update};
use script_read::{Command, Memo, read_line_with};
use std::alloc::Global;
use update_spec::Refusal;

// An update, and the state that it leaves.
#[derive(Drop)]
pub(crate) struct Taken {
    pub update: Update,
    pub store: Store,
}

// Reads a payload as a script line, and has its update judged.
pub(crate) fn take<H: RegexHost>(
    alloc: Global,
    name: &str,
    payload: &[u8],
    store: &Store,
    memo: &mut Memo,
    host: &mut H,
) -> Result<Taken, Stop>
    ensures read { IfOk result (λ taken.
        spec.update_at name.now payload.now ≡ Some (update_seen taken.update)) }
    ensures accepted { IfOk result (λ taken.
        spec.accepts store.now (update_seen taken.update) ≡ true) }
    ensures after { IfOk result (λ taken.
        taken.store ≡ entries.after store.now (entries.one (update_seen taken.update))) }
    ensures refused { IsErrOf result Stop.Refused →
        spec.takes name.now store.now payload.now ≡ false }
    ensures fault { IsErrOf result Stop.HostFault → Rose (H.faults host.old) (H.faults host.new) }
    ensures calm { (IsErrOf result Stop.HostFault → ⊥) →
        H.faults host.new ≡ H.faults host.old }
    ensures later { H.faults host.old ≤ H.faults host.new }
{
    let update = read_payload(alloc, name, payload, memo, host)?;
    match store.apply(alloc, &update) {
        Ok(store) => Ok(Taken { update, store }),
        Err(refusal) => Err(stop_of_refusal(&refusal)),
    }
}

// The dynamic update of the extension that a payload reads as.
pub(crate) fn read_payload<H: RegexHost>(
    alloc: Global,
    name: &str,
    payload: &[u8],
    memo: &mut Memo,
    host: &mut H,
) -> Result<Update, Stop>
    ensures read { IfOk result (λ update.
        spec.update_at name.now payload.now ≡ Some (update_seen update)) }
    ensures refused { IsErrOf result Stop.Refused → spec.update_at name.now payload.now ≡ None }
    ensures fault { IsErrOf result Stop.HostFault → Rose (H.faults host.old) (H.faults host.new) }
    ensures calm { (IsErrOf result Stop.HostFault → ⊥) →
        H.faults host.new ≡ H.faults host.old }
    ensures later { H.faults host.old ≤ H.faults host.new }
{
    match read_line_with(alloc, 1, payload, memo, host) {
        Ok(command) => dynamic_in(name, command),
        Err(fault) => Err(stop_of(&fault)),
    }
}

// The dynamic update of the extension that a command is.
fn dynamic_in(name: &str, command: Command) -> Result<Update, Stop>
    ensures read { IfOk result (λ update.
        spec.dynamic_in name.now (Ok (command_seen command)) ≡ Some (update_seen update)) }
    ensures refused { IsErrOf result Stop.Refused →
        spec.dynamic_in name.now (Ok (command_seen command)) ≡ None }
    ensures fault { IsErrOf result Stop.HostFault → ⊥ }
    ensures memory { IsErrOf result Stop.NoMemory → ⊥ }
{
    match command {
        Command::Update(update) => {
            if is_dynamic_of(&update, name) {
                return Ok(update);
            }
            Err(Stop::Refused)
        }
        _ => Err(Stop::Refused),
    }
}

/// Whether it is a dynamic update of this extension. It takes no memory.
pub fn is_dynamic_of(update: &Update, name: &str) -> bool
    ensures yes { IsTrue result →
        spec.dynamic_of name.now (update_seen update.now) ≡ Some (update_seen update.now) }
    ensures no { IsFalse result → spec.dynamic_of name.now (update_seen update.now) ≡ None }
{
    match update {
        Update::Dynamic { extension, .. } => extension.as_str() == name,
        _ => false,
    }
}

fn stop_of(fault: &LineFault) -> Stop
    ensures { result ≡ stop_by_fault fault.now }
{
    match fault {
        LineFault::RuleRefused(refusal) => stop_of_cause(refusal.cause),
        LineFault::InBatch(_, refusal) => stop_of_cause(refusal.cause),
        LineFault::NoMemory => Stop::NoMemory,
        _ => Stop::Refused,
    }
}

fn stop_of_cause(cause: RuleRefusal) -> Stop
    ensures { result ≡ stop_by_cause cause }
{
    match cause {
        RuleRefusal::HostFault => Stop::HostFault,
        _ => Stop::Refused,
    }
}

fn stop_of_refusal(refusal: &Refusal) -> Stop
    ensures { result ≡ stop_by_refusal refusal.now }
{
    match refusal {
        Refusal::NoMemory => Stop::NoMemory,
        _ => Stop::Refused,
    }
}
