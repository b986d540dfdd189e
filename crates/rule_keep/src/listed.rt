// The updates that the records of a file hold.
ghost use Rattle.std.specs.Prelude.{◌≡◌, ◌≤◌, ℕ, true, false, length, drop};
ghost use Rattle.std.specs.Prelude.{IfOk, IsErrOf, MatchOption};
ghost use Rattle.dnr_base.specs.Faults.{Rose};
ghost use Rattle.ruleset_store.specs.Seen.{updates_seen};
ghost use Rattle.keep_records.specs.Records.{stands, payloads, end_of};
ghost use Rattle.keep_records.specs.Ends.{max_file};
ghost use Rattle.keep_spec.specs.Kept as spec;
ghost use Rattle.keep_spec.specs.Agrees.{AreRead, IsFirstRefused};
ghost use Rattle.rule_keep.specs.Listed.{ReadNext, IsFound};

use crate::handed::Updates;
use crate::refusals::{OpenRefusal, refusal_of};
use crate::replayed::read_quickly;
use crate::take::take;
use dnr_base::{NoMemory, Text};
use keep_records::first_payload;
use regex_host::RegexHost;
use ruleset_store::{Extension, Store, Update};
use script_read::Memo;
use std::alloc::Global;

// What the records of a file hold: what is handed out of the updates, the place where the records end, and the state that
// is left.
#[derive(Drop)]
pub(crate) struct Found<U> {
    pub updates: U,
    pub place: u64,
    pub store: Store,
}

// What the records of a file hold, unless one of its payloads is none of the extension or is refused.
pub(crate) fn read_updates<U: Updates, H: RegexHost>(
    alloc: Global,
    name: &str,
    bytes: &[u8],
    host: &mut H,
) -> Result<Found<U>, OpenRefusal>
    requires { length bytes.now ≤ max_file }
    ensures found { IfOk result (λ found.
        IsFound name.now bytes.now found.place found.store) }
    ensures updates { IfOk result (λ found.
        U.stands found.updates (spec.kept name.now bytes.now)) }
    ensures bad { (offset : ℕ) → IsErrOf result (OpenRefusal.BadRecord offset) →
        IsFirstRefused name.now (payloads bytes.now) offset }
    ensures no_fault { IsErrOf result OpenRefusal.DiskFault → ⊥ }
    ensures not_long { IsErrOf result OpenRefusal.KeepTooLong → ⊥ }
    ensures fault { IsErrOf result OpenRefusal.HostFault →
        Rose (H.faults host.old) (H.faults host.new) }
    ensures calm { (IsErrOf result OpenRefusal.HostFault → ⊥) →
        H.faults host.new ≡ H.faults host.old }
    ensures later { H.faults host.old ≤ H.faults host.new }
{
    match read_quickly(alloc, name, bytes, host)? {
        Some(found) => Ok(found),
        None => Ok(found_of(alloc, read_list(alloc, name, bytes, host)?)?),
    }
}

// What is handed out of a list.
fn found_of<U: Updates>(alloc: Global, listed: Listed) -> Result<Found<U>, NoMemory>
    ensures updates { IfOk result (λ found.
        U.stands found.updates (updates_seen listed.list.items)) }
    ensures place { IfOk result (λ found. found.place ≡ listed.place) }
    ensures store { IfOk result (λ found. found.store ≡ listed.store) }
{
    let mut updates = U::none(alloc);
    for update in listed.list {
        updates.add(update)?;
    }
    Ok(Found {
        updates,
        place: listed.place,
        store: listed.store,
    })
}

// The updates of a file, the place where the records end, and the state that is left.
#[derive(Drop)]
struct Listed {
    pub list: Vec<Update>,
    pub place: u64,
    pub store: Store,
}

// The same, of which each update is made on a store. So it is told which is the first that is refused.
fn read_list<H: RegexHost>(
    alloc: Global,
    name: &str,
    bytes: &[u8],
    host: &mut H,
) -> Result<Listed, OpenRefusal>
    requires { length bytes.now ≤ max_file }
    ensures read { IfOk result (λ listed.
        AreRead name.now (payloads bytes.now) (updates_seen listed.list.items)) }
    ensures place { IfOk result (λ listed. listed.place ≡ end_of bytes.now) }
    ensures store { IfOk result (λ listed.
        listed.store ≡ spec.state_of name.now (updates_seen listed.list.items)) }
    ensures accepted { IfOk result (λ listed.
        spec.all_accepted (spec.start name.now) (updates_seen listed.list.items) ≡ true) }
    ensures bad { (offset : ℕ) → IsErrOf result (OpenRefusal.BadRecord offset) →
        IsFirstRefused name.now (payloads bytes.now) offset }
    ensures no_fault { IsErrOf result OpenRefusal.DiskFault → ⊥ }
    ensures not_long { IsErrOf result OpenRefusal.KeepTooLong → ⊥ }
    ensures fault { IsErrOf result OpenRefusal.HostFault →
        Rose (H.faults host.old) (H.faults host.new) }
    ensures calm { (IsErrOf result OpenRefusal.HostFault → ⊥) →
        H.faults host.new ≡ H.faults host.old }
    ensures later { H.faults host.old ≤ H.faults host.new }
{
    let mut list = Vec::new(alloc);
    let mut at = 0;
    let mut store = started(alloc, name)?;
    let mut memo = Memo::new(alloc);
    while let Some(payload) = next_payload(bytes, at) {
        match take(alloc, name, payload, &store, &mut memo, host) {
            Ok(taken) => {
                list.push(taken.update)?;
                store = taken.store;
                at += 5 + payload.len();
            }
            Err(stop) => return Err(refusal_of(stop, at as u64)),
        }
    }
    Ok(Listed {
        list,
        place: at as u64,
        store,
    })
}

// The payload of the record that stands at a place, if one does.
pub(crate) fn next_payload(bytes: &[u8], at: usize) -> Option<&[u8]>
    requires { at ≤ length bytes.now }
    ensures { MatchOption result (stands (drop at bytes.now) ≡ false)
        (λ payload. ReadNext bytes.now at payload.now) }
{
    first_payload(&bytes[at..])
}

// The state in which the extension is installed, with no rules. It is refused for want of memory alone.
pub(crate) fn started(alloc: Global, name: &str) -> Result<Store, NoMemory>
    ensures { IfOk result (λ store. store ≡ spec.start name.now) }
{
    let extension = empty_extension(alloc, name)?;
    match Store::empty(alloc).install(alloc, extension) {
        Ok(store) => Ok(store),
        Err(_) => Err(NoMemory),
    }
}

fn empty_extension(alloc: Global, name: &str) -> Result<Extension, NoMemory>
    ensures { IfOk result (λ extension. extension ≡ spec.empty_extension name.now) }
{
    let name = name_of(alloc, name)?;
    Extension::build(alloc, name, Vec::new(alloc), None)
}

pub(crate) fn name_of(alloc: Global, name: &str) -> Result<Text, NoMemory>
    ensures { IfOk result (λ text. text ≡ name.now) }
{
    Ok(Text::build(String::from_str(alloc, name)?))
}
