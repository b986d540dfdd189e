// The updates that the records of a file hold, made by the rules' ids alone. An index is made once, of the rules that are
// left.
ghost use Rattle.std.specs.Prelude.{◌≡◌, ◌≤◌, ℕ, [], length, IfOk, IfSome, IsErrOf, IsTrue};
ghost use Rattle.dnr_base.specs.Faults.{Rose};
ghost use Rattle.update_spec.specs.Update as spec;
ghost use Rattle.ruleset_store.specs.Seen.{update_seen};
ghost use Rattle.keep_records.specs.Ends.{max_file};
ghost use Rattle.keep_spec.specs.Kept.{kept, empty_extension};
ghost use Rattle.live_rules.specs.Laws.{alone};
ghost use Rattle.rule_keep.specs.Listed.{IsFound};
ghost use Rattle.rule_keep.specs.Replayed.{IsReplayed, IsMadeBy};

use crate::handed::Updates;
use crate::listed::{Found, name_of, next_payload, started};
use crate::refusals::{OpenRefusal, Stop};
use crate::take::read_payload;
use dnr_base::{Items, NoMemory};
use live_rules::{LiveRules, made_updates_are_accepted};
use regex_host::RegexHost;
use ruleset_store::{SharedRule, Store, Update};
use script_read::Memo;
use std::alloc::Global;

// The most updates that a store accepts.
const MAX_UPDATES: u32 = 1_000_000;

// The updates that were made, the rules that they leave, how many they were, and the place where the records end.
#[derive(Drop)]
struct Replay<U> {
    updates: U,
    live: LiveRules,
    count: u32,
    place: usize,
}

// What the records of a file hold, or nothing where that is not told so: then a payload may be none of the extension, or
// be refused.
pub(crate) fn read_quickly<U: Updates, H: RegexHost>(
    alloc: Global,
    name: &str,
    bytes: &[u8],
    host: &mut H,
) -> Result<Option<Found<U>>, OpenRefusal>
    requires { length bytes.now ≤ max_file }
    ensures found { IfOk result (λ some. IfSome some (λ found.
        IsFound name.now bytes.now found.place found.store)) }
    ensures updates { IfOk result (λ some. IfSome some (λ found.
        U.stands found.updates (kept name.now bytes.now))) }
    ensures no_record { (offset : ℕ) → IsErrOf result (OpenRefusal.BadRecord offset) → ⊥ }
    ensures no_fault { IsErrOf result OpenRefusal.DiskFault → ⊥ }
    ensures not_long { IsErrOf result OpenRefusal.KeepTooLong → ⊥ }
    ensures fault { IsErrOf result OpenRefusal.HostFault →
        Rose (H.faults host.old) (H.faults host.new) }
    ensures calm { (IsErrOf result OpenRefusal.HostFault → ⊥) →
        H.faults host.new ≡ H.faults host.old }
    ensures later { H.faults host.old ≤ H.faults host.new }
{
    let Some(replay) = replayed::<U, H>(alloc, name, bytes, host)? else {
        return Ok(None);
    };
    let rules = replay.live.into_rules()?;
    match store_of(alloc, name, rules, replay.count)? {
        Some(store) => Ok(Some(Found {
            updates: replay.updates,
            place: replay.place as u64,
            store,
        })),
        None => Ok(None),
    }
}

// The updates of a file, made one after another.
fn replayed<U: Updates, H: RegexHost>(
    alloc: Global,
    name: &str,
    bytes: &[u8],
    host: &mut H,
) -> Result<Option<Replay<U>>, OpenRefusal>
    requires { length bytes.now ≤ max_file }
    ensures replayed { IfOk result (λ some. IfSome some (λ replay.
        IsReplayed name.now bytes.now replay.place replay.live replay.count)) }
    ensures updates { IfOk result (λ some. IfSome some (λ replay.
        U.stands replay.updates (kept name.now bytes.now))) }
    ensures no_record { (offset : ℕ) → IsErrOf result (OpenRefusal.BadRecord offset) → ⊥ }
    ensures no_fault { IsErrOf result OpenRefusal.DiskFault → ⊥ }
    ensures not_long { IsErrOf result OpenRefusal.KeepTooLong → ⊥ }
    ensures fault { IsErrOf result OpenRefusal.HostFault →
        Rose (H.faults host.old) (H.faults host.new) }
    ensures calm { (IsErrOf result OpenRefusal.HostFault → ⊥) →
        H.faults host.new ≡ H.faults host.old }
    ensures later { H.faults host.old ≤ H.faults host.new }
{
    made_updates_are_accepted();
    let mut updates = U::none(alloc);
    let mut live = LiveRules::none(alloc);
    let mut count = 0;
    let mut place = 0;
    let mut memo = Memo::new(alloc);
    while let Some(payload) = next_payload(bytes, place) {
        match read_payload(alloc, name, payload, &mut memo, host) {
            Ok(update) => {
                if !make(&mut live, count, &update)? {
                    return Ok(None);
                }
                updates.add(update)?;
                count += 1;
                place += 5 + payload.len();
            }
            Err(Stop::Refused) => return Ok(None),
            Err(Stop::HostFault) => return Err(OpenRefusal::HostFault),
            Err(Stop::NoMemory) => return Err(OpenRefusal::NoMemory),
        }
    }
    Ok(Some(Replay {
        updates,
        live,
        count,
        place,
    }))
}

// Makes an update, where there were so many before it. Where it says that it was not made, it may be one that is refused.
fn make(live: &mut LiveRules, count: u32, update: &Update) -> Result<bool, NoMemory>
    ensures { IfOk result (λ made. IsTrue made →
        IsMadeBy (update_seen update.now) count live.old live.new) }
{
    match update {
        Update::Dynamic { remove, add, .. } if count < MAX_UPDATES => {
            live.make(remove.as_slice(), add.as_slice())
        }
        _ => Ok(false),
    }
}

// The state in which the extension is installed alone and has these rules, after so many updates, unless a store refuses
// it.
fn store_of(
    alloc: Global,
    name: &str,
    rules: Vec<SharedRule>,
    count: u32,
) -> Result<Option<Store>, NoMemory>
    ensures { IfOk result (λ some. IfSome some (λ store.
        store ≡ alone (empty_extension name.now) rules.items count)) }
{
    made_updates_are_accepted();
    let Some(before) = count.checked_sub(1) else {
        if rules.is_empty() {
            return store_after(alloc, name, 0);
        }
        return Ok(None);
    };
    let Some(store) = store_after(alloc, name, before)? else {
        return Ok(None);
    };
    let all = adding(alloc, name, rules)?;
    match store.apply(alloc, &all) {
        Ok(store) => Ok(Some(store)),
        Err(_) => Ok(None),
    }
}

// The state in which the extension is installed alone and has no rules, after so many updates, unless a store refuses it.
fn store_after(alloc: Global, name: &str, count: u32) -> Result<Option<Store>, NoMemory>
    ensures { IfOk result (λ some. IfSome some (λ store.
        store ≡ alone (empty_extension name.now) [] count)) }
{
    made_updates_are_accepted();
    let nothing = adding(alloc, name, Vec::new(alloc))?;
    let mut store = started(alloc, name)?;
    for _ in 0..count {
        match store.apply(alloc, &nothing) {
            Ok(next) => store = next,
            Err(_) => return Ok(None),
        }
    }
    Ok(Some(store))
}

// The update that adds these rules.
fn adding(alloc: Global, name: &str, rules: Vec<SharedRule>) -> Result<Update, NoMemory>
    ensures { IfOk result (λ update. update_seen update ≡ spec.dynamic name.now [] rules.items) }
{
    Ok(Update::Dynamic {
        extension: name_of(alloc, name)?,
        remove: Items::build(Vec::new(alloc)),
        add: Items::build(rules),
    })
}
