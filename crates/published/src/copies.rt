ghost use Rattle.std.specs.Prelude.{◌≡◌, ◌≤◌, ◌<◌, ◌∷◌, ◌++◌, [], length, drop, fold, None, IfOk, IfErr, IfSome, OnOk, OnErr};
ghost use Rattle.ruleset_store.specs.Seen.{IsBatchRefusal, IsRefusalOf, update_seen, updates_seen};
ghost use Rattle.update_spec.specs.declared.refusal.Refusal.TheVariants as refusals;
ghost use Rattle.update_spec.specs.Entries as entries;
ghost use Rattle.update_spec.specs.Judge.{judge_update};
ghost use Rattle.published.specs.Ahead.{IsOneAhead, coming, next_of};
ghost use Rattle.published.specs.Shared.{latest, IsCopy};

use crate::copy::Shown;
use crate::entry::{One, Together};
use crate::rule::{Begins, Entries, GoesOn};
use crate::{Entry, Pair};
use core::mem::replace_with;
use dnr_base::NoMemory;
use history::{Head, Log};
use ruleset_store::{BatchRefusal, Refusal, Update};
use std::alloc::{AllocError, Global};
use std::sync::{Arc, Wait};

// The writer's place at the two copies.
pub type Copies<P> = left_right::writer::Writer<Shown, Shown, Entries, Begins<P>>;

// The copy after an update. The history grows by this, as the last thing that can fail.
pub fn next_copy(
    alloc: Global,
    shown: &Shown,
    head: &Head<Entry>,
    update: &Update,
) -> Result<Shown, Refusal>
    requires { head.now ≡ shown.now.book }
    ensures judged { OnOk result (judge_update shown.now.basis.state (update_seen update.now) ≡ None) }
    ensures next { IfOk result (λ next. next ≡ next_of shown.now (entries.one (update_seen update.now))) }
    ensures refused { IfErr result (IsRefusalOf (judge_update shown.now.basis.state (update_seen update.now))) }
{
    let next = shown.generation().next(alloc, update)?;
    let generation = Arc::new(alloc, next).map_err(|_| Refusal::NoMemory)?;
    let log = log_with(shown.log(), head, update).ok_or(Refusal::NoMemory)?;
    Ok(Shown::new(generation, log))
}

// The copy after updates that are made together. The history grows by this, as the last thing that can fail.
pub fn next_copy_together(
    alloc: Global,
    shown: &Shown,
    head: &Head<Entry>,
    updates: &[Update],
) -> Result<Shown, BatchRefusal>
    requires some { 0 < length updates.now }
    requires few { length updates.now ≤ 256 }
    requires head { head.now ≡ shown.now.book }
    ensures judged { OnOk result (entries.judge shown.now.basis.state (entries.batch (updates_seen updates.now))
        ≡ None) }
    ensures next { IfOk result (λ next. next ≡ next_of shown.now (entries.batch (updates_seen updates.now))) }
    ensures refused { IfErr result (IsBatchRefusal (entries.judge shown.now.basis.state
        (entries.batch (updates_seen updates.now)))) }
{
    let next = shown.generation().next_batch(alloc, updates)?;
    let generation = Arc::new(alloc, next).map_err(|_| no_memory())?;
    let log = log_with_all(shown.log(), head, updates).ok_or(no_memory())?;
    Ok(Shown::new(generation, log))
}

// Memory ran out; no update is to blame.
fn no_memory() -> BatchRefusal
    ensures { result ≡ record { place = 0; cause = refusals.NoMemory } }
{
    BatchRefusal {
        place: 0,
        cause: Refusal::NoMemory,
    }
}

// The log with this update as its last entry.
fn log_with(log: &Log<Entry>, head: &Head<Entry>, update: &Update) -> Option<Log<Entry>>
    requires { head.now ≡ log.now.book }
    ensures { IfSome result (λ longer. longer
        ≡ record { book = log.now.book; list = log.now.list ++ entries.one (update_seen update.now) ∷ [] }) }
{
    log.with::<Update, One>(head, update)
}

// The log with these updates as its last entry.
fn log_with_all(log: &Log<Entry>, head: &Head<Entry>, updates: &[Update]) -> Option<Log<Entry>>
    requires { head.now ≡ log.now.book }
    ensures { IfSome result (λ longer. longer
        ≡ record { book = log.now.book; list = log.now.list ++ entries.batch (updates_seen updates.now) ∷ [] }) }
{
    log.with::<&[Update], Together>(head, &updates)
}

// Hands the copy that is kept aside on to `left_right`. At `Err` it is kept.
pub fn hand_on<P: Pair>(copies: &mut Copies<P>, kept: &mut Option<Shown>) -> Result<(), NoMemory>
    requires { IsOneAhead copies.old.desk.shown.value (coming kept.old (drop copies.old.behind copies.old.log.items)) }
    ensures shown { copies.new.desk.shown ≡ copies.old.desk.shown }
    ensures coming { coming kept.new (drop copies.new.behind copies.new.log.items)
        ≡ coming kept.old (drop copies.old.behind copies.old.log.items) }
    ensures ok { OnOk result (kept.new ≡ None) }
{
    let Some(next) = kept.take() else {
        return Ok(());
    };
    if let Err(next) = copies.append(next) {
        *kept = Some(next);
        return Err(NoMemory);
    }
    Ok(())
}

// Shows readers the copy that was handed on. At `Err` they see what they saw.
pub fn publish_in<P: Pair, R: Wait>(rt: &R, copies: &mut Copies<P>) -> Result<(), AllocError>
    requires copy { IsCopy P.book P.opening copies.old.desk.shown.value }
    requires next { IsOneAhead copies.old.desk.shown.value (drop copies.old.behind copies.old.log.items) }
    ensures ok { OnOk result ((copies.new.desk.shown.value
        ≡ fold latest copies.old.desk.shown.value (drop copies.old.behind copies.old.log.items))
        × (drop copies.new.behind copies.new.log.items ≡ [])) }
    ensures err { OnErr result ((copies.new.desk.shown.value ≡ copies.old.desk.shown.value)
        × (drop copies.new.behind copies.new.log.items ≡ drop copies.old.behind copies.old.log.items)) }
{
    replace_with(
        copies,
        rt,
        |copies, rt| -> (Copies<P>, Result<(), AllocError>)
            requires copy { IsCopy P.book P.opening copies.desk.shown.value }
            requires next { IsOneAhead copies.desk.shown.value (drop copies.behind copies.log.items) }
            ensures ok { OnOk result.1 ((result.0.desk.shown.value
                ≡ fold latest copies.desk.shown.value (drop copies.behind copies.log.items))
                × (drop result.0.behind result.0.log.items ≡ [])) }
            ensures err { OnErr result.1 ((result.0.desk.shown.value ≡ copies.desk.shown.value)
                × (drop result.0.behind result.0.log.items ≡ drop copies.behind copies.log.items)) }
        { publish(rt, copies) },
    )
}

// Shows readers the copy that was handed on.
fn publish<P: Pair, R: Wait>(rt: &R, copies: Copies<P>) -> (Copies<P>, Result<(), AllocError>)
    requires copy { IsCopy P.book P.opening copies.desk.shown.value }
    requires next { IsOneAhead copies.desk.shown.value (drop copies.behind copies.log.items) }
    ensures ok { OnOk result.1 ((result.0.desk.shown.value
        ≡ fold latest copies.desk.shown.value (drop copies.behind copies.log.items))
        × (drop result.0.behind result.0.log.items ≡ [])) }
    ensures err { OnErr result.1 ((result.0.desk.shown.value ≡ copies.desk.shown.value)
        × (drop result.0.behind result.0.log.items ≡ drop copies.behind copies.log.items)) }
{
    copies.publish_as::<GoesOn<P>, R>(rt)
}
