// What a proof leaves of a list of rules.
ghost use Rattle.std.specs.Prelude.{◌≡◌, ◌⊎◌, [], All, IfOk, IfErr, MatchResult, Ok, Err, option_copied};
ghost use Rattle.std.specs.Ordering.{nat_cmp};
ghost use Rattle.std.specs.BTreeSet.{contains};
ghost use Rattle.rule_spec.specs.IsRule.{IsRule};
ghost use Rattle.prune_spec.specs.Pruned as spec;
ghost use Rattle.prune_spec.specs.Pruned.{IdsDiffer};
ghost use Rattle.prune_laws.specs.Laws.{DoAlike};
ghost use Rattle.rule_prune.specs.Known.{Tells, HasRemoved, rule_in, fault_by};

use crate::shadowing::shadows;
use dnr_base::NoMemory;
use dnr_rules::Rule;
use prune_laws::rest_does_the_same;
use prune_spec::{CheckRefusal, Shadow};
use std::alloc::Global;
use std::collections::{BTreeMap, BTreeSet};

// The rules by their ids.
fn table_of<'a>(alloc: Global, rules: &'a [Rule]) -> Result<BTreeMap<u32, &'a Rule>, NoMemory>
    ensures { IfOk result (λ table. Tells table rules.now) }
{
    let mut table = BTreeMap::new(alloc);
    for behind in 0..rules.len() {
        let rule = &rules[rules.len() - 1 - behind];
        table.insert(rule.id(), rule)?;
    }
    Ok(table)
}

// The ids that the entries remove.
fn removed_by(alloc: Global, entries: &[Shadow]) -> Result<BTreeSet<u32>, NoMemory>
    ensures { IfOk result (λ ids. HasRemoved ids entries.now) }
{
    let mut ids = BTreeSet::new(alloc);
    for one in entries {
        ids.insert(one.removed)?;
    }
    Ok(ids)
}

fn rule_of<'a>(table: &BTreeMap<u32, &'a Rule>, id: u32) -> Option<&'a Rule>
    ensures { option_copied result ≡ rule_in table.now id }
{
    table.get(&id).copied()
}

fn is_shadowed(k: Option<&Rule>, s: Option<&Rule>) -> bool
    ensures { result ≡ spec.is_shadowed (option_copied k.entry) (option_copied s.entry) }
{
    let Some(k) = k else {
        return false;
    };
    let Some(s) = s else {
        return false;
    };
    shadows(k, s)
}

// What is at fault with the entry at this place, behind the entries that remove the ids before.
fn fault_of(
    table: &BTreeMap<u32, &Rule>,
    removed: &BTreeSet<u32>,
    before: &BTreeSet<u32>,
    place: usize,
    one: Shadow,
) -> Option<CheckRefusal>
    ensures { result ≡ fault_by (rule_in table.now) (contains nat_cmp removed.now)
        (contains nat_cmp before.now) place one }
{
    let s = rule_of(table, one.removed);
    let k = rule_of(table, one.by);
    if s.is_none() || k.is_none() {
        return Some(CheckRefusal::UnknownId(place));
    }
    if before.contains(&one.removed) {
        return Some(CheckRefusal::RemovedTwice(place));
    }
    if removed.contains(&one.by) {
        return Some(CheckRefusal::KeeperRemoved(place));
    }
    if !is_shadowed(k, s) {
        return Some(CheckRefusal::NotShadowed(place));
    }
    None
}

fn first_fault(
    alloc: Global,
    rules: &[Rule],
    proof: &[Shadow],
    removed: &BTreeSet<u32>,
) -> Result<Option<CheckRefusal>, NoMemory>
    requires { HasRemoved removed.now proof.now }
    ensures { IfOk result (λ fault. fault ≡ spec.first_fault rules.now proof.now [] 0 proof.now) }
{
    let table = table_of(alloc, rules)?;
    let mut before = BTreeSet::new(alloc);
    for place in 0..proof.len() {
        let one = proof[place];
        if let Some(refusal) = fault_of(&table, removed, &before, place, one) {
            return Ok(Some(refusal));
        }
        before.insert(one.removed)?;
    }
    Ok(None)
}

// The rules that no entry removes, in their order.
fn rest_of(
    alloc: Global,
    rules: &[Rule],
    proof: &[Shadow],
    removed: &BTreeSet<u32>,
) -> Result<Vec<Rule>, NoMemory>
    requires { HasRemoved removed.now proof.now }
    ensures { IfOk result (λ rest. rest.items ≡ spec.rest_of rules.now proof.now) }
{
    let mut rest = Vec::new(alloc);
    for rule in rules {
        if !removed.contains(&rule.id()) {
            rest.push(rule.copy(alloc)?)?;
        }
    }
    Ok(rest)
}

// What the proof leaves, or its first fault.
fn checked(
    alloc: Global,
    rules: &[Rule],
    proof: &[Shadow],
) -> Result<Result<Vec<Rule>, CheckRefusal>, NoMemory>
    ensures { IfOk result (λ answer. MatchResult answer (λ rest. spec.checked rules.now proof.now ≡ Ok rest.items)
        (λ refusal. spec.checked rules.now proof.now ≡ Err refusal)) }
{
    let removed = removed_by(alloc, proof)?;
    if let Some(refusal) = first_fault(alloc, rules, proof, &removed)? {
        return Ok(Err(refusal));
    }
    Ok(Ok(rest_of(alloc, rules, proof, &removed)?))
}

// What each rule keeps is known of all of them.
pub(crate) fn are_rules(rules: &[Rule])
    ensures { All IsRule rules.now }
{
    for rule in rules {
        let _condition = rule.condition();
    }
}

/// The rules that a proof leaves, in their order. A state that holds them in place of all of the
/// rules gives each request the same outcome, target, operations and header lists.
///
/// It takes about as many steps as there are rules and entries, times the logarithm of their
/// number, and memory for some numbers a rule and the copies of those that are left.
///
/// # Errors
///
/// - `UnknownId`, `RemovedTwice`, `KeeperRemoved`, `NotShadowed`: what the first entry at fault
///   does, in this order.
/// - `NoMemory`: memory ran out.
pub fn check(alloc: Global, rules: &[Rule], proof: &[Shadow]) -> Result<Vec<Rule>, CheckRefusal>
    requires { IdsDiffer rules.now }
    ensures rest { IfOk result (λ rest. spec.checked rules.now proof.now ≡ Ok rest.items) }
    ensures refused { IfErr result (λ refusal. (refusal ≡ CheckRefusal.NoMemory)
        ⊎ (spec.checked rules.now proof.now ≡ Err refusal)) }
    ensures same { IfOk result (λ rest. DoAlike rules.now rest.items) }
{
    rest_does_the_same();
    are_rules(rules);
    match checked(alloc, rules, proof) {
        Ok(answer) => answer,
        Err(NoMemory) => Err(CheckRefusal::NoMemory),
    }
}
