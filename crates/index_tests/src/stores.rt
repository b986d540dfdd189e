//! Updates at their limits, what a refused one leaves, batches, and what is counted.
ghost use Rattle.std.specs.Prelude.{IsTrue};
ghost use Rattle.rule_spec.specs.IsRule.{IsCondition, is_number};
ghost use Rattle.dnr_rules.specs.Seen.{condition_seen};

use dnr_base::KindSet;
use dnr_rules::{Action, ConditionParts, RuleParts};
use ruleset_store::{
    Extension, InstalledExtension, Items, Refusal, Rule, RuleSet, SharedRule, Store, Text, Update,
};
use std::alloc::Global;
use std::sync::Arc;
use std::test::Fail;

fn text(alloc: Global, text: &str) -> Option<Text> {
    Some(Text::build(String::from_str(alloc, text).ok()?))
}

fn texts(alloc: Global, ids: &[&str]) -> Option<Items<Text>> {
    let mut texts = Vec::new(alloc);
    for id in ids {
        texts.push(text(alloc, id)?).ok()?;
    }
    Some(Items::build(texts))
}

// A condition that holds on all types but `main_frame`.
#[tactic(auto, using(crate::proofs::Tested::plain_is))]
fn condition() -> ConditionParts
    ensures { IsCondition (condition_seen result) }
{
    ConditionParts::of_kinds(KindSet::all_but_main_frame())
}

fn block(id: u32) -> Rule
    requires { IsTrue (is_number id) }
{
    Rule::build(RuleParts {
        id,
        priority: 1,
        condition: condition(),
        action: Action::Block,
    })
}

// An extension with rulesets of one rule each, of which the first are enabled.
fn extension(alloc: Global, name: &str, count: usize, enabled: usize) -> Option<Extension> {
    let mut sets = Vec::new(alloc);
    for place in 0..count {
        let id = text(alloc, if place == 0 { "s" } else { "more" })?;
        let rules = vec![in alloc; block(1)].ok()?;
        let set = RuleSet::build(alloc, id, place < enabled, rules, Vec::new(alloc)).ok()?;
        sets.push(set.copy(alloc).ok()?).ok()?;
    }
    let extension = Extension::build(alloc, text(alloc, name)?, sets, None).ok()?;
    extension.copy(alloc).ok()
}

// A store with the extension `a`, whose ruleset `s` is enabled.
fn shop(alloc: Global) -> Option<Store> {
    Store::empty(alloc)
        .install(alloc, extension(alloc, "a", 1, 1)?)
        .ok()
}

fn installs(alloc: Global, name: &str, count: usize, enabled: usize) -> Option<Update> {
    let extension = extension(alloc, name, count, enabled)?;
    Some(Update::Install {
        extension: Arc::new(alloc, extension).ok()?,
    })
}

fn uninstalls(alloc: Global, name: &str) -> Option<Update> {
    Some(Update::Uninstall {
        extension: text(alloc, name)?,
    })
}

fn switches(alloc: Global, disable: &[&str], enable: &[&str]) -> Option<Update> {
    Some(Update::Rulesets {
        extension: text(alloc, "a")?,
        disable: texts(alloc, disable)?,
        enable: texts(alloc, enable)?,
    })
}

// Disables rules of `s`.
fn disables(alloc: Global, ids: &[i128]) -> Option<Update> {
    Some(Update::Static {
        extension: text(alloc, "a")?,
        set: text(alloc, "s")?,
        disable: Items::build(Vec::from_slice(alloc, ids).ok()?),
        enable: Items::build(Vec::new(alloc)),
    })
}

// Removes dynamic rules by their ids, and adds others.
fn replacing(alloc: Global, remove: &[u32], add: Vec<Rule>) -> Option<Update> {
    Some(Update::Dynamic {
        extension: text(alloc, "a")?,
        remove: Items::build(Vec::from_slice(alloc, remove).ok()?),
        add: Items::build(SharedRule::all_of(alloc, add).ok()?),
    })
}

// Removes the dynamic rules 1 and 7, and adds rule 1.
fn replaces(alloc: Global) -> Option<Update> {
    replacing(alloc, &[1, 7], vec![in alloc; block(1)].ok()?)
}

// Adds the session rule 1.
fn adds(alloc: Global) -> Option<Update> {
    Some(Update::Session {
        extension: text(alloc, "a")?,
        remove: Items::build(Vec::new(alloc)),
        add: Items::build(SharedRule::all_of(alloc, vec![in alloc; block(1)].ok()?).ok()?),
    })
}

// How many rulesets are enabled, how many of their rules are off, and how many rules were added.
fn seen(extension: &InstalledExtension) -> (usize, usize, usize) {
    let sets = extension.sets();
    let enabled = sets.iter().filter(|set| set.is_enabled()).count();
    let off = sets
        .iter()
        .filter(|set| {
            set.is_disabled(1)
                && set.disabled().ids().len() == 1
                && set.rules().get(0).is_some()
                && set.origins().is_empty()
        })
        .count();
    let added = extension
        .dynamic()
        .len()
        .saturating_add(extension.session().len());
    (enabled, off, added)
}

// What the newest extension is after the update, or why it is refused.
fn outcome(alloc: Global, applied: Result<Store, Refusal>) -> Option<String> {
    match applied {
        Ok(store) => {
            let newest = store.extensions().last().map(seen);
            format!(in alloc; "{} {newest:?}", store.count()).ok()
        }
        Err(refusal) => format!(in alloc; "{refusal:?}").ok(),
    }
}

#[test]
fn updates_are_judged_and_applied(rt: HostRuntime) -> Result<(), Fail> {
    let alloc = rt.alloc();
    let rows = [
        (installs(alloc, "b", 100, 50), "1 Some((50, 0, 0))"),
        (installs(alloc, "b", 101, 51), "RulesetLimit(101)"),
        (installs(alloc, "b", 51, 51), "EnabledLimit(51)"),
        (uninstalls(alloc, "a"), "1 None"),
        (switches(alloc, &["s"], &["s"]), "1 Some((1, 0, 0))"),
        (switches(alloc, &["s"], &[]), "1 Some((0, 0, 0))"),
        (disables(alloc, &[1, 1]), "1 Some((1, 1, 0))"),
        (disables(alloc, &[1, -5]), "NoStaticRule(-5)"),
        (replaces(alloc), "1 Some((1, 0, 1))"),
        (adds(alloc), "1 Some((1, 0, 1))"),
    ];
    for (update, want) in rows {
        let update = update.ok_or("memory")?.copy(alloc)?;
        let store = shop(alloc).ok_or("refused")?;
        let judged = store.judge(alloc, &update).is_ok();
        let outcome = outcome(alloc, store.apply(alloc, &update)).ok_or("memory")?;
        assert_eq!(rt; outcome.as_str(), want);
        assert_eq!(rt; judged, want.starts_with("1"));
        assert_eq!(rt; store.count(), 0);
    }
    Ok(())
}

#[test]
fn a_batch_counts_once_or_names_its_update(rt: HostRuntime) -> Result<(), Fail> {
    let alloc = rt.alloc();
    let store = shop(alloc).ok_or("refused")?;
    let disable = disables(alloc, &[1]).ok_or("memory")?;
    let switch = switches(alloc, &["s"], &[]).ok_or("memory")?;
    let batch = vec![in alloc; disable, switch]?;
    assert!(rt; store.judge_batch(alloc, &batch).is_ok());
    let next = store.apply_batch(alloc, &batch).ok().ok_or("refused")?;
    assert!(rt; next.extensions().iter().all(|it| seen(it) == (0, 1, 0)));
    assert_eq!(rt; next.count(), 1);
    assert_eq!(rt; next.opened().count(), 0);
    let first = adds(alloc).ok_or("memory")?;
    let second = adds(alloc).ok_or("memory")?;
    let batch = vec![in alloc; first, second]?;
    let refusal = store.apply_batch(alloc, &batch).err().ok_or("accepted")?;
    assert_eq!(rt; refusal.place, 1);
    Ok(())
}

// How many rules stand in each segment, and how many ids are removed from it.
fn segments_of(alloc: Global, store: &Store) -> Option<Vec<(usize, usize)>> {
    let mut sizes = Vec::new(alloc);
    for segment in store.extensions().first()?.dynamic().segments() {
        let removed = segment.removed().ids().len();
        let rules = segment.rules().rules().len();
        sizes.push((rules, removed)).ok()?;
    }
    Some(sizes)
}

#[test]
fn dynamic_rules_stand_in_segments(rt: HostRuntime) -> Result<(), Fail> {
    let alloc = rt.alloc();
    let mut store = shop(alloc).ok_or("refused")?;
    let four = vec![in alloc; block(1), block(2), block(3), block(4)]?;
    let steps = [
        (replacing(alloc, &[], four), (4, 0), 1),
        (
            replacing(alloc, &[2, 9, 2], vec![in alloc; block(5)]?),
            (4, 1),
            2,
        ),
        (replacing(alloc, &[5], vec![in alloc; block(2)]?), (4, 1), 2),
        (replacing(alloc, &[1, 2, 3], Vec::new(alloc)), (1, 0), 1),
    ];
    for (update, oldest, count) in steps {
        let update = update.ok_or("memory")?;
        store = store.apply(alloc, &update).ok().ok_or("refused")?;
        let segments = segments_of(alloc, &store).ok_or("memory")?;
        assert_eq!(rt; segments.first().copied(), Some(oldest));
        assert_eq!(rt; segments.len(), count);
    }
    Ok(())
}

fn is_shared<T: Send + Sync>() {}

#[test]
fn threads_may_share_a_store(_rt: HostRuntime) -> Result<(), Fail> {
    is_shared::<Rule>();
    is_shared::<Update>();
    is_shared::<Store>();
    Ok(())
}
