// Which rules of a list are needless.
ghost use Rattle.std.specs.Prelude.{◌≡◌, ◌⊎◌, ◌<◌, ◌≤◌, ◌++◌, Some, Ok, length, map, IfOk, IfErr, OnOk, option_copied};
ghost use Rattle.std.specs.List.{slice_get, find as first_of};
ghost use Rattle.prune_spec.specs.Pruned as spec;
ghost use Rattle.prune_spec.specs.Pruned.{IdsDiffer, max_rules};
ghost use Rattle.rule_prune.specs.Filters.{AreListed};
ghost use Rattle.rule_prune.specs.Walks.{removal_of};

use crate::checks::are_rules;
use crate::filters::Filters;
use crate::outdone::{Search, is_gone, rule_at};
use dnr_base::NoMemory;
use dnr_rules::Rule;
use prune_laws::found_is_accepted;
use prune_spec::{PruneRefusal, Shadow};
use std::alloc::Global;

// The most rules in which needless ones are looked for.
const MAX_RULES: usize = 10_000;

// Whether some rule outdoes this one, which stands at this place.
fn is_needless(rules: &[Rule], filters: &Filters<'_>, place: usize, s: &Rule) -> bool
    requires ids { IdsDiffer rules.now }
    requires listed { AreListed filters.now rules.now }
    requires there { slice_get rules.now place ≡ Some s.now }
    ensures { result ≡ spec.is_needless rules.now s.now }
{
    let gone: &[bool] = &[];
    let search = Search {
        rules,
        digests: filters.digests.as_slice(),
        gone,
        place,
    };
    search.first(filters, s.condition()).is_some()
}

// Of each rule, whether some rule outdoes it.
fn needless_of(alloc: Global, rules: &[Rule], filters: &Filters<'_>) -> Result<Vec<bool>, NoMemory>
    requires ids { IdsDiffer rules.now }
    requires listed { AreListed filters.now rules.now }
    ensures { IfOk result (λ needless. needless.items ≡ map (spec.is_needless rules.now) rules.now) }
{
    let mut needless = Vec::with_capacity(alloc, rules.len())?;
    for place in 0..rules.len() {
        needless.push(is_needless(rules, filters, place, &rules[place]))?;
    }
    Ok(needless)
}

// The first rule that is kept and outdoes this one, which stands at this place.
fn keeper_of<'a>(
    rules: &'a [Rule],
    filters: &Filters<'_>,
    needless: &[bool],
    place: usize,
    s: &Rule,
) -> Option<&'a Rule>
    requires ids { IdsDiffer rules.now }
    requires listed { AreListed filters.now rules.now }
    requires needless { needless.now ≡ map (spec.is_needless rules.now) rules.now }
    requires there { slice_get rules.now place ≡ Some s.now }
    ensures { option_copied result ≡ first_of (λ k. spec.outdoes rules.now k s.now) (spec.kept rules.now) }
{
    let search = Search {
        rules,
        digests: filters.digests.as_slice(),
        gone: needless,
        place,
    };
    rule_at(rules, search.first(filters, s.condition())?)
}

// Adds that a rule goes by the one that outdoes it.
fn push_named(s: &Rule, k: Option<&Rule>, removals: &mut Vec<Shadow>) -> Result<(), NoMemory>
    ensures { OnOk result (removals.new.items ≡ removals.old.items ++ spec.named_by s.now (option_copied k.entry)) }
{
    if let Some(k) = k {
        removals.push(Shadow {
            removed: s.id(),
            by: k.id(),
        })?;
    }
    Ok(())
}

// Adds the removal of a rule, if it is needless.
fn add_removal(
    rules: &[Rule],
    filters: &Filters<'_>,
    needless: &[bool],
    place: usize,
    s: &Rule,
    removals: &mut Vec<Shadow>,
) -> Result<(), NoMemory>
    requires ids { IdsDiffer rules.now }
    requires listed { AreListed filters.now rules.now }
    requires needless { needless.now ≡ map (spec.is_needless rules.now) rules.now }
    requires there { slice_get rules.now place ≡ Some s.now }
    ensures { OnOk result (removals.new.items ≡ removals.old.items ++ removal_of rules.now s.now) }
{
    if is_gone(needless, place) {
        return push_named(s, keeper_of(rules, filters, needless, place, s), removals);
    }
    Ok(())
}

// The removals of a list, in its order.
fn removals_of(alloc: Global, rules: &[Rule]) -> Result<Vec<Shadow>, NoMemory>
    requires { IdsDiffer rules.now }
    ensures { IfOk result (λ removals. removals.items ≡ spec.removals rules.now) }
{
    let filters = Filters::of(alloc, rules)?;
    let needless = needless_of(alloc, rules, &filters)?;
    let mut removals = Vec::new(alloc);
    for place in 0..rules.len() {
        add_removal(
            rules,
            &filters,
            needless.as_slice(),
            place,
            &rules[place],
            &mut removals,
        )?;
    }
    Ok(removals)
}

/// The rules that others make needless, each with the first rule that is kept and outdoes it. They
/// are a proof that `check` accepts, and leave the rules that are kept.
///
/// A rule is compared with those alone that may make it needless: those with an equal `urlFilter`,
/// those whose `urlFilter` is the plain domain of its own or one above that, those with an equal
/// `regexFilter`, and those without a filter. Most that differ in what they test of response headers
/// are told apart by one number each. It takes memory for some numbers a rule.
///
/// # Errors
///
/// - `TooManyRules(count)`: there are more than 10,000 rules.
/// - `NoMemory`: there are no more, and memory ran out.
pub fn find(alloc: Global, rules: &[Rule]) -> Result<Vec<Shadow>, PruneRefusal>
    requires { IdsDiffer rules.now }
    ensures found { IfOk result (λ removals. removals.items ≡ spec.removals rules.now) }
    ensures few { IfOk result (λ removals. length rules.now ≤ max_rules) }
    ensures refused { IfErr result (λ refusal. ((refusal ≡ PruneRefusal.TooManyRules (length rules.now))
        × (max_rules < length rules.now)) ⊎ ((refusal ≡ PruneRefusal.NoMemory) × (length rules.now ≤ max_rules))) }
    ensures accepted { IfOk result (λ removals. spec.checked rules.now removals.items ≡ Ok (spec.kept rules.now)) }
{
    found_is_accepted();
    are_rules(rules);
    if rules.len() > MAX_RULES {
        return Err(PruneRefusal::TooManyRules(rules.len()));
    }
    removals_of(alloc, rules).map_err(|_| PruneRefusal::NoMemory)
}
