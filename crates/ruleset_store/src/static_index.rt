ghost use Rattle.std.specs.Prelude.{◌≡◌, ◌<◌, ◌≤◌, ℕ, List, length, slice_index, IfOk};
ghost use Rattle.std.specs.List.Sorted.{IsNonDecreasingBy};
ghost use Rattle.rule_index.specs.Lists.{IsListIndexOf};
ghost use Rattle.rule_spec.specs.Rule.{Rule};
ghost use Rattle.ruleset_store.specs.StaticIndex.{IsStaticIndexOf, lists_of, place_in, rules_among, starts_from};

use crate::counts::count_rules;
use crate::installed_set::InstalledSet;
use dnr_base::NoMemory;
use rule_index::{ListDraft, ListIndex};
use std::alloc::Global;
use std::marker::Model;

/// The index of the rules of several rulesets, which stand one ruleset behind another, whichever of them are enabled. So a
/// request asks one index of an extension, however many rulesets it has. A clause sees the index, and where each begins.
#[derive(Debug, Drop)]
pub struct StaticIndex {
    index: ListIndex,
    starts: Vec<usize>,
    count: usize,
}

impl Model for StaticIndex {
    ghost use Rattle.ruleset_store.specs.StaticIndex as spec;

    ghost Value = { spec.StaticIndex };

    ghost view = { λ s. record { index = s.index; starts = s.starts.items; count = s.count } };

    ghost invariant = { λ s. spec.AreStarts s.starts.items };
}

// The index of the rules of all the rulesets.
fn index_of(alloc: Global, sets: &[InstalledSet]) -> Result<ListIndex, NoMemory>
    ensures { IfOk result (IsListIndexOf (rules_among (lists_of sets.now))) }
{
    let mut draft = ListDraft::new(alloc);
    for set in sets {
        draft.add_all(alloc, set.rules().as_slice())?;
    }
    draft.finish(alloc)
}

// Where each of the rulesets begins.
fn starts_of(alloc: Global, sets: &[InstalledSet]) -> Result<Vec<usize>, NoMemory>
    ensures { IfOk result (λ starts. starts.items ≡ starts_from 0 (lists_of sets.now)) }
{
    let mut starts = Vec::with_capacity(alloc, sets.len())?;
    let mut start = 0usize;
    for set in sets {
        starts.push(start)?;
        start = start.checked_add(set.rules().len()).ok_or(NoMemory)?;
    }
    Ok(starts)
}

// How many begin at the place or before it.
fn begun(starts: &[usize], place: usize) -> usize
    requires { IsNonDecreasingBy (λ start. start) starts.now }
    ensures within { result ≤ length starts.now }
    ensures below { (k : ℕ) → k < result → slice_index starts.now k ≤ place }
    ensures behind { (k : ℕ) → result ≤ k → k < length starts.now → place < slice_index starts.now k }
{
    starts.partition_point(|start| *start <= place)
}

impl StaticIndex {
    // The index of the rules of these rulesets.
    #[tactic(auto, using(crate::proofs::Lists::rules_counted))]
    pub(crate) fn of(alloc: Global, sets: &[InstalledSet]) -> Result<StaticIndex, NoMemory>
        ensures { IfOk result (IsStaticIndexOf (lists_of sets.now)) }
    {
        let starts = starts_of(alloc, sets)?;
        if starts.len() > u32::MAX as usize {
            return Err(NoMemory);
        }
        Ok(StaticIndex {
            index: index_of(alloc, sets)?,
            starts,
            count: count_rules(sets)?,
        })
    }

    /// The index of all rules, each at its place among those of all the rulesets.
    pub fn index(&self) -> &ListIndex
        ensures { result.now ≡ self.now.index }
    {
        &self.index
    }

    /// In which of the rulesets the rule at a place stands, if one does, and at which place there. It is told in the time of
    /// a search.
    pub fn find(&self, place: usize) -> Option<(u32, usize)>
        ensures { (lists : List (List Rule)) → IsStaticIndexOf lists self.now → result ≡ place_in 0 lists place }
    {
        if place >= self.count {
            return None;
        }
        let starts = self.starts.as_slice();
        let count = begun(starts, place);
        if count == 0 {
            return None;
        }
        let number = count - 1;
        Some((number as u32, place - starts[number]))
    }
}
