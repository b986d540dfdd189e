ghost use Rattle.std.specs.Prelude.{◌≡◌, ◌≤◌, ◌<◌, ◌++◌, [], ◌∷◌, ℕ, length, count_by, filter, pos, slice_index_or, slice_range, IfOk, OnOk};
ghost use Rattle.std.specs.List.{list_any};
ghost use Rattle.std.specs.List.Sorted.{IsPermutation};
ghost use Rattle.std.specs.Ordering.{int_eq};
ghost use Rattle.rule_ids.specs.Counted as spec;
ghost use Rattle.rule_ids.specs.Counted.{IsRising, has_known_id, known_of};
ghost use Rattle.rule_ids.specs.declared.known_rule.KnownRule.{KnownRule as Known};

use crate::{Counts, KnownRule};
use dnr_base::NoMemory;
use dnr_rules::Rule;
use std::alloc::Global;
use std::marker::Model;

/// What is known of rules, found by their ids in the time of a search. A clause sees what is known, in the order of
/// the ids.
#[derive(Debug, Drop)]
pub struct KnownIds {
    known: Vec<KnownRule>,
}

impl Model for KnownIds {
    ghost use Rattle.std.specs.Prelude.{List};
    ghost use Rattle.rule_ids.specs.Counted.{AreKnown};
    ghost use Rattle.rule_ids.specs.declared.known_rule.KnownRule.{KnownRule};

    ghost Value = { List KnownRule };

    ghost view = { λ k. k.known.items };

    ghost invariant = { λ k. AreKnown k.known.items };
}

/// What is known of rules, before it is put in order. A clause sees what is known, in the order of the rules.
#[derive(Debug, Drop)]
pub struct KnownDraft {
    known: Vec<KnownRule>,
}

impl Model for KnownDraft {
    ghost use Rattle.std.specs.Prelude.{List};
    ghost use Rattle.rule_ids.specs.Counted.{AreSmall};
    ghost use Rattle.rule_ids.specs.declared.known_rule.KnownRule.{KnownRule};

    ghost Value = { List KnownRule };

    ghost view = { λ d. d.known.items };

    ghost invariant = { λ d. AreSmall d.known.items };
}

// How many of them have a smaller id.
fn start_of(known: &[KnownRule], id: u32) -> usize
    requires { IsRising known.now }
    ensures within { result ≤ length known.now }
    ensures below { (k : ℕ) (one : Known) → k < result → (slice_index_or known.now k one).id < id }
    ensures behind { (k : ℕ) (one : Known) → result ≤ k → k < length known.now
        → id ≤ (slice_index_or known.now k one).id }
{
    known.partition_point(|one| one.id < id)
}

// How many of them have no larger id.
fn end_of(known: &[KnownRule], id: u32) -> usize
    requires { IsRising known.now }
    ensures within { result ≤ length known.now }
    ensures below { (k : ℕ) (one : Known) → k < result → (slice_index_or known.now k one).id ≤ id }
    ensures behind { (k : ℕ) (one : Known) → result ≤ k → k < length known.now
        → id < (slice_index_or known.now k one).id }
{
    known.partition_point(|one| one.id <= id)
}

// The part that stands there.
fn part(known: &[KnownRule], start: usize, end: usize) -> &[KnownRule]
    requires ordered { start ≤ end }
    requires within { end ≤ length known.now }
    ensures { result.now ≡ slice_range known.now start end }
{
    &known[start..end]
}

// Those of this id.
fn of_id(known: &[KnownRule], id: u32) -> &[KnownRule]
    requires { IsRising known.now }
    ensures { result.now ≡ filter (has_known_id id) known.now }
{
    let start = start_of(known, id);
    let end = end_of(known, id).max(start);
    part(known, start, end)
}

// Whether one of them has this id.
fn has_id(known: &[KnownRule], id: u32) -> bool
    requires { IsRising known.now }
    ensures { result ≡ list_any (has_known_id id) known.now }
{
    !of_id(known, id).is_empty()
}

fn count_patterns(known: &[KnownRule]) -> usize
    ensures { result ≡ count_by (λ one. one.uses_regex) known.now }
{
    known.iter().filter(|one| one.uses_regex).count()
}

fn count_unsafe(known: &[KnownRule]) -> usize
    ensures { result ≡ count_by (λ one. one.is_unsafe) known.now }
{
    known.iter().filter(|one| one.is_unsafe).count()
}

// What these count for.
fn counts_among(known: &[KnownRule]) -> Counts
    ensures { result ≡ spec.counts_among known.now }
{
    Counts {
        rules: known.len(),
        patterns: count_patterns(known),
        unsafe_rules: count_unsafe(known),
    }
}

// The same in the order of the ids.
fn sorted(mut known: Vec<KnownRule>) -> Result<Vec<KnownRule>, NoMemory>
    ensures same { IfOk result (λ rising. IsPermutation known.items rising.items) }
    ensures rising { IfOk result (λ rising. IsRising rising.items) }
{
    known.sort_by_key(|one| one.id)?;
    Ok(known)
}

impl KnownDraft {
    /// No rules. It takes no memory.
    pub fn new(alloc: Global) -> KnownDraft
        ensures { result ≡ [] }
    {
        KnownDraft {
            known: Vec::new(alloc),
        }
    }

    /// Puts what is known of a rule behind the others.
    ///
    /// `NoMemory`: no memory is left for it. What is in the draft then is not told.
    pub fn add(&mut self, rule: &Rule) -> Result<(), NoMemory>
        ensures { OnOk result (self.new ≡ self.old ++ known_of rule.now ∷ []) }
    {
        self.known.push(KnownRule::of(rule))?;
        Ok(())
    }

    /// The same, to be found by ids.
    ///
    /// `NoMemory`: no memory is left to put it in order.
    pub fn finish(self) -> Result<KnownIds, NoMemory>
        ensures { IfOk result (IsPermutation self) }
    {
        let known = sorted(self.known)?;
        Ok(KnownIds { known })
    }
}

impl KnownIds {
    /// Whether a rule has this id.
    pub fn has(&self, id: u32) -> bool
        ensures { result ≡ list_any (has_known_id id) self.now }
    {
        has_id(self.known.as_slice(), id)
    }

    /// Whether a rule has this whole number as its id.
    pub fn has_whole(&self, id: &i128) -> bool
        ensures { result ≡ list_any (λ one. int_eq id.now (pos one.id)) self.now }
    {
        let known = self.known.as_slice();
        match u32::try_from(*id) {
            Ok(id) => has_id(known, id),
            Err(_) => false,
        }
    }

    /// What all rules count for.
    pub fn all_counts(&self) -> Counts
        ensures { result ≡ spec.counts_among self.now }
    {
        counts_among(self.known.as_slice())
    }

    /// What the rules of this id count for.
    pub fn counts(&self, id: u32) -> Counts
        ensures { result ≡ spec.counts_among (filter (has_known_id id) self.now) }
    {
        counts_among(of_id(self.known.as_slice(), id))
    }
}
