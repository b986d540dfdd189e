ghost use Rattle.std.specs.Prelude.{◌≡◌, length, count_by, map, pos, slice_get, IfOk, option_copied};
ghost use Rattle.std.specs.List.{list_any};
ghost use Rattle.std.specs.List.Sorted.{IsPermutation};
ghost use Rattle.std.specs.Ordering.{int_eq};
ghost use Rattle.update_spec.specs.Judge.{uses_regex, has_id};
ghost use Rattle.rule_ids.specs.Counted as spec;
ghost use Rattle.rule_segments.specs.Segments.{of_id};

use dnr_base::NoMemory;
use dnr_rules::Rule;
use rule_ids::{Counts, KnownDraft, KnownIds};
use rule_index::LendsRule;
use std::alloc::Global;
use std::marker::Model;
use std::sync::Arc;

/// Rules in their order, or handles on them, with what is known of them by their ids. Who takes them once more shares
/// them. A clause sees the rules.
#[derive(Debug, Drop)]
pub struct KnownRules<R: LendsRule> {
    held: Arc<HeldRules<R>>,
}

impl<R: LendsRule> Model for KnownRules<R> {
    ghost use Rattle.std.specs.Prelude.{List};
    ghost use Rattle.std.specs.Arc.{arc_value};
    ghost use Rattle.rule_spec.specs.Rule as spec;

    ghost Value = { List spec.Rule };

    ghost view = { λ r. arc_value r.held };
}

// The rules themselves, what is known of them by their ids, and what they count for. A clause sees the rules.
#[derive(Debug, Drop)]
struct HeldRules<R: LendsRule> {
    rules: Vec<R>,
    known: KnownIds,
    counts: Counts,
}

impl<R: LendsRule> Model for HeldRules<R> {
    ghost use Rattle.std.specs.Prelude.{List, map};
    ghost use Rattle.rule_spec.specs.Rule as spec;
    ghost use Rattle.rule_segments.specs.Counts.{AreHeld};

    ghost Value = { List spec.Rule };

    ghost view = { λ h. map R.lent h.rules.items };

    ghost invariant = { λ h. AreHeld (map R.lent h.rules.items) h.known h.counts };
}

// What is known of the rules by their ids.
fn known_of<R: LendsRule>(alloc: Global, rules: &[R]) -> Result<KnownIds, NoMemory>
    ensures { IfOk result (λ known. IsPermutation (map spec.known_of (map R.lent rules.now)) known) }
{
    let mut known = KnownDraft::new(alloc);
    for rule in rules {
        known.add(rule.lent())?;
    }
    known.finish()
}

impl<R: LendsRule> HeldRules<R> {
    #[tactic(auto, using(crate::proofs::Known::all_known))]
    fn of(alloc: Global, rules: Vec<R>) -> Result<HeldRules<R>, NoMemory>
    where
        R: Drop,
        ensures { IfOk result (λ held. held ≡ map R.lent rules.items) }
    {
        let known = known_of(alloc, rules.as_slice())?;
        let counts = known.all_counts();
        Ok(HeldRules {
            rules,
            known,
            counts,
        })
    }

    fn as_slice(&self) -> &[R]
        ensures { map R.lent result.now ≡ self.now }
    {
        self.rules.as_slice()
    }

    fn known(&self) -> &KnownIds
        ensures { IsPermutation (map spec.known_of self.now) result.now }
    {
        &self.known
    }

    fn counts(&self) -> Counts
        ensures { result ≡ spec.counts_of self.now }
    {
        self.counts
    }
}

impl<R: LendsRule> KnownRules<R> {
    /// These rules.
    ///
    /// `NoMemory`: no memory is left to share them.
    pub fn of(alloc: Global, rules: Vec<R>) -> Result<KnownRules<R>, NoMemory>
    where
        R: Drop,
        ensures { IfOk result (λ known. known ≡ map R.lent rules.items) }
    {
        let held = HeldRules::of(alloc, rules)?;
        Ok(KnownRules {
            held: Arc::new(alloc, held)?,
        })
    }

    /// What lends the rules, in their order.
    pub fn as_slice(&self) -> &[R]
        ensures { map R.lent result.now ≡ self.now }
    {
        self.held.as_slice()
    }

    /// How many rules there are.
    pub fn len(&self) -> usize
        ensures { result ≡ length self.now }
    {
        self.as_slice().len()
    }

    /// The rule at a place, if there is one.
    pub fn get(&self, place: usize) -> Option<&Rule>
        ensures { option_copied result ≡ slice_get self.now place }
    {
        match self.as_slice().get(place) {
            Some(one) => Some(one.lent()),
            None => None,
        }
    }

    /// How many there are, and how many of them count for a limit.
    pub fn counts(&self) -> Counts
        ensures { result ≡ spec.counts_of self.now }
    {
        self.held.counts()
    }

    /// How many of them have a `regexFilter`.
    pub fn patterns(&self) -> usize
        ensures { result ≡ count_by uses_regex self.now }
    {
        self.counts().patterns
    }

    /// The same rules once more, of which none is copied. It takes no memory.
    ///
    /// `NoMemory`: there are too many handles on them.
    pub fn again(&self) -> Result<KnownRules<R>, NoMemory>
        ensures { IfOk result (λ again. again ≡ self.now) }
    {
        Ok(KnownRules {
            held: Arc::try_clone(&self.held)?,
        })
    }

    /// Whether one of the rules has this id. It is asked in the time of a search.
    #[tactic(auto, using(crate::proofs::Known::has_known))]
    pub fn has_id(&self, id: u32) -> bool
        ensures { result ≡ has_id self.now id }
    {
        self.held.known().has(id)
    }

    /// Whether one of the rules has this whole number as its id.
    pub fn has_whole(&self, id: &i128) -> bool
        ensures { result ≡ list_any (λ rule. int_eq id.now (pos rule.id)) self.now }
    {
        self.held.known().has_whole(id)
    }

    // What the rules of this id count for.
    #[tactic(auto, using(crate::proofs::Known::counts_known))]
    pub(crate) fn counts_of_id(&self, id: u32) -> Counts
        ensures { result ≡ spec.counts_of (of_id id self.now) }
    {
        self.held.known().counts(id)
    }
}
