ghost use Rattle.std.specs.Prelude.{◌≡◌, ◌++◌, ◌↔◌, [], filter, length, IsTrue, IfOk, OnOk};
ghost use Rattle.update_spec.specs.Judge.{has_id};
ghost use Rattle.update_spec.specs.Update.{without_ids};
ghost use Rattle.rule_ids.specs.Counted.{counts_of};
ghost use Rattle.rule_ids.specs.Off.{AreApart};
ghost use Rattle.rule_segments.specs.Segments.{IsHalfLive, live_in};

use crate::indexed_rules::IndexedRules;
use crate::known_rules::KnownRules;
use crate::shared_rule::SharedRule;
use dnr_base::NoMemory;
use rule_ids::{Counts, OffIds};
use std::alloc::Global;
use std::marker::Model;
use std::sync::Arc;

/// Rules with their index, of which some are removed. A clause sees the rules and the ids that are removed.
#[derive(Debug, Drop)]
pub struct Segment {
    rules: IndexedRules,
    removed: Arc<OffIds>,
    counts: Counts,
}

impl Model for Segment {
    ghost use Rattle.std.specs.Prelude.{◌≡◌};
    ghost use Rattle.std.specs.Arc.{arc_value};
    ghost use Rattle.update_spec.specs.Update.{without_ids};
    ghost use Rattle.rule_ids.specs.Counted.{counts_of};
    ghost use Rattle.rule_segments.specs.Segments as spec;

    ghost Value = { spec.Segment };

    ghost view = { λ s. record { rules = s.rules; removed = arc_value s.removed } };

    ghost invariant = { λ s. s.counts ≡ counts_of (without_ids (arc_value s.removed) s.rules) };
}

impl Segment {
    // These rules, of which none is removed.
    #[tactic(auto, using(crate::proofs::Removed::none_removed))]
    pub(crate) fn of(alloc: Global, rules: IndexedRules) -> Result<Segment, NoMemory>
        ensures whole { IfOk result (λ segment. segment.rules ≡ rules) }
        ensures live { IfOk result (λ segment. live_in segment ≡ rules) }
    {
        let counts = rules.rules().counts();
        Ok(Segment {
            rules,
            removed: Arc::new(alloc, OffIds::none(alloc))?,
            counts,
        })
    }

    /// The rules, those that are removed among them.
    pub fn rules(&self) -> &IndexedRules
        ensures { result.now ≡ self.now.rules }
    {
        &self.rules
    }

    // The same rules without their index.
    fn known(&self) -> &KnownRules<SharedRule>
        ensures { result.now ≡ self.now.rules }
    {
        self.rules.rules()
    }

    /// The ids of the rules that are removed.
    pub fn removed(&self) -> &OffIds
        ensures { result.now ≡ self.now.removed }
    {
        &self.removed
    }

    // How many of the rules are live, and how many of these count for a limit.
    pub(crate) fn counts(&self) -> Counts
        ensures { result ≡ counts_of (live_in self.now) }
    {
        self.counts
    }

    // How many of the rules are live.
    pub(crate) fn len(&self) -> usize
        ensures { result ≡ length (live_in self.now) }
    {
        self.counts().rules
    }

    // Whether half of the rules are live.
    pub(crate) fn is_half_live(&self) -> bool
        ensures { IsTrue result ↔ IsHalfLive self.now }
    {
        self.known().len().saturating_sub(self.len()) <= self.len()
    }

    // The same segment once more. It takes no memory.
    pub(crate) fn again(&self) -> Result<Segment, NoMemory>
        ensures { IfOk result (λ again. again ≡ self.now) }
    {
        Ok(Segment {
            rules: self.rules.again()?,
            removed: Arc::try_clone(&self.removed)?,
            counts: self.counts,
        })
    }

    // Puts the handles of those that are live at the end.
    pub(crate) fn push_live(&self, into: &mut Vec<SharedRule>) -> Result<(), NoMemory>
        ensures { OnOk result (into.new.items ≡ into.old.items ++ live_in self.now) }
    {
        for rule in self.known().as_slice() {
            if !self.removed.has(rule.rule().id()) {
                into.push(rule.again()?)?;
            }
        }
        Ok(())
    }

    // Whether one of the rules that are live has this id.
    pub(crate) fn has_live(&self, id: u32) -> bool
        ensures { result ≡ has_id (live_in self.now) id }
    {
        !self.removed.has(id) && self.known().has_id(id)
    }

    // Those of the ids that a live rule has, and what the rules that stay count for.
    fn removal(&self, alloc: Global, remove: &[u32]) -> Result<(Vec<u32>, Counts), NoMemory>
        requires { AreApart remove.now }
        ensures ids { IfOk result (λ gone. gone.0.items ≡ filter (has_id (live_in self.now)) remove.now) }
        ensures counts { IfOk result (λ gone. gone.1 ≡ counts_of (without_ids remove.now (live_in self.now))) }
    {
        let mut gone = Vec::new(alloc);
        let mut counts = self.counts;
        for id in remove {
            if self.has_live(*id) {
                gone.push(*id)?;
                counts = counts.without(self.known().counts_of_id(*id));
            }
        }
        Ok((gone, counts))
    }

    // The segment without the rules of these ids.
    pub(crate) fn without(&self, alloc: Global, remove: &[u32]) -> Result<Segment, NoMemory>
        requires { AreApart remove.now }
        ensures { IfOk result (λ next. live_in next ≡ without_ids remove.now (live_in self.now)) }
    {
        let (gone, counts) = self.removal(alloc, remove)?;
        let gone = gone.as_slice();
        if gone.is_empty() {
            return self.again();
        }
        let removed = self.removed.and(alloc, gone)?;
        Ok(Segment {
            rules: self.rules.again()?,
            removed: Arc::new(alloc, removed)?,
            counts,
        })
    }
}
