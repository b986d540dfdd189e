ghost use Rattle.std.specs.Prelude.{◌≡◌, ◌++◌, ◌∷◌, [], false, IfOk, IsTrue};
ghost use Rattle.std.specs.Prelude.{All};
ghost use Rattle.update_spec.specs.Judge.{has_id};
ghost use Rattle.update_spec.specs.Update.{without_ids};
ghost use Rattle.rule_ids.specs.Counted.{counts_of};
ghost use Rattle.live_rules.specs.Slots.{cleared, gone, there};
ghost use Rattle.live_rules.specs.Live.{AreFew, IsMade};

use crate::slot::Slot;
use dnr_base::NoMemory;
use rule_ids::Counts;
use rule_segments::SharedRule;
use std::alloc::Global;
use std::collections::HashMap;
use std::marker::Model;

const MAX_RULES: usize = 30_000;

const MAX_UNSAFE: usize = 5_000;

const MAX_PATTERNS: usize = 1_000;

/// The dynamic rules of an extension. A clause sees the rules, in their order.
#[derive(Drop)]
pub struct LiveRules {
    alloc: Global,
    slots: Vec<Slot>,
    places: HashMap<u32, usize>,
    counts: Counts,
}

impl Model for LiveRules {
    ghost use Rattle.std.specs.Prelude.{List};
    ghost use Rattle.rule_spec.specs.Rule as spec;
    ghost use Rattle.live_rules.specs.Slots.{there};
    ghost use Rattle.live_rules.specs.Live.{IsLive};

    ghost Value = { List spec.Rule };

    ghost view = { λ live. there live.slots.items };

    ghost invariant = { λ live. IsLive live.slots.items live.places live.counts };
}

impl LiveRules {
    /// No rules.
    pub fn none(alloc: Global) -> LiveRules
        ensures { result ≡ [] }
    {
        LiveRules {
            alloc,
            slots: Vec::new(alloc),
            places: HashMap::new(alloc),
            counts: Counts::none(),
        }
    }

    /// Makes an update: removes rules by their ids, then adds others. Where it says that this was not done, the update may
    /// be one that is refused, and nothing is known of the rules that are left.
    ///
    /// `NoMemory`: memory ran out, and nothing is known of the rules that are left.
    pub fn make(&mut self, remove: &[u32], add: &[SharedRule]) -> Result<bool, NoMemory>
        ensures { IfOk result (λ made. IsTrue made →
            IsMade remove.now add.now self.old self.new) }
    {
        self.remove_all(remove);
        if !self.add_all(add)? {
            return Ok(false);
        }
        Ok(self.are_few())
    }

    /// The rules.
    ///
    /// `NoMemory`: no memory is left for them.
    pub fn into_rules(self) -> Result<Vec<SharedRule>, NoMemory>
        ensures { IfOk result (λ rules. rules.items ≡ self) }
    {
        listed_rules(self.alloc, self.slots)
    }

    fn remove_all(&mut self, ids: &[u32])
        ensures { self.new ≡ without_ids ids.now self.old }
    {
        for id in ids {
            self.remove(*id);
        }
    }

    fn remove(&mut self, id: u32)
        ensures { self.new ≡ without_ids (id ∷ []) self.old }
    {
        let place = self.places.remove(&id).unwrap_or(0);
        let gone = clear(&mut self.slots, place, id);
        self.counts = self.counts.without(gone);
    }

    // Whether none of them has the id of one that is there, so that they were added.
    fn add_all(&mut self, rules: &[SharedRule]) -> Result<bool, NoMemory>
        ensures rules { IfOk result (λ added. IsTrue added → self.new ≡ self.old ++ rules.now) }
        ensures others { IfOk result (λ added. IsTrue added →
            All (λ rule. has_id self.old rule.id ≡ false) rules.now) }
    {
        for shared in rules {
            if !self.add(shared)? {
                return Ok(false);
            }
        }
        Ok(true)
    }

    fn add(&mut self, rule: &SharedRule) -> Result<bool, NoMemory>
        ensures rules { IfOk result (λ added. IsTrue added →
            self.new ≡ self.old ++ rule.now ∷ []) }
        ensures other { IfOk result (λ added. IsTrue added →
            has_id self.old rule.now.id ≡ false) }
    {
        let id = rule.rule().id();
        if self.places.contains_key(&id) {
            return Ok(false);
        }
        let slot = Slot::of(rule)?;
        let counts = self.counts.and(slot.counts())?;
        self.places.insert(id, self.slots.len())?;
        self.slots.push(slot)?;
        self.counts = counts;
        Ok(true)
    }

    // Whether there are no more than there may be.
    fn are_few(&self) -> bool
        ensures { IsTrue result → AreFew self.now }
    {
        self.counts.rules <= MAX_RULES
            && self.counts.unsafe_rules <= MAX_UNSAFE
            && self.counts.patterns <= MAX_PATTERNS
    }
}

// Empties the place, if a rule of this id is there. What goes so counts for this.
fn clear(slots: &mut [Slot], place: usize, id: u32) -> Counts
    ensures slots { slots.new ≡ cleared id place slots.old }
    ensures counts { result ≡ counts_of (gone id place slots.old) }
{
    if place < slots.len() {
        return slots[place].clear(id);
    }
    Counts::none()
}

// The rules that are there.
fn listed_rules(alloc: Global, slots: Vec<Slot>) -> Result<Vec<SharedRule>, NoMemory>
    ensures { IfOk result (λ rules. rules.items ≡ there slots.items) }
{
    let mut rules = Vec::new(alloc);
    for slot in slots {
        if let Some(rule) = slot.into_rule() {
            rules.push(rule)?;
        }
    }
    Ok(rules)
}
