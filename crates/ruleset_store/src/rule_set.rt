ghost use Rattle.std.specs.Prelude.{◌≡◌, pos, IfOk};
ghost use Rattle.std.specs.List.{list_any};
ghost use Rattle.std.specs.Ordering.{int_eq};

use crate::KnownRules;
use dnr_base::{Copied, Items, NoMemory, Text};
use dnr_rules::Rule;
use std::alloc::Global;
use std::marker::Model;
use std::sync::Arc;

/// A static ruleset, as its extension brings it: Chrome's reference of declarativeNetRequest, `Ruleset`. A clause sees
/// the new ruleset of `update_spec`.
#[derive(Debug, Drop)]
pub struct RuleSet {
    id: Text,
    enabled: bool,
    rules: KnownRules<Rule>,
    origins: Items<Items<u32>>,
}

impl Model for RuleSet {
    ghost use Rattle.update_spec.specs.Update as spec;

    ghost Value = { spec.NewRuleSet };

    ghost view = { λ s. record { id = s.id; enabled = s.enabled; rules = s.rules; origins = s.origins } };
}

impl RuleSet {
    /// A ruleset of these parts: its id, whether it is enabled, its rules in their order, and the lines of a filter
    /// list that each rule comes from (one list for each rule, or none at all).
    ///
    /// `NoMemory`: no memory is left to share its rules.
    pub fn build(
        alloc: Global,
        id: Text,
        enabled: bool,
        mut rules: Vec<Rule>,
        origins: Vec<Items<u32>>,
    ) -> Result<RuleSet, NoMemory>
        ensures { IfOk result (λ set. set
            ≡ record { id = id; enabled = enabled; rules = rules.items; origins = origins.items }) }
    {
        // (they stay for long, in a list that had room to grow)
        rules.shrink_to_fit();
        let rules = KnownRules::of(alloc, rules)?;
        Ok(RuleSet {
            id,
            enabled,
            rules,
            origins: Items::build(origins),
        })
    }

    /// The id by which its extension names it.
    pub fn id(&self) -> &str
        ensures { result.now ≡ self.now.id }
    {
        self.id.as_str()
    }

    /// Whether its rules are in force once it is installed.
    pub fn is_enabled(&self) -> bool
        ensures { result ≡ self.now.enabled }
    {
        self.enabled
    }

    /// Its rules, in their order.
    pub fn rules(&self) -> &KnownRules<Rule>
        ensures { result.now ≡ self.now.rules }
    {
        &self.rules
    }

    /// The lines of a filter list that each rule comes from, or nothing.
    pub fn origins(&self) -> &[Items<u32>]
        ensures { result.now ≡ self.now.origins }
    {
        self.origins.as_slice()
    }

    // Whether one of its rules has this id.
    pub(crate) fn has_rule(&self, id: &i128) -> bool
        ensures { result ≡ list_any (λ rule. int_eq id.now (pos rule.id)) self.now.rules }
    {
        self.rules.has_whole(id)
    }

    /// An equal ruleset, which shares its rules.
    ///
    /// `NoMemory`: no memory is left for its other parts.
    pub fn copy(&self, alloc: Global) -> Result<RuleSet, NoMemory>
        ensures { IfOk result (λ copy. copy ≡ self.now) }
    {
        let rules = self.rules.again()?;
        Ok(RuleSet {
            id: self.id.copy(alloc)?,
            enabled: self.enabled,
            rules,
            origins: Items::build(lists_again(alloc, self.origins())?),
        })
    }
}

impl Copied for RuleSet {
    fn copied(&self, alloc: Global) -> Result<RuleSet, NoMemory> {
        self.copy(alloc)
    }
}

// Equal lists of numbers, in their order.
fn lists_again(alloc: Global, lists: &[Items<u32>]) -> Result<Vec<Items<u32>>, NoMemory>
    ensures { IfOk result (λ copies. copies.items ≡ lists.now) }
{
    let mut copies = Vec::with_capacity(alloc, lists.len())?;
    for list in lists {
        copies.push(Items::build(Vec::from_slice(alloc, list.as_slice())?))?;
    }
    Ok(copies)
}

/// A ruleset that the states after its installation share. A clause sees the ruleset.
#[derive(Debug, Drop)]
pub struct SharedSet {
    set: Arc<RuleSet>,
}

impl Model for SharedSet {
    ghost use Rattle.std.specs.Arc.{arc_value};
    ghost use Rattle.update_spec.specs.Update as spec;

    ghost Value = { spec.NewRuleSet };

    ghost view = { λ s. arc_value s.set };
}

impl SharedSet {
    pub(crate) fn new(alloc: Global, set: RuleSet) -> Result<SharedSet, NoMemory>
        ensures { IfOk result (λ shared. shared ≡ set) }
    {
        Ok(SharedSet {
            set: Arc::new(alloc, set)?,
        })
    }

    // The same ruleset once more. It takes no memory.
    pub(crate) fn again(&self) -> Result<SharedSet, NoMemory>
        ensures { IfOk result (λ again. again ≡ self.now) }
    {
        Ok(SharedSet {
            set: Arc::try_clone(&self.set)?,
        })
    }

    /// The ruleset.
    pub fn set(&self) -> &RuleSet
        ensures { result.now ≡ self.now }
    {
        &self.set
    }
}
