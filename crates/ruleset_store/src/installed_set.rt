ghost use Rattle.std.specs.Prelude.{◌≡◌, ◌&&◌, ◌||◌, [], not, pos, IfOk};
ghost use Rattle.std.specs.List.{list_any};
ghost use Rattle.std.specs.Ordering.{int_eq};
ghost use Rattle.rule_spec.specs.State as state;
ghost use Rattle.update_spec.specs.Update as spec;
ghost use Rattle.ruleset_store.specs.Installed.{is_off_by, off_in};

use crate::ids::{has_number, wholes_among};
use crate::rule_set::SharedSet;
use crate::{KnownRules, OffIds, Rule, RuleSet};
use dnr_base::{Items, NoMemory, Text};
use std::alloc::Global;
use std::collections::BTreeSet;
use std::marker::Model;
use std::sync::Arc;

/// A static ruleset of an installed extension. A clause sees the ruleset of `rule_spec`.
#[derive(Debug, Drop)]
pub struct InstalledSet {
    brought: SharedSet,
    enabled: bool,
    disabled: Arc<OffIds>,
}

impl Model for InstalledSet {
    ghost use Rattle.std.specs.Arc.{arc_value};
    ghost use Rattle.rule_spec.specs.State as spec;
    ghost use Rattle.ruleset_store.specs.Installed.{set_with};

    ghost Value = { spec.RuleSet };

    ghost view = { λ s. set_with s.brought s.enabled (arc_value s.disabled) };
}

// Whether the text is one of these.
fn has_text(texts: &[Text], text: &str) -> bool
    ensures { result ≡ spec.has_text texts.now text.now }
{
    texts.iter().any(|other| text == other.as_str())
}

// Whether a rule is off that was off or not, once it is disabled or not, and enabled or not.
fn is_off(was_off: bool, disabled: bool, enabled: bool) -> bool
    ensures { result ≡ ((was_off || disabled) && not enabled) }
{
    (was_off || disabled) && !enabled
}

impl InstalledSet {
    // The ruleset once it is installed, with nothing switched off.
    pub(crate) fn of(alloc: Global, set: &SharedSet) -> Result<InstalledSet, NoMemory>
        ensures { IfOk result (λ installed. installed ≡ spec.installed_set set.now) }
    {
        let disabled = OffIds::of(alloc, Vec::new(alloc))?;
        Ok(InstalledSet {
            brought: set.again()?,
            enabled: set.set().is_enabled(),
            disabled: Arc::new(alloc, disabled)?,
        })
    }

    fn set(&self) -> &RuleSet
        ensures id { result.now.id ≡ self.now.id }
        ensures rules { result.now.rules ≡ self.now.rules }
        ensures origins { result.now.origins ≡ self.now.origins }
    {
        self.brought.set()
    }

    /// The id by which its extension names it.
    pub fn id(&self) -> &str
        ensures { result.now ≡ self.now.id }
    {
        self.set().id()
    }

    /// Whether its rules are in force.
    pub fn is_enabled(&self) -> bool
        ensures { result ≡ self.now.enabled }
    {
        self.enabled
    }

    /// Its rules, in their order.
    pub fn rules(&self) -> &KnownRules<Rule>
        ensures { result.now ≡ self.now.rules }
    {
        self.set().rules()
    }

    /// The ids of the rules that are switched off, in the order of the rules.
    pub fn disabled(&self) -> &OffIds
        ensures { result.now ≡ self.now.disabled }
    {
        &self.disabled
    }

    /// The lines of a filter list that each rule comes from, or nothing.
    pub fn origins(&self) -> &[Items<u32>]
        ensures { result.now ≡ self.now.origins }
    {
        self.set().origins()
    }

    /// Whether the rules of this id are switched off. It is asked in the time of a search.
    pub fn is_disabled(&self, id: u32) -> bool
        ensures { result ≡ state.has_number self.now.disabled id }
    {
        self.disabled.has(id)
    }

    // Whether one of its rules has this id.
    pub(crate) fn has_rule(&self, id: &i128) -> bool
        ensures { result ≡ list_any (λ rule. int_eq id.now (pos rule.id)) self.now.rules }
    {
        self.set().has_rule(id)
    }

    // The same ruleset once more. It takes no memory.
    pub(crate) fn again(&self) -> Result<InstalledSet, NoMemory>
        ensures { IfOk result (λ again. again ≡ self.now) }
    {
        Ok(InstalledSet {
            brought: self.brought.again()?,
            enabled: self.enabled,
            disabled: Arc::try_clone(&self.disabled)?,
        })
    }

    // The ruleset once these are disabled and these enabled. It takes no memory.
    pub(crate) fn switched(
        &self,
        disable: &[Text],
        enable: &[Text],
    ) -> Result<InstalledSet, NoMemory>
        ensures { IfOk result (λ next. next ≡ spec.switched disable.now enable.now self.now) }
    {
        let mut next = self.again()?;
        next.enabled = has_text(enable, self.id())
            || (self.enabled && !has_text(disable, self.id()));
        Ok(next)
    }

    // The ruleset once rules of these ids are off and on.
    pub(crate) fn with_rules_switched(
        &self,
        alloc: Global,
        disable: &[i128],
        enable: &[i128],
    ) -> Result<InstalledSet, NoMemory>
        ensures { IfOk result (λ next. next ≡ spec.with_rules_switched disable.now enable.now self.now) }
    {
        let disable = wholes_among(alloc, disable)?;
        let enable = wholes_among(alloc, enable)?;
        let off = self.off_after(alloc, &disable, &enable)?;
        let mut next = self.again()?;
        next.disabled = Arc::new(alloc, OffIds::of(alloc, off)?)?;
        Ok(next)
    }

    // The ids of the rules that are then off, in the order of the rules.
    fn off_after(
        &self,
        alloc: Global,
        disable: &BTreeSet<i128>,
        enable: &BTreeSet<i128>,
    ) -> Result<Vec<u32>, NoMemory>
        ensures { IfOk result (λ off. off.items ≡ off_in disable.now enable.now self.now.disabled self.now.rules) }
    {
        let mut off = Vec::new(alloc);
        for rule in self.rules().as_slice() {
            if self.is_off_after(disable, enable, rule) {
                off.push(rule.id())?;
            }
        }
        Ok(off)
    }

    // Whether the rule is then off.
    fn is_off_after(&self, disable: &BTreeSet<i128>, enable: &BTreeSet<i128>, rule: &Rule) -> bool
        ensures { result ≡ is_off_by disable.now enable.now self.now.disabled rule.now.id }
    {
        let id = rule.id();
        let disabled = has_number(disable, id);
        let enabled = has_number(enable, id);
        is_off(self.is_disabled(id), disabled, enabled)
    }
}
