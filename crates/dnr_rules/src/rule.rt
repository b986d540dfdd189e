ghost use Rattle.std.specs.Prelude.{◌≡◌, IfOk, is_some};
ghost use Rattle.rule_spec.specs.IsRule.{IsRule};
ghost use Rattle.rule_spec.specs.Rule.{is_unsafe};
ghost use Rattle.dnr_rules.specs.Seen.{action_seen, parts_seen};

use crate::{Action, Condition, RuleParts};
use dnr_base::{Copied, NoMemory};
use std::alloc::Global;
use std::marker::Model;

/// A rule: Chrome's reference of declarativeNetRequest, `Rule`. A clause sees the rule of `rule_spec`, and
/// every rule keeps `IsRule` of it.
#[derive(Debug, Drop)]
pub struct Rule {
    id: u32,
    priority: u32,
    condition: Condition,
    action: Action,
}

impl Model for Rule {
    ghost use Rattle.rule_spec.specs.Rule as spec;
    ghost use Rattle.rule_spec.specs.IsRule.{IsRule};

    ghost Value = { spec.Rule };

    ghost use Rattle.dnr_rules.specs.Seen.{rule_of};

    ghost view = { λ r. rule_of r.id r.priority r.condition r.action };

    ghost invariant = { λ r. IsRule (rule_of r.id r.priority r.condition r.action) };
}

impl Rule {
    /// The rule of these parts. It takes no memory.
    pub fn build(parts: RuleParts) -> Rule
        requires { IsRule (parts_seen parts) }
        ensures { result ≡ parts_seen parts }
    {
        Rule {
            id: parts.id,
            priority: parts.priority,
            condition: Condition::build(parts.condition),
            action: parts.action,
        }
    }

    /// The number by which an extension names it.
    pub fn id(&self) -> u32
        ensures { result ≡ self.now.id }
    {
        self.id
    }

    /// Of the rules that hold, the greater priority comes first.
    pub fn priority(&self) -> u32
        ensures { result ≡ self.now.priority }
    {
        self.priority
    }

    /// When it holds.
    pub fn condition(&self) -> &Condition
        ensures value { result.now ≡ self.now.condition }
        ensures rule { IsRule self.now }
    {
        &self.condition
    }

    /// What it does then.
    pub fn action(&self) -> &Action
        ensures value { action_seen result.now ≡ self.now.action }
        ensures rule { IsRule self.now }
    {
        &self.action
    }

    /// Whether the action is none of those that Chrome's reference calls safe. It takes no memory.
    pub fn is_unsafe(&self) -> bool
        ensures { result ≡ is_unsafe self.now.action }
    {
        self.action.is_unsafe()
    }

    /// Whether the rule has a `regexFilter`. It takes no memory.
    pub fn uses_regex(&self) -> bool
        ensures { result ≡ is_some self.now.condition.regex_filter }
    {
        self.condition.regex_filter().is_some()
    }

    /// An equal rule.
    ///
    /// `NoMemory`: no memory is left for its parts.
    pub fn copy(&self, alloc: Global) -> Result<Rule, NoMemory>
        ensures { IfOk result (λ copy. copy ≡ self.now) }
    {
        Ok(Rule {
            id: self.id,
            priority: self.priority,
            condition: self.condition.copy(alloc)?,
            action: self.action.copy(alloc)?,
        })
    }
}

impl Copied for Rule {
    fn copied(&self, alloc: Global) -> Result<Rule, NoMemory> {
        self.copy(alloc)
    }
}
