ghost use Rattle.std.specs.Prelude.{◌≡◌, ◌++◌, IfOk, OnOk};

use dnr_base::{Copied, NoMemory};
use dnr_rules::Rule;
use rule_index::LendsRule;
use std::alloc::Global;
use std::marker::Model;
use std::sync::Arc;

/// A rule that several lists have. A clause sees the rule.
#[derive(Debug, Drop)]
pub struct SharedRule {
    rule: Arc<Rule>,
}

impl Model for SharedRule {
    ghost use Rattle.std.specs.Arc.{arc_value};
    ghost use Rattle.rule_spec.specs.Rule as spec;

    ghost Value = { spec.Rule };

    ghost view = { λ s. arc_value s.rule };
}

impl SharedRule {
    pub(crate) fn new(alloc: Global, rule: Rule) -> Result<SharedRule, NoMemory>
        ensures { IfOk result (λ shared. shared ≡ rule) }
    {
        Ok(SharedRule {
            rule: Arc::new(alloc, rule)?,
        })
    }

    /// The rules, behind a handle each.
    ///
    /// `NoMemory`: no memory is left for them.
    pub fn all_of(alloc: Global, rules: Vec<Rule>) -> Result<Vec<SharedRule>, NoMemory>
        ensures { IfOk result (λ shared. shared.items ≡ rules.items) }
    {
        let mut shared = Vec::with_capacity(alloc, rules.len())?;
        for rule in rules {
            shared.push(SharedRule::new(alloc, rule)?)?;
        }
        Ok(shared)
    }

    // Puts the same rules behind others.
    pub(crate) fn push_all(into: &mut Vec<SharedRule>, rules: &[SharedRule]) -> Result<(), NoMemory>
        ensures { OnOk result (into.new.items ≡ into.old.items ++ rules.now) }
    {
        for rule in rules {
            into.push(rule.again()?)?;
        }
        Ok(())
    }

    /// The same rule once more. It takes no memory.
    ///
    /// `NoMemory`: there are too many handles on it.
    pub fn again(&self) -> Result<SharedRule, NoMemory>
        ensures { IfOk result (λ again. again ≡ self.now) }
    {
        Ok(SharedRule {
            rule: Arc::try_clone(&self.rule)?,
        })
    }

    /// The rule.
    pub fn rule(&self) -> &Rule
        ensures { result.now ≡ self.now }
    {
        &self.rule
    }
}

impl Copied for SharedRule {
    fn copied(&self, _: Global) -> Result<SharedRule, NoMemory> {
        self.again()
    }
}

impl LendsRule for SharedRule {
    ghost lent = { λ shared. shared };

    fn lent(&self) -> &Rule {
        self.rule()
    }
}
