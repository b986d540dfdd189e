ghost use Rattle.std.specs.Prelude.{◌≡◌, IfOk};
ghost use Rattle.rule_spec.specs.Rule.{verb_of};
ghost use Rattle.rule_spec.specs.Scan as spec;
ghost use Rattle.dnr_rules.specs.Seen.{action_seen};

use dnr_base::{Candidate, NoMemory, Rank, RuleName, Text, Verb};
use dnr_rules::{Action, Rule};
use std::alloc::Global;
use std::marker::Model;

// A rule in force, which its extension lends: where it stands, its ruleset, and the lines of a filter list that
// it comes from.
#[derive(Drop)]
pub(crate) struct Live<'a> {
    pub rank: Rank,
    pub set: &'a str,
    pub rule: &'a Rule,
    pub lines: &'a [u32],
}

impl<'a> Model for Live<'a> {
    ghost use Rattle.rule_spec.specs.State as spec;

    ghost Value = { spec.Live };

    ghost view = { λ l. record { rank = l.rank; set = l.set.now; rule = l.rule.now; lines = l.lines.now } };
}

// The verdict that an action may give, if it gives one.
fn verb_of(action: &Action) -> Option<Verb>
    ensures { result ≡ verb_of (action_seen action.now) }
{
    match action {
        Action::Block => Some(Verb::Block),
        Action::Redirect(_) => Some(Verb::Redirect),
        Action::Allow => Some(Verb::Allow),
        Action::UpgradeScheme => Some(Verb::UpgradeScheme),
        Action::ModifyHeaders(_) => None,
        Action::AllowAllRequests => Some(Verb::AllowAllRequests),
    }
}

// The priority of an action that allows, and 0 of another.
fn allowed_priority(action: &Action, priority: u32) -> u32
    ensures { result ≡ spec.allowed_priority (action_seen action.now) priority }
{
    match action {
        Action::Allow | Action::AllowAllRequests => priority,
        _ => 0,
    }
}

impl<'a> Live<'a> {
    // The same rule.
    pub(crate) fn again(&self) -> Live<'a>
        ensures { result ≡ self.now }
    {
        Live {
            rank: self.rank,
            set: self.set,
            rule: self.rule,
            lines: self.lines,
        }
    }

    pub(crate) fn verb(&self) -> Option<Verb>
        ensures { result ≡ verb_of self.now.rule.action }
    {
        verb_of(self.rule.action())
    }

    pub(crate) fn allowed_priority(&self) -> u32
        ensures { result ≡ spec.allowed_priority self.now.rule.action self.now.rule.priority }
    {
        allowed_priority(self.rule.action(), self.rule.priority())
    }

    pub(crate) fn candidate(&self, verb: Verb) -> Candidate
        ensures { result ≡ spec.candidate_of self.now verb }
    {
        Candidate {
            priority: self.rule.priority(),
            action: verb,
            rank: self.rank,
            id: self.rule.id(),
        }
    }

    pub(crate) fn name(&self, alloc: Global, extension: &str) -> Result<RuleName, NoMemory>
        ensures { IfOk result (λ name. name ≡ spec.name_of extension.now self.now) }
    {
        Ok(RuleName {
            ext: Text::build(String::from_str(alloc, extension)?),
            set: Text::build(String::from_str(alloc, self.set)?),
            id: self.rule.id(),
        })
    }
}
