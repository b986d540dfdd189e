ghost use Rattle.std.specs.Prelude.{◌≡◌, List, fold, map, IfOk, OnOk};
ghost use Rattle.dnr_rules.specs.Seen.{action_seen};
ghost use Rattle.index_spec.specs.Pairs as pairs;
ghost use Rattle.rule_spec.specs.Rule.{Rule};
ghost use Rattle.rule_index.specs.Lists as spec;

use crate::drafts::IndexDraft;
use crate::list_index::{LendsRule, ListIndex};
use dnr_base::NoMemory;
use dnr_rules::{Action, Rule};
use std::alloc::Global;
use std::marker::Model;

/// Rules of a list, one after another, that become its index. A clause sees the keys of all rules and of those that
/// reach a request through its frames, and the count of the rules.
#[derive(Debug, Drop)]
pub struct ListDraft {
    whole: IndexDraft,
    framing: IndexDraft,
    count: u32,
}

impl Model for ListDraft {
    ghost use Rattle.rule_index.specs.Lists as spec;

    ghost Value = { spec.ListDraft };

    ghost view = { λ d. record { whole = d.whole; framing = d.framing; count = d.count } };
}

// Whether a rule with this action reaches what is asked for in a frame.
fn is_for_frames(action: &Action) -> bool
    ensures { result ≡ pairs.is_for_frames (action_seen action.now) }
{
    match action {
        Action::Block => false,
        Action::Redirect(_) => false,
        Action::Allow => false,
        Action::UpgradeScheme => false,
        Action::ModifyHeaders(_) => false,
        Action::AllowAllRequests => true,
    }
}

impl ListDraft {
    /// No rules. It takes no memory.
    pub fn new(alloc: Global) -> ListDraft
        ensures { result ≡ spec.empty_draft }
    {
        ListDraft {
            whole: IndexDraft::new(alloc),
            framing: IndexDraft::new(alloc),
            count: 0,
        }
    }

    /// Puts the next rule into it.
    ///
    /// `NoMemory`: no memory is left for its keys, or there are more rules than a `u32` counts. What is in the draft
    /// then is not told.
    pub fn add(&mut self, alloc: Global, rule: &Rule) -> Result<(), NoMemory>
        ensures { OnOk result (self.new ≡ spec.with_next self.old rule.now) }
    {
        let place = self.count;
        let count = place.checked_add(1).ok_or(NoMemory)?;
        self.whole.add(alloc, rule, place)?;
        if is_for_frames(rule.action()) {
            self.framing.add(alloc, rule, place)?;
        }
        self.count = count;
        Ok(())
    }

    /// Puts the next rules into it.
    ///
    /// `NoMemory`: as for `add`.
    pub fn add_all<R: LendsRule>(&mut self, alloc: Global, rules: &[R]) -> Result<(), NoMemory>
        ensures { OnOk result (self.new ≡ fold spec.with_next self.old (map R.lent rules.now)) }
    {
        let mut left = rules;
        while let Some((one, rest)) = left.split_first() {
            self.add(alloc, one.lent())?;
            left = rest;
        }
        Ok(())
    }

    /// The index of the rules.
    ///
    /// `NoMemory`: no memory is left for it.
    pub fn finish(self, alloc: Global) -> Result<ListIndex, NoMemory>
        ensures reordered { IfOk result (spec.AreReordered self) }
        ensures listed { (rules : List Rule) → self ≡ fold spec.with_next spec.empty_draft rules
            → IfOk result (spec.IsListIndexOf rules) }
    {
        let whole = self.whole.finish(alloc)?;
        let framing = self.framing.finish(alloc)?;
        Ok(ListIndex::of_indexes(whole, framing))
    }
}
