ghost use Rattle.std.specs.Prelude.{◌≡◌, map, Some, IfOk};
ghost use Rattle.rule_spec.specs.Rule as rule;
ghost use Rattle.rule_index.specs.Index.{candidates, near};
ghost use Rattle.rule_index.specs.Lists as spec;
ghost use Rattle.rule_index.specs.Needs.{shown_by};

use crate::index::Index;
use crate::list_draft::ListDraft;
use crate::listed_part::ListedPart;
use crate::walk::Walk;
use dnr_base::{NoMemory, Part};
use dnr_rules::Rule;
use std::alloc::Global;
use std::marker::Model;

/// What lends a rule: the rule itself, or a handle on one.
pub trait LendsRule {
    ghost lent: { Self → rule.Rule };

    /// The rule.
    fn lent(&self) -> &Rule
        ensures { result.now ≡ lent self.now };
}

impl LendsRule for Rule {
    ghost lent = { λ own. own };

    fn lent(&self) -> &Rule {
        self
    }
}

/// Which rules of a list share a key with a part of a request: of all its rules and, for a part that is a frame, of
/// those that reach a request through its frames. A clause sees the two indexes.
#[derive(Debug, Drop)]
pub struct ListIndex {
    whole: Index,
    framing: Index,
}

impl Model for ListIndex {
    ghost use Rattle.rule_index.specs.Lists as spec;
    ghost use Rattle.rule_index.specs.Needs.{shown_by};

    ghost Value = { spec.ListIndex };

    ghost view = { λ i. record { whole = i.whole; framing = i.framing } };
}

impl ListIndex {
    pub(crate) fn of_indexes(whole: Index, framing: Index) -> ListIndex
        ensures { result ≡ record { whole = whole; framing = framing } }
    {
        ListIndex { whole, framing }
    }

    /// The index of these rules, each at its place in the list, from 0.
    ///
    /// `NoMemory`: no memory is left for it, or there are more rules than a `u32` counts.
    pub fn build<R: LendsRule>(alloc: Global, rules: &[R]) -> Result<ListIndex, NoMemory>
        ensures { IfOk result (spec.IsListIndexOf (map R.lent rules.now)) }
    {
        let mut draft = ListDraft::new(alloc);
        draft.add_all(alloc, rules)?;
        draft.finish(alloc)
    }

    /// The places of the rules that share a key with the part, and of no others: once for each key that is shared. It
    /// takes no memory.
    pub fn candidates<'a>(&'a self, part: &'a Part<'a>) -> Walk<'a>
        ensures { result ≡ candidates self.now.whole part.now }
    {
        self.whole.candidates(part)
    }

    /// Those of them that need no more than is shown: with what `shown_by` tells of the part, none that holds is left
    /// out.
    pub fn near<'a>(&'a self, part: &'a Part<'a>, shown: u128) -> Walk<'a>
        ensures { result ≡ near self.now.whole (Some shown) part.now }
    {
        self.whole.near(part, shown)
    }

    /// The same of a part whose words are listed.
    pub fn near_listed<'a>(&'a self, own: &'a ListedPart<'a>) -> Walk<'a>
        ensures { result ≡ near self.now.whole (Some (shown_by own.now)) own.now }
    {
        self.whole.near_listed(own)
    }

    /// The places of the candidates that reach a request through its frames.
    pub fn framing_candidates<'a>(&'a self, frame: &'a Part<'a>) -> Walk<'a>
        ensures { result ≡ candidates self.now.framing frame.now }
    {
        self.framing.candidates(frame)
    }

    /// Those of them that need no more than is shown.
    pub fn framing_near<'a>(&'a self, frame: &'a Part<'a>, shown: u128) -> Walk<'a>
        ensures { result ≡ near self.now.framing (Some shown) frame.now }
    {
        self.framing.near(frame, shown)
    }

    /// What `framing_candidates` gives, of a frame whose words are listed.
    pub fn framing_listed<'a>(&'a self, frame: &'a ListedPart<'a>) -> Walk<'a>
        ensures { result ≡ candidates self.now.framing frame.now }
    {
        self.framing.candidates_listed(frame)
    }
}
