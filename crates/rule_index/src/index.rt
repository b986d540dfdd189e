ghost use Rattle.std.specs.Prelude.{◌≡◌, Some, IfOk};
ghost use Rattle.rule_index.specs.Index as spec;
ghost use Rattle.rule_index.specs.Lists.{placed};
ghost use Rattle.rule_index.specs.Needs.{shown_by};

use crate::drafts::IndexDraft;
use crate::listed_part::ListedPart;
use crate::walk::Walk;
use dnr_base::{NoMemory, Part};
use dnr_rules::Rule;
use key_table::Table;
use std::alloc::Global;
use std::marker::Model;

/// Which rules share a key with a part of a request. A clause sees the keys of each kind with their places.
#[derive(Debug, Drop)]
pub struct Index {
    others: Table,
    hosts: Table,
    words: Table,
    initiators: Table,
}

impl Model for Index {
    ghost use Rattle.rule_index.specs.Index.{Index};

    ghost Value = { Index };

    ghost view = { λ i. record { others = i.others; hosts = i.hosts; words = i.words; initiators = i.initiators } };
}

impl Index {
    pub(crate) fn of_tables(others: Table, hosts: Table, words: Table, initiators: Table) -> Index
        ensures { result ≡ record { others = others; hosts = hosts; words = words; initiators = initiators } }
    {
        Index {
            others,
            hosts,
            words,
            initiators,
        }
    }

    /// The index of these rules, each at its place in the list, from 0.
    ///
    /// `NoMemory`: no memory is left for it, or there are more rules than a `u32` counts.
    pub fn build(alloc: Global, rules: &[Rule]) -> Result<Index, NoMemory>
        ensures { IfOk result (spec.IsIndexOf (placed rules.now)) }
    {
        let mut draft = IndexDraft::new(alloc);
        let mut place = 0u32;
        let mut left = rules;
        while let Some((rule, rest)) = left.split_first() {
            draft.add(alloc, rule, place)?;
            place = place.checked_add(1).ok_or(NoMemory)?;
            left = rest;
        }
        draft.finish(alloc)
    }

    /// The places of the rules that share a key with the part, and of no others: once for each key that is shared. It
    /// takes no memory.
    pub fn candidates<'a>(&'a self, part: &'a Part<'a>) -> Walk<'a>
        ensures { result ≡ spec.candidates self.now part.now }
    {
        self.walk(part, None)
    }

    /// Those of them that need no more than is shown: with what `shown_by` tells of the part, none that holds is left
    /// out.
    pub fn near<'a>(&'a self, part: &'a Part<'a>, shown: u128) -> Walk<'a>
        ensures { result ≡ spec.near self.now (Some shown) part.now }
    {
        self.walk(part, Some(shown))
    }

    /// The same of a part whose words are listed.
    pub fn near_listed<'a>(&'a self, own: &'a ListedPart<'a>) -> Walk<'a>
        ensures { result ≡ spec.near self.now (Some (shown_by own.now)) own.now }
    {
        self.walk_listed(own, Some(own.shown()))
    }

    /// The candidates for a part whose words are listed.
    pub fn candidates_listed<'a>(&'a self, part: &'a ListedPart<'a>) -> Walk<'a>
        ensures { result ≡ spec.candidates self.now part.now }
    {
        self.walk_listed(part, None)
    }

    fn walk_listed<'a>(&'a self, part: &'a ListedPart<'a>, shown: Option<u128>) -> Walk<'a>
        ensures { result ≡ spec.near self.now shown part.now }
    {
        Walk::listed(
            &self.others,
            &self.hosts,
            &self.words,
            &self.initiators,
            part,
            shown,
        )
    }

    fn walk<'a>(&'a self, part: &'a Part<'a>, shown: Option<u128>) -> Walk<'a>
        ensures { result ≡ spec.near self.now shown part.now }
    {
        Walk::new(
            &self.others,
            &self.hosts,
            &self.words,
            &self.initiators,
            part,
            shown,
        )
    }
}
