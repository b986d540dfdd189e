ghost use Rattle.std.specs.Prelude.{◌≡◌, ◌++◌, IfOk, OnOk};
ghost use Rattle.rule_index.specs.Index.{empty_index, with_rule, pairs_for, IsReordered};

use crate::filter_words::words_in;
use crate::index::Index;
use crate::needs::needs_with;
use dnr_base::{NoMemory, Text};
use dnr_rules::Rule;
use key_table::Draft;
use std::alloc::Global;
use std::collections::BTreeSet;
use std::marker::Model;

/// Rules that become an index. A clause sees the index, its keys in the order of the rules.
#[derive(Debug, Drop)]
pub struct IndexDraft {
    others: Draft,
    hosts: Draft,
    words: Draft,
    initiators: Draft,
}

impl Model for IndexDraft {
    ghost use Rattle.rule_index.specs.Index.{Index};

    ghost Value = { Index };

    ghost view = { λ d. record { others = d.others; hosts = d.hosts; words = d.words; initiators = d.initiators } };
}

// Puts the place under each of the texts, once.
fn add_each(
    alloc: Global,
    draft: &mut Draft,
    texts: &[Text],
    place: u32,
    needed: u128,
) -> Result<(), NoMemory>
    ensures { OnOk result (draft.new ≡ draft.old ++ pairs_for needed texts.now place) }
{
    let mut seen = BTreeSet::new(alloc);
    let mut left = texts;
    while let Some((text, rest)) = left.split_first() {
        if !seen.contains(text.as_str()) {
            draft.add(text.as_str().as_bytes(), place, needed)?;
            seen.insert(String::from_str(alloc, text.as_str())?)?;
        }
        left = rest;
    }
    Ok(())
}

impl IndexDraft {
    /// No rules. It takes no memory.
    pub fn new(alloc: Global) -> IndexDraft
        ensures { result ≡ empty_index }
    {
        IndexDraft {
            others: Draft::new(alloc),
            hosts: Draft::new(alloc),
            words: Draft::new(alloc),
            initiators: Draft::new(alloc),
        }
    }

    /// Puts a rule into it, which is then found at this place.
    ///
    /// `NoMemory`: no memory is left for its keys. What is in the draft then is not told.
    pub fn add(&mut self, alloc: Global, rule: &Rule, place: u32) -> Result<(), NoMemory>
        ensures { OnOk result (self.new ≡ with_rule self.old rule.now place) }
    {
        let condition = rule.condition();
        let words = words_in(condition);
        let needed = needs_with(words.bits, condition);
        if let Some(domains) = condition.hosts() {
            return add_each(alloc, &mut self.hosts, domains.entries(), place, needed);
        }
        if let Some(token) = words.token {
            let token = token.to_ascii_lowercase(alloc)?;
            self.words.add(&token, place, needed)?;
            return Ok(());
        }
        match condition.initiators() {
            Some(domains) => add_each(
                alloc,
                &mut self.initiators,
                domains.entries(),
                place,
                needed,
            ),
            None => Ok(self.others.add(&[], place, needed)?),
        }
    }

    /// The index of the rules.
    ///
    /// `NoMemory`: no memory is left for it.
    pub fn finish(self, alloc: Global) -> Result<Index, NoMemory>
        ensures { IfOk result (IsReordered self) }
    {
        let others = self.others.finish(alloc)?;
        let hosts = self.hosts.finish(alloc)?;
        let words = self.words.finish(alloc)?;
        let initiators = self.initiators.finish(alloc)?;
        Ok(Index::of_tables(others, hosts, words, initiators))
    }
}
