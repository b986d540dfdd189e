ghost use Rattle.std.specs.Prelude.{◌≡◌, IfOk};
ghost use Rattle.dnr_base.specs.View.{text_of};
ghost use Rattle.index_spec.specs.Words.{words_of};
ghost use Rattle.rule_index.specs.Needs as needs;

use crate::needs::shown_with;
use dnr_base::{NoMemory, Part};
use key_walk::ListedWords;
use std::alloc::Global;
use std::marker::Model;

/// A part of a request that several indexes are asked about. Its words are listed, and hashed once. A clause sees the part.
#[derive(Debug, Drop)]
pub struct ListedPart<'a> {
    part: Part<'a>,
    words: ListedWords<'a>,
    shown: u128,
}

impl<'a> Model for ListedPart<'a> {
    ghost use Rattle.std.specs.Prelude.{◌≡◌};
    ghost use Rattle.dnr_base.specs.Request.{Part};
    ghost use Rattle.dnr_base.specs.View.{text_of};
    ghost use Rattle.index_spec.specs.Words.{words_of};
    ghost use Rattle.rule_index.specs.Needs.{shown_by};

    ghost Value = { Part };

    ghost view = { λ p. p.part };

    ghost invariant = { λ p. (p.words ≡ words_of (text_of p.part.view))
        × (p.shown ≡ shown_by p.part) };
}

impl<'a> ListedPart<'a> {
    /// Lists the words of a part.
    ///
    /// `NoMemory`: no memory is left for them.
    pub fn new(alloc: Global, part: Part<'a>) -> Result<ListedPart<'a>, NoMemory>
        ensures { IfOk result (λ listed. listed ≡ part.entry) }
    {
        let words = ListedWords::of_text(alloc, part.view.text().as_bytes())?;
        let shown = shown_with(&part, words.words());
        Ok(ListedPart { part, words, shown })
    }

    /// The part.
    pub fn part(&self) -> &Part<'a>
        ensures { result.now ≡ self.now }
    {
        &self.part
    }

    /// Its words in order.
    pub(crate) fn words(&self) -> &ListedWords<'a>
        ensures { result.now ≡ words_of (text_of self.now.view) }
    {
        &self.words
    }

    /// What it shows of what rules need, as bits.
    pub fn shown(&self) -> u128
        ensures { result ≡ needs.shown_by self.now }
    {
        self.shown
    }
}
