//! An automaton that tells where a pattern has no match.
ghost use Rattle.std.specs.Prelude.{◌≡◌, IfSome, IsTrue};
ghost use Rattle.regex_host.specs.Automaton.{EndsNowhere, IsAutomatonOf};

use crate::groups::tree_of;
use regex_compile::compile;
use regex_dfa::{Dfa, End, Forward};
use std::alloc::Global;
use std::marker::Model;

// How many bytes its states take at most.
const BUDGET: usize = 262_144;

/// A deterministic automaton whose states are made where a text first leads to them, and kept for the texts after it. So
/// it tells in one pass over a text that a pattern has no match there. A clause sees it as what it was made of.
#[derive(Drop)]
pub struct Automaton {
    dfa: Dfa,
    forward: Forward,
}

impl Model for Automaton {
    ghost use Rattle.regex_dfa.specs.Search.{IsForwardFor};
    ghost use Rattle.regex_nfa.specs.declared.nfa.Nfa.{Nfa};

    ghost Value = { Nfa };

    ghost view = { λ a. a.dfa.nfa };

    ghost invariant = { λ a. IsForwardFor a.forward a.dfa };
}

impl Automaton {
    /// That of a pattern; `fold` where the case of letters does not matter. There is none where memory runs out, or where
    /// the text is no pattern.
    pub fn of(alloc: Global, pattern: &str, fold: bool) -> Option<Automaton>
        ensures { IfSome result (λ automaton. IsAutomatonOf automaton pattern.now fold) }
    {
        let parsed = tree_of(alloc, pattern, fold)?;
        let Ok(groups) = u32::try_from(parsed.names.len()) else {
            return None;
        };
        let Ok(nfa) = compile(alloc, &parsed.hir, groups, usize::MAX) else {
            return None;
        };
        let Ok(dfa) = Dfa::new(alloc, nfa) else {
            return None;
        };
        let Ok(forward) = Forward::with_budget(alloc, &dfa, false, BUDGET) else {
            return None;
        };
        Some(Automaton { dfa, forward })
    }

    /// Whether it tells that there is no match in the text. It may give up.
    pub fn misses(&mut self, text: &str) -> bool
        ensures none { IsTrue result → EndsNowhere self.old text.now }
        ensures same { self.new ≡ self.old }
    {
        let bytes = text.as_bytes();
        match self
            .forward
            .find_end(&self.dfa, bytes, 0, bytes.len(), false, true)
        {
            End::NoMatch => true,
            End::At(_) | End::Idle(_) | End::GaveUp => false,
        }
    }
}
