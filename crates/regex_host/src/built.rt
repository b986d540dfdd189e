ghost use Rattle.std.specs.Prelude.{◌≡◌, true, Some, None, IfOk, IsSome, IsErrOf, IsTrue, if◌then◌else◌};
ghost use Rattle.dnr_spec.specs.Patterns.{pattern_in, found, ArePlacesIn};
ghost use Rattle.regex_host.specs.Answers.{KeepsPlaces};

use crate::automaton::Automaton;
use crate::groups::{BuildRefusal, places};
use dnr_base::Span;
use regex::{Error, Regex, RegexBuilder};
use std::alloc::{AllocError, Global};
use std::marker::Model;

/// A pattern that was built. A clause sees it as what it was built from.
#[derive(Drop)]
pub struct Built {
    regex: Regex,
    fold: bool,
    // It is made for the first text, if it can be made.
    automaton: Option<Automaton>,
    tried: bool,
}

impl Model for Built {
    ghost use Rattle.std.specs.Prelude.{◌≡◌, IfSome};
    ghost use Rattle.regex.specs.Strings.{regex_source, regex_config, IsReadFromSource};
    ghost use Rattle.dnr_spec.specs.Patterns.{options};
    ghost use Rattle.regex_host.specs.Automaton.{IsAutomatonOf};
    ghost use Rattle.regex_host.specs.Built.{Origin};

    ghost Value = { Origin };

    ghost view = { λ b. record { pattern = regex_source b.regex; fold = b.fold } };

    ghost invariant = { λ b. (regex_config b.regex ≡ options b.fold) × ∥ IsReadFromSource b.regex ∥₁
        × IfSome b.automaton (λ automaton. IsAutomatonOf automaton (regex_source b.regex) b.fold) };
}

impl Built {
    /// Builds a pattern; `fold` where the case of letters does not matter.
    pub fn build(alloc: Global, pattern: &str, fold: bool) -> Result<Built, BuildRefusal>
        ensures of { IfOk result (λ built. built ≡ record { pattern = pattern.now; fold = fold }) }
        ensures no_pattern { IsErrOf result BuildRefusal.NoPattern → pattern_in pattern.now fold ≡ None }
        ensures too_big { IsErrOf result BuildRefusal.TooBig → IsSome (pattern_in pattern.now fold) }
    {
        match RegexBuilder::new(pattern)
            .case_insensitive(fold)
            .build(alloc)
        {
            Ok(regex) => Ok(Built {
                regex,
                fold,
                automaton: None,
                tried: false,
            }),
            Err(Error::Syntax(_)) => Err(BuildRefusal::NoPattern),
            Err(Error::CompiledTooBig) => Err(BuildRefusal::TooBig),
            Err(Error::Internal) => unreachable!(),
            Err(Error::OutOfMemory) => Err(BuildRefusal::NoMemory),
        }
    }

    /// Whether it was built from this pattern with this `fold`.
    pub fn is_of(&self, pattern: &str, fold: bool) -> bool
        ensures { IsTrue result → self.now ≡ record { pattern = pattern.now; fold = fold } }
    {
        self.regex.as_str() == pattern && self.fold == fold
    }

    /// Whether it matches somewhere in a text, and where groups 0 to 9 of its first match stand.
    pub fn find(
        &mut self,
        alloc: Global,
        text: &str,
        spans: &mut [Option<Span>; 10],
    ) -> Result<bool, AllocError>
        ensures found { IfOk result (λ is_found. found self.old.pattern self.old.fold text.now ≡ (if is_found then Some spans.new else None)) }
        ensures within { IfOk result (λ is_found. is_found ≡ true → ArePlacesIn text.now spans.new) }
        ensures kept { KeepsPlaces result spans.old spans.new }
        ensures same { self.new ≡ self.old }
    {
        if self.misses(alloc, text) {
            return Ok(false);
        }
        self.search(alloc, text, spans)
    }

    // The same, by a matcher that is made for this text.
    fn search(
        &self,
        alloc: Global,
        text: &str,
        spans: &mut [Option<Span>; 10],
    ) -> Result<bool, AllocError>
        ensures found { IfOk result (λ is_found. found self.now.pattern self.now.fold text.now ≡ (if is_found then Some spans.new else None)) }
        ensures within { IfOk result (λ is_found. is_found ≡ true → ArePlacesIn text.now spans.new) }
        ensures kept { KeepsPlaces result spans.old spans.new }
    {
        let mut matcher = self.regex.matcher(alloc)?;
        let mut locations = self.regex.capture_locations(alloc)?;
        if matcher.captures_read(&mut locations, text).is_none() {
            return Ok(false);
        }
        *spans = places(&locations);
        Ok(true)
    }

    // Whether the automaton tells that there is no match in the text. A matcher would tell it, too, but takes memory anew for
    // each text.
    fn misses(&mut self, alloc: Global, text: &str) -> bool
        ensures none { IsTrue result → found self.old.pattern self.old.fold text.now ≡ None }
        ensures same { self.new ≡ self.old }
    {
        if !self.tried {
            self.tried = true;
            self.automaton = Automaton::of(alloc, self.regex.as_str(), self.fold);
        }
        match &mut self.automaton {
            Some(automaton) => automaton.misses(text),
            None => false,
        }
    }
}
