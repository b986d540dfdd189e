//! What a pattern needs, looked for in a text before the pattern itself.
ghost use Rattle.std.specs.Prelude.{◌≡◌, ℕ, ⊤, None, false, IfOk, IfSome, IsTrue};
ghost use Rattle.std.specs.Bool.{MatchBool};
ghost use Rattle.dnr_spec.specs.Patterns.{found};
ghost use Rattle.regex_extract.specs.Needles.{needles_of};
ghost use Rattle.regex_host.specs.Prefilter.{AreNeeded, LacksAll};
ghost use Rattle.regex_literal.specs.Find.{OccursAt};

use crate::groups::tree_of;
use memchr::memmem::Finder;
use regex_extract::{Needles, required};
use std::alloc::{AllocError, Global};
use std::marker::Model;

/// Literals of which every text that a pattern matches has one, if the pattern has such. They are found in a fraction of
/// the time of a search. A clause sees the prefilter as the pattern that it is of.
#[derive(Drop)]
pub struct Prefilter {
    pattern: String,
    fold: bool,
    // Made once, since a search that is made anew for each text takes longer than it searches.
    finders: Option<Vec<Finder<'static>>>,
}

impl Model for Prefilter {
    ghost use Rattle.std.specs.Prelude.{IfSome, string_bytes};
    ghost use Rattle.regex_host.specs.Built.{Origin};
    ghost use Rattle.regex_host.specs.Prefilter.{AreNeeded};

    ghost Value = { Origin };

    ghost view = { λ p. record { pattern = string_bytes p.pattern; fold = p.fold } };

    ghost invariant = { λ p. IfSome p.finders (λ finders. AreNeeded finders.items (string_bytes p.pattern) p.fold) };
}

impl Prefilter {
    /// That of a pattern; `fold` where the case of letters does not matter.
    pub fn of(alloc: Global, pattern: &str, fold: bool) -> Result<Prefilter, AllocError>
        ensures { IfOk result (λ filter. filter ≡ record { pattern = pattern.now; fold = fold }) }
    {
        let finders = finders_in(alloc, pattern, fold)?;
        Ok(Prefilter {
            pattern: String::from_str(alloc, pattern)?,
            fold,
            finders,
        })
    }

    /// Whether it is of this pattern with this `fold`.
    pub fn is_of(&self, pattern: &str, fold: bool) -> bool
        ensures { IsTrue result → self.now ≡ record { pattern = pattern.now; fold = fold } }
    {
        self.pattern.as_str() == pattern && self.fold == fold
    }

    /// Whether the text lacks what the pattern needs, so that the pattern matches nowhere in it.
    pub fn refuses(&self, text: &str) -> bool
        ensures { IsTrue result → found self.now.pattern self.now.fold text.now ≡ None }
    {
        match &self.finders {
            Some(finders) => lacks_all(text, finders),
            None => false,
        }
    }
}

// What every match of the pattern has a part of. A text that is no pattern has none.
fn needles_in(alloc: Global, pattern: &str, fold: bool) -> Result<Option<Needles>, AllocError>
    ensures { IfOk result (λ found. IfSome found (λ needles. AreNeeded (needles_of needles) pattern.now fold)) }
{
    let Some(parsed) = tree_of(alloc, pattern, fold) else {
        return Ok(None);
    };
    required(alloc, &parsed.hir)
}

// A search for each of the needles.
fn finders_of(alloc: Global, needles: &Needles) -> Result<Vec<Finder<'static>>, AllocError>
    ensures { IfOk result (λ finders. finders.items ≡ needles_of needles.now) }
{
    let mut finders = Vec::with_capacity(alloc, needles.len())?;
    let mut left = needles.as_slice();
    while let Some((needle, rest)) = left.split_first() {
        finders.push(Finder::new(needle).into_owned(alloc)?)?;
        left = rest;
    }
    Ok(finders)
}

// The same of the needles of a pattern, if it has such.
fn finders_in(
    alloc: Global,
    pattern: &str,
    fold: bool,
) -> Result<Option<Vec<Finder<'static>>>, AllocError>
    ensures { IfOk result (λ found. IfSome found (λ finders. AreNeeded finders.items pattern.now fold)) }
{
    match needles_in(alloc, pattern, fold)? {
        Some(needles) => Ok(Some(finders_of(alloc, &needles)?)),
        None => Ok(None),
    }
}

// Whether nothing that is searched for stands in the text.
fn lacks_all(text: &str, finders: &[Finder<'static>]) -> bool
    ensures { IsTrue result → LacksAll finders.now text.now }
{
    for finder in finders {
        if !lacks(text.as_bytes(), finder) {
            return false;
        }
    }
    true
}

// Whether what is searched for stands nowhere in the text.
fn lacks(text: &[u8], finder: &Finder<'_>) -> bool
    ensures { MatchBool result ((k : ℕ) → ¬ OccursAt text.now finder.now k) ⊤ }
{
    match finder.find(text) {
        Some(_) => false,
        None => true,
    }
}
