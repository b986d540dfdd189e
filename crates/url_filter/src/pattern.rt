ghost use Rattle.std.specs.Prelude.{◌≡◌, ◌≤◌, length, IfOk, IfErr};
ghost use Rattle.dnr_spec.specs.UrlFilter.{filter_of, fits, pattern_of};
ghost use Rattle.url_filter.specs.Refused.{IsRefused};
ghost use Rattle.url_filter.specs.Told.{Tells};

use crate::anchor::{Anchor, anchor_of};
use crate::places::{guided_walk, place, place_behind_star, place_in_domain};
use crate::sought::sought_in;
use crate::walks::Stop;
use dnr_spec::{NoMemory, PatternRefusal, Span};
use std::alloc::Global;
use std::marker::Model;

// The most bytes of a filter.
const MAX_PATTERN: usize = 8192;

/// A `urlFilter` that was read: Chrome's reference, `RuleCondition.urlFilter`.
#[derive(Debug, Drop)]
pub struct Pattern {
    text: String,
    anchor: Anchor,
    ends: bool,
    sought: Option<u16>,
}

impl Model for Pattern {
    ghost use Rattle.std.specs.Prelude.{List, ℕ, string_bytes};

    ghost Value = { List ℕ };

    ghost view = { λ p. string_bytes p.text };

    ghost use Rattle.url_filter.specs.Read.{IsRead};

    ghost invariant = { λ p. IsRead (string_bytes p.text) p.anchor p.ends p.sought };
}

impl Pattern {
    /// Reads a filter.
    ///
    /// # Errors
    ///
    /// The first of these that holds of the text:
    ///
    /// - `Empty`: it has no byte.
    /// - `TooLong`: it has more than 8,192 bytes.
    /// - `AnchorStar`: it begins with `||*`.
    /// - `NotAscii`: it has a byte past ASCII.
    ///
    /// Or `NoMemory`, where memory ran out for the copy of a text that is a filter.
    pub fn read(alloc: Global, text: &str) -> Result<Pattern, PatternRefusal>
        ensures read { IfOk result (λ pattern. pattern_of text.now ≡ Ok pattern) }
        ensures refused { IfErr result (IsRefused text.now) }
    {
        if text.is_empty() {
            return Err(PatternRefusal::Empty);
        }
        if text.len() > MAX_PATTERN {
            return Err(PatternRefusal::TooLong);
        }
        if text.as_bytes().starts_with(b"||*") {
            return Err(PatternRefusal::AnchorStar);
        }
        if !text.is_ascii() {
            return Err(PatternRefusal::NotAscii);
        }
        Pattern::compile(alloc, text).map_err(|_| PatternRefusal::NoMemory)
    }

    // The anchors of the text beside a copy of it.
    fn compile(alloc: Global, text: &str) -> Result<Pattern, NoMemory>
        ensures { IfOk result (λ pattern. pattern ≡ text.now) }
    {
        let anchor = anchor_of(text.as_bytes());
        let rest = &text.as_bytes()[anchor.width()..];
        let (body, ends) = match rest.split_last() {
            Some((b'|', body)) => (body, true),
            _ => (rest, false),
        };
        let sought = sought_in(body);
        let text = String::from_str(alloc, text)?;
        Ok(Pattern {
            text,
            anchor,
            ends,
            sought,
        })
    }

    /// The text that was read.
    pub fn text(&self) -> &str
        ensures { result.now ≡ self.now }
    {
        self.text.as_str()
    }

    /// The same filter once more.
    ///
    /// # Errors
    ///
    /// `NoMemory`, where memory ran out.
    pub fn copy(&self, alloc: Global) -> Result<Pattern, NoMemory>
        ensures { IfOk result (λ pattern. pattern ≡ self.now) }
    {
        let text = String::from_str(alloc, self.text.as_str())?;
        Ok(Pattern {
            text,
            anchor: self.anchor,
            ends: self.ends,
            sought: self.sought,
        })
    }

    // What stands between the anchors.
    fn body(&self) -> &[u8]
        ensures { result.now ≡ (filter_of self.now).body }
    {
        let bytes = self.text.as_bytes();
        let end = bytes.len() - usize::from(self.ends);
        &bytes[self.anchor.width()..end]
    }

    // Whether it fits up to the end of a text alone.
    fn ends(&self) -> bool
        ensures { result ≡ (filter_of self.now).ends }
    {
        self.ends
    }

    // Walks the filter's first piece, from where the anchor lets it begin.
    fn begun<'a>(&'a self, text: &'a [u8], host: Span, fold: bool) -> Stop<'a>
        requires ordered { host.start ≤ host.end }
        requires within { host.end ≤ length text.now }
        ensures { Tells (filter_of self.now).ends fold (fits self.now text.now host fold) result }
    {
        let (ends, body) = (self.ends(), self.body());
        match self.anchor {
            Anchor::Anywhere => place(ends, fold, body, self.sought, text),
            Anchor::Begin => guided_walk(ends, fold, body, self.sought, text),
            Anchor::Domain => place_in_domain(ends, fold, body, self.sought, text, host),
        }
    }

    /// Whether the filter fits the text of a URL, which stands there without its fragment, with its
    /// host at `host`; `fold` where the case of ASCII letters does not matter.
    ///
    /// It takes no memory. At worst it takes about as many steps as the text's length times the
    /// filter's, and for most filters no more than the text's length.
    pub fn matches(&self, text: &str, host: Span, fold: bool) -> bool
        requires ordered { host.start ≤ host.end }
        requires within { host.end ≤ length text.now }
        ensures { result ≡ fits self.now text.now host fold }
    {
        match self.begun(text.as_bytes(), host, fold) {
            Stop::Fits => true,
            Stop::Fails => false,
            Stop::Star(pattern, rest) => place_behind_star(self.ends(), fold, pattern, rest),
        }
    }
}
