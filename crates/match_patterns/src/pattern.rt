ghost use Rattle.std.specs.Prelude.{◌≡◌, bytes_eq, IfOk};
ghost use Rattle.dnr_spec.specs.MatchPatterns as spec;
ghost use Rattle.match_patterns.specs.Parts.{parts_seen};

use crate::hosts::covers_host;
use crate::parts::{Cuts, Parts, cuts_of, has_parts, parts_at, parts_fit};
use dnr_base::{Copied, NoMemory, View};
use std::alloc::Global;
use std::marker::Model;

/// A match pattern, by which a manifest names URLs: Chrome's reference, "Match patterns" and
/// `host_permissions`. A clause sees it as its text. A text of another form fits nothing.
#[derive(Debug, Drop)]
pub struct MatchPattern {
    text: String,
    cuts: Cuts,
    has_parts: bool,
}

impl Model for MatchPattern {
    ghost use Rattle.std.specs.Prelude.{◌≡◌, List, ℕ, string_bytes};
    ghost use Rattle.dnr_spec.specs.MatchPatterns as spec;
    ghost use Rattle.match_patterns.specs.Parts.{AreCuts};

    ghost Value = { List ℕ };

    ghost view = { λ p. string_bytes p.text };

    ghost invariant = { λ p. AreCuts (string_bytes p.text) p.cuts
        × (p.has_parts ≡ spec.has_parts (string_bytes p.text)) };
}

impl MatchPattern {
    /// Reads a pattern, which any text is.
    ///
    /// `NoMemory`: no memory is left for the text.
    pub fn read(alloc: Global, text: &str) -> Result<MatchPattern, NoMemory>
        ensures { IfOk result (λ pattern. pattern ≡ text.now) }
    {
        let cuts = cuts_of(text.as_bytes());
        let has_parts = has_parts(text.as_bytes(), cuts);
        let text = String::from_str(alloc, text)?;
        Ok(MatchPattern {
            text,
            cuts,
            has_parts,
        })
    }

    /// The text that was read.
    pub fn text(&self) -> &str
        ensures { result.now ≡ self.now }
    {
        self.text.as_str()
    }

    fn is_all_urls(&self) -> bool
        ensures { result ≡ bytes_eq self.now spec.all_urls }
    {
        self.text.as_str() == "<all_urls>"
    }

    // What stands in its parts, if it has the form of a pattern with parts.
    fn parts(&self) -> Parts<'_>
        ensures { parts_seen result ≡ spec.cut_parts self.now }
    {
        parts_at(self.text.as_bytes(), self.cuts)
    }

    /// Whether the pattern fits the URL. `<all_urls>` fits every URL, and `scheme://host/path` such a URL,
    /// without its fragment: a scheme `*` is `http` or `https`, a host `*` is any, a `*.` before a domain is
    /// the domain and its subdomains, and a `*` in the path is any bytes. It takes no memory.
    #[tactic(auto, unfolding(dnr_spec::specs::MatchPatterns::match_fits))]
    pub fn fits(&self, view: &View) -> bool
        ensures { result ≡ spec.match_fits self.now view.now }
    {
        self.is_all_urls() || (self.has_parts && parts_fit(self.parts(), view))
    }

    /// Whether the pattern has a host that covers this one. It takes no memory.
    #[tactic(auto, unfolding(dnr_spec::specs::MatchPatterns::match_covers))]
    pub fn covers(&self, host: &str) -> bool
        ensures { result ≡ spec.match_covers self.now host.now }
    {
        self.is_all_urls() || (self.has_parts && covers_host(self.parts().host, host))
    }

    /// An equal pattern.
    ///
    /// `NoMemory`: no memory is left for its text.
    pub fn copy(&self, alloc: Global) -> Result<MatchPattern, NoMemory>
        ensures { IfOk result (λ copy. copy ≡ self.now) }
    {
        let text = String::from_str(alloc, self.text.as_str())?;
        Ok(MatchPattern {
            text,
            cuts: self.cuts,
            has_parts: self.has_parts,
        })
    }
}

impl Copied for MatchPattern {
    fn copied(&self, alloc: Global) -> Result<MatchPattern, NoMemory> {
        self.copy(alloc)
    }
}
