ghost use Rattle.std.specs.Prelude.{◌≡◌, ◌<◌, ℕ, List, IsAscii, IsSome, IfOk, IfErr, is_some};
ghost use Rattle.std.specs.Prelude.{option_map, length, slice_index, Some, Ok};
ghost use Rattle.dnr_spec.specs.Patterns.{ArePlacesIn};
ghost use Rattle.dnr_spec.specs.Substitution as spec;
ghost use Rattle.dnr_spec.specs.Substitution.{Piece, pieces_of, substitution_of, expansion};
ghost use Rattle.regex_host.specs.Substitution.{IsRefused};

use dnr_base::{Copied, NoMemory, Span, Text};
use dnr_spec::SubstitutionRefusal;
use std::alloc::Global;
use std::marker::Model;

// The most bytes of a substitution.
const MAX_SUBSTITUTION: usize = 2048;

/// A substitution that was read: Chrome's reference, `Redirect.regexSubstitution`. A clause sees it as its
/// pieces.
#[derive(Debug, Drop)]
pub struct Substitution {
    text: Text,
}

impl Model for Substitution {
    ghost use Rattle.std.specs.Prelude.{List, IsSome};
    ghost use Rattle.dnr_spec.specs.Substitution.{Piece, pieces_of};
    ghost use Rattle.regex_host.specs.Substitution.{pieces_in};

    ghost Value = { List Piece };

    ghost view = { λ s. pieces_in s.text };

    ghost invariant = { λ s. IsSome (pieces_of 9 s.text) };
}

impl Substitution {
    /// Reads a substitution for a pattern with so many groups besides the whole match: `\1` to `\9` stand for
    /// groups, `\0` for the whole match, and `\\` for a backslash.
    ///
    /// # Errors
    ///
    /// - `BadSubstitution`: the text has more than 2,048 bytes, or another backslash, or the number of a
    ///   group that the pattern does not have.
    /// - `NoMemory`: the text is a substitution, and memory ran out.
    pub fn read(alloc: Global, text: &str, groups: u32) -> Result<Substitution, SubstitutionRefusal>
        ensures read { IfOk result (λ pieces. substitution_of text.now groups ≡ Ok pieces) }
        ensures refused { IfErr result (IsRefused text.now groups) }
    {
        if text.len() > MAX_SUBSTITUTION {
            return Err(SubstitutionRefusal::BadSubstitution);
        }
        if !is_substitution(text.as_bytes(), groups) {
            return Err(SubstitutionRefusal::BadSubstitution);
        }
        match String::from_str(alloc, text) {
            Ok(text) => Ok(Substitution {
                text: Text::build(text),
            }),
            Err(_) => Err(SubstitutionRefusal::NoMemory),
        }
    }

    /// What is a substitution for a pattern with some count of groups is one for nine groups too, and of the
    /// same pieces. This is a law of all texts, and the function does nothing.
    pub fn stays_with_more_groups()
        ensures { (text : List ℕ) (groups : ℕ) (pieces : List Piece) → substitution_of text groups ≡ Ok pieces → substitution_of text 9 ≡ Ok pieces }
    {}

    /// The same substitution once more.
    ///
    /// # Errors
    ///
    /// `NoMemory`, where memory ran out.
    pub fn copy(&self, alloc: Global) -> Result<Substitution, NoMemory>
        ensures { IfOk result (λ copy. copy ≡ self.now) }
    {
        Ok(Substitution {
            text: self.text.copy(alloc)?,
        })
    }

    /// What it stands for at a match in an ASCII text, whose groups took these places. A group that took no
    /// part stands for nothing.
    ///
    /// # Errors
    ///
    /// `NoMemory`, where memory ran out.
    pub fn expand(
        &self,
        alloc: Global,
        text: &str,
        spans: &[Option<Span>; 10],
    ) -> Result<Text, NoMemory>
        requires ascii { IsAscii text.now }
        requires places { ArePlacesIn text.now spans.now }
        ensures { IfOk result (λ expanded. expanded ≡ expansion self.now text.now spans.now) }
    {
        let mut expanded = String::new(alloc);
        let mut rest = self.text.as_str();
        while let Some((literal, behind)) = rest.split_once('\\') {
            expanded.push_str(literal)?;
            expanded.push_str(written(behind, text, spans))?;
            rest = &behind[1..];
        }
        expanded.push_str(rest)?;
        Ok(Text::build(expanded))
    }
}

// Whether each backslash stands before another one, or before the digit of a group up to this number.
fn is_substitution(text: &[u8], groups: u32) -> bool
    ensures { result ≡ is_some (pieces_of groups text.now) }
{
    let mut rest = text;
    while let Some((&byte, behind)) = rest.split_first() {
        if byte != b'\\' {
            rest = behind;
            continue;
        }
        match behind.split_first() {
            Some((&escaped, later)) if is_escape(escaped, groups) => rest = later,
            _ => return false,
        }
    }
    true
}

// Whether a backslash may stand before this byte, in a substitution with groups up to this number.
fn is_escape(byte: u8, groups: u32) -> bool
    ensures { result ≡ is_some (spec.escaped groups byte) }
{
    byte == b'\\' || (byte.is_ascii_digit() && u32::from(byte - b'0') <= groups)
}

// What stands for the backslash before this text and for its first byte.
fn written<'a>(behind: &'a str, text: &'a str, spans: &[Option<Span>; 10]) -> &'a str
    requires ascii { IsAscii text.now }
    requires places { ArePlacesIn text.now spans.now }
    requires some { 0 < length behind.now }
    requires escaped { IsSome (spec.escaped 9 (slice_index behind.now 0)) }
    ensures { option_map (spec.written text.now spans.now) (spec.escaped 9 (slice_index behind.now 0)) ≡ Some result.now }
{
    let byte = behind.as_bytes()[0];
    if byte == b'\\' {
        return &behind[..1];
    }
    match spans[usize::from(byte - b'0')] {
        Some(span) => &text[span.start..span.end],
        None => "",
    }
}

impl Copied for Substitution {
    fn copied(&self, alloc: Global) -> Result<Substitution, NoMemory> {
        self.copy(alloc)
    }
}
