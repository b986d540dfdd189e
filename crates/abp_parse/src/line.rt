//! The kind of a line.
ghost use Rattle.std.specs.Prelude.{◌≡◌, IfOk, IsAscii, IsTrue};
ghost use Rattle.std.specs.Char.{is_ascii};
ghost use Rattle.std.specs.List.{list_all, list_any};
ghost use Rattle.list_spec.specs.LineKind as lines;
ghost use Rattle.abp_parse.specs.Seen.{line_seen};

use crate::filter::read_filter;
use crate::hiding::hides;
use crate::text::trimmed;
use dnr_base::{Items, KindSet, NoMemory, Text};
use list_spec::{DomainEntry, Reason};
use std::alloc::Global;
use url_filter::Pattern;

// The most bytes of a line.
const MAX_LINE: usize = 65536;

/// Which URLs a filter matches.
#[derive(Debug, Drop)]
pub enum FilterPattern {
    /// All.
    All,
    /// Those that this pattern matches.
    Plain(Pattern),
    /// Those in which this regular expression finds a match. It stands here without the slashes round it.
    /// Whether it is one is not known yet.
    Regex(Text),
}

/// What a filter asks for: Adblock Plus, "How to write filters".
#[derive(Debug, Drop)]
pub struct FilterLine {
    /// Whether it is an exception: it lets through what other filters block.
    pub exception: bool,
    /// Which URLs it matches.
    pub pattern: FilterPattern,
    /// Whether the case of letters matters in URLs.
    pub match_case: bool,
    /// Whether it is for third-party requests alone, or for first-party requests alone.
    pub third_party: Option<bool>,
    /// The domains of the initiator that its option `domain=` names, in their order.
    pub domains: Items<DomainEntry>,
    /// The types of requests that it is for.
    pub kinds: KindSet,
    /// Whether it is an exception for all that a page loads.
    pub document: bool,
}

/// The kind of a line of a filter list.
#[derive(Debug, Drop)]
pub enum Line {
    /// Nothing but spaces, tabs and CR.
    Blank,
    /// It begins with `!`.
    Comment,
    /// The list's first line, as `[Adblock Plus 2.0]`.
    Header,
    /// A filter.
    Filter(FilterLine),
    /// A line that gives nothing, with the first reason.
    Unsupported(Reason),
}

// Whether it is the first line of a list.
fn is_header(text: &[u8]) -> bool
    ensures { result ≡ lines.is_header text.now }
{
    text.starts_with(b"[Adblock") && text.ends_with(b"]")
}

// Whether all of the text is ASCII.
fn is_ascii(text: &[u8]) -> bool
    ensures value { result ≡ list_all is_ascii text.now }
    ensures ascii { IsTrue result → IsAscii text.now }
{
    text.is_ascii()
}

// Whether the text has white space or a control character.
fn has_space(text: &[u8]) -> bool
    ensures { result ≡ list_any lines.is_space text.now }
{
    text.iter().any(|byte| *byte <= b' ' || *byte == 127)
}

/// The kind of a line, which stands without its LF: Adblock Plus, "How to write filters". A line that is no
/// filter takes no memory, but for the name of an option.
///
/// `NoMemory`: no memory is left for what the line says.
pub fn parse_line(alloc: Global, bytes: &[u8]) -> Result<Line, NoMemory>
    ensures { IfOk result (λ line. line_seen line ≡ lines.line_of bytes.now) }
{
    if bytes.len() > MAX_LINE {
        return Ok(Line::Unsupported(Reason::LineTooLong));
    }
    let text = trimmed(bytes);
    if text.is_empty() {
        Ok(Line::Blank)
    } else if text.starts_with(b"!") {
        Ok(Line::Comment)
    } else if is_header(text) {
        Ok(Line::Header)
    } else if hides(text) {
        Ok(Line::Unsupported(Reason::ElementHiding))
    } else if !is_ascii(text) {
        Ok(Line::Unsupported(Reason::NotAscii))
    } else if has_space(text) {
        Ok(Line::Unsupported(Reason::Space))
    } else {
        read_filter(alloc, text)
    }
}
