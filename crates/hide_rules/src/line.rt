//! What a line says of elements.
ghost use Rattle.std.specs.Prelude.{◌≡◌, IfOk, drop};
ghost use Rattle.list_spec.specs.LineKind as lines;
ghost use Rattle.hide_spec.specs.HidingLine as spec;
ghost use Rattle.hide_rules.specs.Seen.{line_seen};

use crate::entries::read_entries;
use crate::separator::separator_place;
use crate::text::selector_of;
use abp_parse::{has_conflict, trimmed};
use dnr_base::{NoMemory, Text};
use hide_spec::HideReason;
use list_spec::DomainEntry;
use std::alloc::Global;

// The most bytes of a line.
const MAX_LINE: usize = 65536;

/// A line that hides elements of pages, or an exception that keeps them.
#[derive(Debug, Drop)]
pub struct HidingLine {
    /// Whether it is an exception.
    pub exception: bool,
    /// The domains of the pages that it speaks of, in their order; none where it speaks of all pages.
    pub domains: Vec<DomainEntry>,
    /// The selector of the elements.
    pub selector: Text,
}

/// What a line of a filter list says of elements.
#[derive(Debug, Drop)]
pub enum Line {
    /// Nothing.
    Other,
    /// It hides them, or keeps them.
    Hiding(HidingLine),
    /// It would, but can't be used.
    Unsupported(HideReason),
}

// Whether it is the first line of a list.
fn is_header(text: &[u8]) -> bool
    ensures { result ≡ lines.is_header text.now }
{
    text.starts_with(b"[Adblock") && text.ends_with(b"]")
}

/// What a line says of elements, which stands without its LF: Adblock Plus, "How to write filters", "Element
/// hiding".
///
/// `NoMemory`: no memory is left for what the line says.
pub fn read_line(alloc: Global, bytes: &[u8]) -> Result<Line, NoMemory>
    ensures { IfOk result (λ line. line_seen line ≡ spec.hide_line_of bytes.now) }
{
    if bytes.len() > MAX_LINE {
        return Ok(Line::Unsupported(HideReason::LineTooLong));
    }
    let text = trimmed(bytes);
    if text.is_empty() || text.starts_with(b"!") || is_header(text) {
        return Ok(Line::Other);
    }
    read_text(alloc, text)
}

// A line that is neither blank nor a comment nor a header.
fn read_text(alloc: Global, text: &[u8]) -> Result<Line, NoMemory>
    ensures { IfOk result (λ line. line_seen line ≡ spec.line_parted_at text.now (spec.separator_place text.now)) }
{
    match separator_place(text) {
        Some(place) => read_parted(alloc, &text[..place], &text[place..]),
        None => Ok(Line::Other),
    }
}

// A line with these domains, and what stands from the separator on.
fn read_parted(alloc: Global, before: &[u8], here: &[u8]) -> Result<Line, NoMemory>
    ensures { IfOk result (λ line. line_seen line ≡ spec.line_parted before.now here.now) }
{
    if here.starts_with(b"##") {
        read_hiding(alloc, false, before, &here[2..])
    } else if here.starts_with(b"#@#") {
        read_hiding(alloc, true, before, &here[3..])
    } else {
        Ok(Line::Unsupported(HideReason::HideSyntax))
    }
}

// A line whose separator is `##`, or `#@#` for an exception, with what stands before it and behind it.
fn read_hiding(
    alloc: Global,
    exception: bool,
    before: &[u8],
    behind: &[u8],
) -> Result<Line, NoMemory>
    ensures { IfOk result (λ line. line_seen line ≡ spec.hiding_unless_fault
        (spec.hiding_line exception before.now behind.now)) }
{
    let Ok(selector) = std::str::from_utf8(selector_of(behind)) else {
        return Ok(Line::Unsupported(HideReason::NotUtf8));
    };
    let Some(domains) = read_entries(alloc, before)? else {
        return Ok(Line::Unsupported(HideReason::BadDomain));
    };
    if selector.is_empty() {
        return Ok(Line::Unsupported(HideReason::EmptySelector));
    }
    if has_conflict(alloc, &domains)? {
        return Ok(Line::Unsupported(HideReason::BothDomains));
    }
    let selector = Text::build(String::from_str(alloc, selector)?);
    Ok(Line::Hiding(HidingLine {
        exception,
        domains,
        selector,
    }))
}
