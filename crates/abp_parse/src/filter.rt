//! A line that is a filter.
ghost use Rattle.std.specs.Prelude.{◌≡◌, ◌<◌, ◌≤◌, false, nat_eq, codes, IfOk, IsAscii, length};
ghost use Rattle.std.specs.List.{starts_with};
ghost use Rattle.list_spec.specs.LineKind as lines;
ghost use Rattle.list_spec.specs.Options.{options_place};
ghost use Rattle.abp_parse.specs.Seen.{asked_seen, filter_seen, line_seen, pattern_seen};
ghost use Rattle.abp_parse.specs.Told.{line_with};

use crate::asked::Asked;
use crate::line::{FilterLine, FilterPattern, Line};
use crate::options::{Fault, read_options};
use crate::place::options_place;
use crate::text::text_of;
use dnr_base::{Items, KindSet, NoMemory};
use list_spec::Reason;
use std::alloc::Global;
use url_filter::{Pattern, PatternRefusal};

// The most bytes of a pattern.
const MAX_PATTERN: usize = 8192;

// A pattern that is neither too long nor begins with `||*`.
fn read_pattern(alloc: Global, text: &[u8]) -> Result<FilterPattern, NoMemory>
    requires ascii { IsAscii text.now }
    requires short { length text.now ≤ 8192 }
    requires anchored { starts_with nat_eq text.now (codes "||*") ≡ false }
    ensures { IfOk result (λ pattern. pattern_seen pattern ≡ lines.pattern_of text.now) }
{
    if text.is_empty() {
        Ok(FilterPattern::All)
    } else if text.len() >= 3 && text.starts_with(b"/") && text.ends_with(b"/") {
        Ok(FilterPattern::Regex(text_of(alloc, &text[1..text.len() - 1])?))
    } else {
        Ok(FilterPattern::Plain(plain_pattern(alloc, text)?))
    }
}

// The pattern of a text that is one.
fn plain_pattern(alloc: Global, text: &[u8]) -> Result<Pattern, NoMemory>
    requires ascii { IsAscii text.now }
    requires some { 0 < length text.now }
    requires short { length text.now ≤ 8192 }
    requires anchored { starts_with nat_eq text.now (codes "||*") ≡ false }
    ensures { IfOk result (λ pattern. pattern ≡ text.now) }
{
    let text = text_of(alloc, text)?;
    match Pattern::read(alloc, text.as_str()) {
        Ok(pattern) => Ok(pattern),
        Err(PatternRefusal::NoMemory) => Err(NoMemory),
        Err(PatternRefusal::Empty) => unreachable!("the text has a byte"),
        Err(PatternRefusal::TooLong) => unreachable!("the text is short"),
        Err(PatternRefusal::AnchorStar) => unreachable!("the text begins otherwise"),
        Err(PatternRefusal::NotAscii) => unreachable!("the text is ASCII"),
    }
}

// The filter of a pattern and what its options ask for.
fn filter_asked(
    alloc: Global,
    exception: bool,
    pattern: &[u8],
    asked: Asked,
) -> Result<FilterLine, NoMemory>
    requires ascii { IsAscii pattern.now }
    requires short { length pattern.now ≤ 8192 }
    requires anchored { starts_with nat_eq pattern.now (codes "||*") ≡ false }
    ensures { IfOk result (λ filter. filter_seen filter ≡ lines.filter_asked exception pattern.now (asked_seen asked)) }
{
    let pattern = read_pattern(alloc, pattern)?;
    let Asked {
        match_case,
        third_party,
        domains,
        kinds,
        document,
    } = asked;
    let domains = Items::build(domains.unwrap_or(Vec::new(alloc)));
    let kinds = kinds.unwrap_or(KindSet::all_but_main_frame());
    Ok(FilterLine {
        exception,
        pattern,
        match_case,
        third_party,
        domains,
        kinds,
        document,
    })
}

// The kind of a line whose options have no fault.
fn line_of_pattern(
    alloc: Global,
    exception: bool,
    pattern: &[u8],
    has_options: bool,
    asked: Asked,
) -> Result<Line, NoMemory>
    requires { IsAscii pattern.now }
    ensures { IfOk result (λ line. line_seen line ≡ lines.line_of_pattern exception pattern.now has_options (asked_seen asked)) }
{
    if pattern.is_empty() && !has_options {
        Ok(Line::Unsupported(Reason::EmptyPattern))
    } else if pattern.len() > MAX_PATTERN {
        Ok(Line::Unsupported(Reason::LineTooLong))
    } else if pattern.starts_with(b"||*") {
        Ok(Line::Unsupported(Reason::AnchorStar))
    } else {
        Ok(Line::Filter(filter_asked(alloc, exception, pattern, asked)?))
    }
}

// The kind of a line that has options.
fn line_of_options(
    alloc: Global,
    exception: bool,
    pattern: &[u8],
    options: &[u8],
) -> Result<Line, NoMemory>
    requires pattern { IsAscii pattern.now }
    requires options { IsAscii options.now }
    ensures { IfOk result (λ line. line_seen line ≡ line_with exception pattern.now options.now) }
{
    match read_options(alloc, exception, options) {
        Ok(asked) => line_of_pattern(alloc, exception, pattern, true, asked),
        Err(Fault::Unsupported(reason)) => Ok(Line::Unsupported(reason)),
        Err(Fault::NoMemory) => Err(NoMemory),
    }
}

// The kind of a line behind its `@@`.
fn line_cut(alloc: Global, exception: bool, text: &[u8]) -> Result<Line, NoMemory>
    requires { IsAscii text.now }
    ensures { IfOk result (λ line. line_seen line ≡ lines.line_cut exception text.now (options_place text.now)) }
{
    match options_place(text) {
        Some(place) => line_of_options(alloc, exception, &text[..place], &text[place + 1..]),
        None => line_of_pattern(alloc, exception, text, false, Asked::nothing()),
    }
}

/// The kind of a line that is no comment and has neither hiding separators nor white space.
///
/// `NoMemory`: no memory is left for what the line says.
pub fn read_filter(alloc: Global, text: &[u8]) -> Result<Line, NoMemory>
    requires { IsAscii text.now }
    ensures { IfOk result (λ line. line_seen line ≡ lines.filter_of text.now) }
{
    if text.starts_with(b"@@") {
        line_cut(alloc, true, &text[2..])
    } else {
        line_cut(alloc, false, text)
    }
}
