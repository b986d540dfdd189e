//! What the grammar of patterns says of a text, and where the groups of a match stand.
ghost use Rattle.std.specs.Prelude.{◌≡◌, Some, None, map, option_map, IfOk, IfSome, IsSome, IsErrOf, string_bytes};
ghost use Rattle.dnr_spec.specs.Patterns.{groups_of, group_numbers, options, span_of};
ghost use Rattle.regex.specs.Locations.{location};
ghost use Rattle.regex.specs.Patterns.{Reads};

use dnr_base::Span;
use regex::CaptureLocations;
use regex_syntax::{Config, ErrorKind, Parsed, parse};
use std::alloc::Global;

/// Why a pattern is not built.
#[derive(Clone, Copy, Debug, PartialEq, Eq)]
pub enum BuildRefusal {
    /// The grammar reads no pattern in the text.
    NoPattern,
    /// The pattern is too big for `regex`.
    TooBig,
    /// Memory ran out.
    NoMemory,
}

/// What the grammar reads in a text; `fold` where the case of letters does not matter. There is none where memory runs out,
/// or where the text is no pattern.
pub fn tree_of(alloc: Global, pattern: &str, fold: bool) -> Option<Parsed>
    ensures { IfSome result (λ p. Reads (options fold) pattern.now p.hir (map (option_map string_bytes) p.names.items)) }
{
    let mut config = Config::default();
    config.flags.case_insensitive = fold;
    parse(alloc, pattern, &config).ok()
}

/// The count of groups of a pattern besides the whole match.
pub fn count_groups(alloc: Global, pattern: &str) -> Result<u32, BuildRefusal>
    ensures groups { IfOk result (λ count. groups_of pattern.now ≡ Some count) }
    ensures no_pattern { IsErrOf result BuildRefusal.NoPattern → groups_of pattern.now ≡ None }
    ensures too_big { IsErrOf result BuildRefusal.TooBig → IsSome (groups_of pattern.now) }
{
    let config = Config::default();
    let parsed = match parse(alloc, pattern, &config) {
        Ok(parsed) => parsed,
        Err(error) => match error.kind {
            ErrorKind::OutOfMemory => return Err(BuildRefusal::NoMemory),
            _ => return Err(BuildRefusal::NoPattern),
        },
    };
    match u32::try_from(parsed.names.len() - 1) {
        Ok(count) => Ok(count),
        Err(_) => Err(BuildRefusal::TooBig),
    }
}

// Where a group of a match stands.
fn place(locations: &CaptureLocations, group: usize) -> Option<Span>
    ensures { result ≡ option_map span_of (location locations.now group) }
{
    let (start, end) = locations.get(group)?;
    Some(Span { start, end })
}

/// Where groups 0 to 9 of a match stand.
pub fn places(locations: &CaptureLocations) -> [Option<Span>; 10]
    ensures { result ≡ map (λ n. option_map span_of (location locations.now n)) group_numbers }
{
    std::array::from_fn(|group| place(locations, group))
}
