ghost use Rattle.std.specs.Prelude.{◌≡◌, ◌≤◌, IfSome, length};
ghost use Rattle.dnr_spec.specs.UrlFilter.{domain, fits_at, fits_from, some_end};
ghost use Rattle.url_filter.specs.Sought.{IsSought};
ghost use Rattle.url_filter.specs.Told.{IsShorter, Tells, WalkTells};

use crate::sought::{is_ruled_out, place_by_byte, sought_in};
use crate::walks::{Stop, walk};
use dnr_spec::Span;

/// Walks from the beginning of the text, if the byte at `sought` stands where it must.
pub fn guided_walk<'a>(
    ends: bool,
    fold: bool,
    pattern: &'a [u8],
    sought: Option<u16>,
    text: &'a [u8],
) -> Stop<'a>
    requires { IfSome sought (IsSought pattern.now) }
    ensures { WalkTells ends fold pattern.now text.now result }
{
    if is_ruled_out(fold, pattern, sought, text) {
        Stop::Fails
    } else {
        walk(ends, fold, pattern, text)
    }
}

// Walks from the first place of the text on where it does not fail.
fn place_anywhere<'a>(ends: bool, fold: bool, pattern: &'a [u8], text: &'a [u8]) -> Stop<'a>
    ensures told { Tells ends fold (some_end (fits_at ends fold pattern.now) text.now) result }
    ensures shorter { IsShorter pattern.now result }
{
    let mut rest = text;
    loop {
        match walk(ends, fold, pattern, rest) {
            Stop::Fails => {}
            stop => return stop,
        }
        match rest {
            [] => return Stop::Fails,
            [_, later @ ..] => rest = later,
        }
    }
}

/// Walks from the first place of the text on where it does not fail, with the byte at `sought` as
/// a guide to these places.
pub fn place<'a>(
    ends: bool,
    fold: bool,
    pattern: &'a [u8],
    sought: Option<u16>,
    text: &'a [u8],
) -> Stop<'a>
    requires { IfSome sought (IsSought pattern.now) }
    ensures told { Tells ends fold (some_end (fits_at ends fold pattern.now) text.now) result }
    ensures shorter { IsShorter pattern.now result }
{
    match sought {
        Some(offset) => place_by_byte(ends, fold, pattern, usize::from(offset), text),
        None => place_anywhere(ends, fold, pattern, text),
    }
}

/// Walks from the first place of the text on, one piece between stars after another.
pub fn place_behind_star(ends: bool, fold: bool, pattern: &[u8], text: &[u8]) -> bool
    ensures { result ≡ some_end (fits_at ends fold pattern.now) text.now }
{
    let (mut pattern, mut rest) = (pattern, text);
    loop {
        match place(ends, fold, pattern, sought_in(pattern), rest) {
            Stop::Fits => return true,
            Stop::Fails => return false,
            Stop::Star(behind, left) => {
                pattern = behind;
                rest = left;
            }
        }
    }
}

/// Walks from the host's start and, as long as that fails, from each later place of the host that follows a
/// dot of it.
pub fn place_in_domain<'a>(
    ends: bool,
    fold: bool,
    pattern: &'a [u8],
    sought: Option<u16>,
    text: &'a [u8],
    host: Span,
) -> Stop<'a>
    requires ordered { host.start ≤ host.end }
    requires within { host.end ≤ length text.now }
    requires sought { IfSome sought (IsSought pattern.now) }
    ensures { Tells ends fold (fits_from domain ends fold pattern.now text.now host) result }
{
    match guided_walk(ends, fold, pattern, sought, &text[host.start..]) {
        Stop::Fails => {}
        stop => return stop,
    }
    for place in host.start + 1..host.end {
        if text[place - 1] == b'.' {
            match guided_walk(ends, fold, pattern, sought, &text[place..]) {
                Stop::Fails => {}
                stop => return stop,
            }
        }
    }
    Stop::Fails
}
