ghost use Rattle.std.specs.Prelude.{◌≡◌, ◌<◌, ◌≤◌, ◌++◌, length, codes, string_bytes};
ghost use Rattle.std.specs.Prelude.{Ok, IfOk, IfErr};
ghost use Rattle.url.specs.Parts.{serialize};
ghost use Rattle.dnr_spec.specs.UrlView.{max_url, view_of, view_of_full};
ghost use Rattle.url_view.specs.Plain.{IsPlain, IsOrigin};
ghost use Rattle.url_view.specs.Refused.{IsRefused};

use crate::hosts::is_host;
use crate::places::{Plain, find_plain};
use dnr_base::{Scheme, Span, Text, View};
use dnr_spec::ViewRefusal;
use std::alloc::{AllocError, Global};
use url::{ParseError, Position, Url};

// The most bytes of a URL's text, and of its serialization.
const MAX_URL: usize = 65_536;

/// Reads the URL that the URL Standard (4.4, the basic URL parser) finds in `text` without a base.
///
/// Errors, in the order in which they are tested:
///
/// - `UrlTooLong`: the text is longer than 65,536 bytes.
/// - `BadUrl`: the URL Standard reads no URL in the text.
/// - `BadScheme`: the scheme is none of `Scheme`.
/// - `BadHost`: the host is absent or empty, or is neither a name of lower-case letters, digits, `-`, `.`
///   and `_` nor an IPv6 address between brackets.
/// - `UrlTooLong`: the serialization is longer than 65,536 bytes, which escapes can make of a shorter text.
/// - `NoMemory`: memory ran out while the URL of a text that is not too long was read.
pub fn parse(alloc: Global, text: &str) -> Result<View, ViewRefusal>
    ensures read { IfOk result (λ view. view_of text.now ≡ Ok view) }
    ensures refused { IfErr result (IsRefused text.now) }
{
    if text.len() > MAX_URL {
        return Err(ViewRefusal::UrlTooLong);
    }
    match find_plain(text.as_bytes()) {
        Some(plain) if plain.rooted => copied(alloc, text, plain),
        Some(origin) if text.len() < MAX_URL => with_slash(alloc, text, origin),
        _ => parsed(alloc, text),
    }
}

// The view of a text that is its URL's serialization.
fn copied(alloc: Global, text: &str, plain: Plain) -> Result<View, ViewRefusal>
    requires plain { IsPlain text.now plain.cut plain.scheme plain.host }
    requires short { length text.now ≤ max_url }
    ensures read { IfOk result (λ view. view_of text.now ≡ Ok view) }
    ensures refused { IfErr result (IsRefused text.now) }
{
    match String::from_str(alloc, text) {
        Ok(full) => Ok(View::build(Text::build(full), plain.cut, plain.scheme, plain.host)),
        Err(_) => Err(ViewRefusal::NoMemory),
    }
}

// The view of a text that ends with its host, as origins do: the standard puts `/` behind it.
fn with_slash(alloc: Global, text: &str, origin: Plain) -> Result<View, ViewRefusal>
    requires origin { IsOrigin text.now origin.cut origin.scheme origin.host }
    requires short { length text.now < max_url }
    ensures read { IfOk result (λ view. view_of text.now ≡ Ok view) }
    ensures refused { IfErr result (IsRefused text.now) }
{
    match slashed(alloc, text) {
        Ok(full) => Ok(View::build(Text::build(full), origin.cut, origin.scheme, origin.host)),
        Err(_) => Err(ViewRefusal::NoMemory),
    }
}

// The text and `/`.
fn slashed(alloc: Global, text: &str) -> Result<String, AllocError>
    requires { length text.now < max_url }
    ensures { IfOk result (λ full. string_bytes full ≡ text.now ++ codes "/") }
{
    let mut full = String::with_capacity(alloc, text.len() + 1)?;
    full.push_str(text)?;
    full.push('/')?;
    Ok(full)
}

// The view of any other text.
fn parsed(alloc: Global, text: &str) -> Result<View, ViewRefusal>
    requires { length text.now ≤ max_url }
    ensures read { IfOk result (λ view. view_of text.now ≡ Ok view) }
    ensures refused { IfErr result (IsRefused text.now) }
{
    match Url::parse(alloc, text) {
        Ok(url) => from_url(url),
        // A URL overflows past 4 GB, which a text of this length never reaches.
        Err(ParseError::OutOfMemory | ParseError::Overflow) => Err(ViewRefusal::NoMemory),
        Err(_) => Err(ViewRefusal::BadUrl),
    }
}

// The view keeps the text that the URL gives up, so nothing is copied.
fn from_url(url: Url) -> Result<View, ViewRefusal>
    ensures { result ≡ view_of_full (serialize url) }
{
    let Some(scheme) = Scheme::named(url.scheme()) else {
        return Err(ViewRefusal::BadScheme);
    };
    // A URL without an authority has no bytes between these two places.
    if !is_host(url.slice(Position::BeforeHost, Position::AfterHost)) {
        return Err(ViewRefusal::BadHost);
    }
    if url.as_str().len() > MAX_URL {
        return Err(ViewRefusal::UrlTooLong);
    }
    let host = Span {
        start: url.index(Position::BeforeHost),
        end: url.index(Position::AfterHost),
    };
    let cut = url.index(Position::AfterQuery);
    Ok(View::build(Text::build(String::from(url)), cut, scheme, host))
}
