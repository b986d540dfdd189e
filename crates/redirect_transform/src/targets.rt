ghost use Rattle.std.specs.Prelude.{◌≡◌, IfOk, IsAscii, string_bytes, option_map};
ghost use Rattle.dnr_spec.specs.Patterns.{ArePlacesIn};
ghost use Rattle.dnr_spec.specs.Target as spec;

use crate::parts::UrlParts;
use dnr_base::{NoMemory, Redirect, Scheme, Span, Text, Transform, View};
use dnr_spec::SubstitutionRefusal;
use regex_host::Substitution;
use std::alloc::Global;
use url::{ParseError, Url};

/// The most bytes of a target.
pub const MAX_TARGET: usize = 131_072;

/// Where a redirect of the extension `ext` sends the request of this view. `spans` says where the groups of
/// the first match of the rule's `regexFilter` stand in the view's text; only a `RegexSubstitution` uses them.
///
/// `None`: the redirect gives no text that the URL Standard reads, or a URL of the scheme `javascript`, or one
/// longer than `MAX_TARGET` bytes, or the request's own with its fragment or without.
///
/// `NoMemory`: memory ran out.
pub fn target(
    alloc: Global,
    redirect: &Redirect,
    ext: &str,
    view: &View,
    spans: &[Option<Span>; 10],
) -> Result<Option<Text>, NoMemory>
    requires { spec.HasPlaces redirect.now view.now spans.now }
    ensures { IfOk result (λ target. target ≡ spec.target_of redirect.now ext.now view.now spans.now) }
{
    match redirect {
        Redirect::ExtensionPath(path) => {
            let text = extension_text(alloc, ext, path.as_str())?;
            target_in(alloc, text.as_str(), view)
        }
        Redirect::Transform(transform) => transform_target(alloc, transform, view),
        Redirect::Url(url) => target_in(alloc, url.as_str(), view),
        Redirect::RegexSubstitution(substitution) => {
            match substituted_text(alloc, substitution.as_str(), view.text(), spans)? {
                Some(text) => target_in(alloc, text.as_str(), view),
                None => Ok(None),
            }
        }
    }
}

/// Where an upgrade sends the request of this view: from `http` and `ftp` to the same URL with `https`.
///
/// `None`: the view has another scheme, or `target` has none for the transform whose only part is the scheme
/// `https`.
///
/// `NoMemory`: memory ran out.
pub fn upgraded(alloc: Global, view: &View) -> Result<Option<Text>, NoMemory>
    ensures { IfOk result (λ target. target ≡ spec.upgraded_of view.now) }
{
    if !matches!(view.scheme(), Scheme::Http | Scheme::Ftp) {
        return Ok(None);
    }
    let transform = Transform {
        scheme: Some(Scheme::Https),
        host: None,
        port: None,
        path: None,
        query: None,
        query_transform: None,
        fragment: None,
        username: None,
        password: None,
    };
    transform_target(alloc, &transform, view)
}

fn transform_target(
    alloc: Global,
    transform: &Transform,
    view: &View,
) -> Result<Option<Text>, NoMemory>
    ensures { IfOk result (λ target. target
        ≡ spec.option_target view.now (spec.transform_text transform.now view.now.full)) }
{
    match read(alloc, view.full())? {
        Some(url) => {
            let text = UrlParts::of(&url).transformed(alloc, transform)?;
            target_in(alloc, text.as_str(), view)
        }
        None => Ok(None),
    }
}

fn extension_text(alloc: Global, ext: &str, path: &str) -> Result<String, NoMemory>
    ensures { IfOk result (λ text. string_bytes text ≡ spec.extension_text ext.now path.now) }
{
    let mut text = String::from_str(alloc, "chrome-extension://")?;
    text.push_str(ext)?;
    text.push_str(path)?;
    Ok(text)
}

// A rule's substitution names no group that its pattern lacks; here each of `\0` to `\9` is read.
fn substituted_text(
    alloc: Global,
    substitution: &str,
    text: &str,
    spans: &[Option<Span>; 10],
) -> Result<Option<String>, NoMemory>
    requires ascii { IsAscii text.now }
    requires places { ArePlacesIn text.now spans.now }
    ensures { IfOk result (λ new.
        option_map string_bytes new ≡ spec.substituted_text substitution.now text.now spans.now) }
{
    let pieces = match Substitution::read(alloc, substitution, 9) {
        Ok(pieces) => pieces,
        Err(SubstitutionRefusal::NoMemory) => return Err(NoMemory),
        Err(SubstitutionRefusal::BadSubstitution) => return Ok(None),
    };
    let Some(place) = spans[0] else {
        return Ok(None);
    };
    let expanded = pieces.expand(alloc, text, spans)?;
    let mut new = String::from_str(alloc, &text[..place.start])?;
    new.push_str(expanded.as_str())?;
    new.push_str(&text[place.end..])?;
    Ok(Some(new))
}

fn target_in(alloc: Global, text: &str, view: &View) -> Result<Option<Text>, NoMemory>
    ensures { IfOk result (λ target. target ≡ spec.target_in view.now text.now) }
{
    match read(alloc, text)? {
        Some(url) if is_target(&url, view) => Ok(Some(Text::build(String::from(url)))),
        _ => Ok(None),
    }
}

fn is_target(url: &Url, view: &View) -> bool
    ensures { result ≡ spec.is_target view.now url.now }
{
    let text = url.as_str();
    url.scheme() != "javascript"
        && text.len() <= MAX_TARGET
        && text != view.full()
        && text != view.text()
}

// A URL overflows past 4 GB, which is a want of room like another.
fn read(alloc: Global, text: &str) -> Result<Option<Url>, NoMemory>
    ensures { IfOk result (λ url. url ≡ spec.url_of text.now) }
{
    match Url::parse(alloc, text) {
        Ok(url) => Ok(Some(url)),
        Err(ParseError::OutOfMemory | ParseError::Overflow) => Err(NoMemory),
        Err(_) => Ok(None),
    }
}
