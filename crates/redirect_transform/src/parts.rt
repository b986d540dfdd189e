ghost use Rattle.std.specs.Prelude.{◌≡◌, ◌++◌, [], IfOk, OnOk, string_bytes, unwrap_or, if◌then◌else◌};
ghost use Rattle.std.specs.Option.{option_map_or};
ghost use Rattle.form_urlencoded.specs.Form.{is_nonempty};
ghost use Rattle.dnr_base.specs.Scheme.{scheme_text};
ghost use Rattle.dnr_spec.specs.Transform as spec;

use crate::query::changed_query;
use dnr_base::{NoMemory, Scheme, Text, Transform};
use percent_encoding::percent_encode_byte;
use std::alloc::Global;
use url::{Position, Url};

/// The parts of a URL, as they are written: the query with its `?`, and the fragment with its `#`. What is
/// not there is empty.
#[derive(Clone, Copy)]
pub struct UrlParts<'a> {
    scheme: &'a str,
    username: &'a str,
    password: &'a str,
    host: &'a str,
    port: &'a str,
    path: &'a str,
    query: &'a str,
    fragment: &'a str,
}

impl<'a> UrlParts<'a> {
    ghost use Rattle.redirect_transform.specs.Parts.{lent};

    /// The parts of this URL.
    pub fn of(url: &'a Url) -> UrlParts<'a>
        ensures { lent result ≡ spec.components_of url.now }
    {
        UrlParts {
            scheme: url.scheme(),
            username: url.username(),
            password: url.slice(Position::BeforePassword, Position::AfterPassword),
            host: url.slice(Position::BeforeHost, Position::AfterHost),
            port: url.slice(Position::BeforePort, Position::AfterPort),
            path: url.path(),
            query: url.slice(Position::AfterPath, Position::AfterQuery),
            fragment: url.slice(Position::AfterQuery, Position::AfterFragment),
        }
    }

    /// The text of the parts, in their order.
    ///
    /// `NoMemory`: no memory is left for it.
    pub fn assembled(&self, alloc: Global) -> Result<String, NoMemory>
        ensures { IfOk result (λ text. string_bytes text ≡ spec.assembled (lent self.now)) }
    {
        let mut text = String::from_str(alloc, self.scheme)?;
        text.push_str("://")?;
        push_user(&mut text, self.username, self.password)?;
        text.push_str(self.host)?;
        push_marked(&mut text, ":", self.port)?;
        text.push_str(self.path)?;
        text.push_str(self.query)?;
        text.push_str(self.fragment)?;
        Ok(text)
    }

    /// The text of these parts and the new ones of a transform.
    ///
    /// `NoMemory`: no memory is left for it.
    pub fn transformed(&self, alloc: Global, transform: &Transform) -> Result<String, NoMemory>
        ensures { IfOk result (λ text.
            string_bytes text ≡ spec.assembled (spec.transformed transform.now (lent self.now))) }
    {
        let username = new_user(alloc, &transform.username, self.username)?;
        let password = new_user(alloc, &transform.password, self.password)?;
        let path = new_path(alloc, &transform.path, self.path)?;
        let query = new_query(alloc, transform, self.query)?;
        let parts = UrlParts {
            scheme: new_scheme(transform.scheme, self.scheme),
            username: username.as_str(),
            password: password.as_str(),
            host: new_part(&transform.host, self.host),
            port: new_part(&transform.port, self.port),
            path: path.as_str(),
            query: query.as_str(),
            fragment: new_part(&transform.fragment, self.fragment),
        };
        parts.assembled(alloc)
    }
}

fn push_user(text: &mut String, username: &str, password: &str) -> Result<(), NoMemory>
    ensures { OnOk result (string_bytes text.new
        ≡ string_bytes text.old ++ spec.user_text username.now password.now) }
{
    if username.is_empty() && password.is_empty() {
        return Ok(());
    }
    text.push_str(username)?;
    push_marked(text, ":", password)?;
    text.push_str("@")?;
    Ok(())
}

// The part behind its mark, unless it is empty.
fn push_marked(text: &mut String, mark: &str, part: &str) -> Result<(), NoMemory>
    ensures { OnOk result (string_bytes text.new
        ≡ string_bytes text.old ++ (if is_nonempty part.now then mark.now ++ part.now else [])) }
{
    if !part.is_empty() {
        text.push_str(mark)?;
        text.push_str(part)?;
    }
    Ok(())
}

fn new_scheme(new: Option<Scheme>, old: &str) -> &str
    ensures { result.now ≡ option_map_or scheme_text new old.now }
{
    match new {
        Some(scheme) => scheme.name(),
        None => old,
    }
}

fn new_part<'a>(new: &'a Option<Text>, old: &'a str) -> &'a str
    ensures { result.now ≡ unwrap_or new.now old.now }
{
    match new {
        Some(text) => text.as_str(),
        None => old,
    }
}

fn new_user(alloc: Global, new: &Option<Text>, old: &str) -> Result<String, NoMemory>
    ensures { IfOk result (λ text. string_bytes text ≡ option_map_or spec.encoded new.now old.now) }
{
    match new {
        Some(text) => encoded(alloc, text.as_str()),
        None => Ok(String::from_str(alloc, old)?),
    }
}

fn encoded(alloc: Global, text: &str) -> Result<String, NoMemory>
    ensures { IfOk result (λ encoded. string_bytes encoded ≡ spec.encoded text.now) }
{
    let mut encoded = String::new(alloc);
    for byte in text.as_bytes() {
        if is_unreserved(*byte) {
            encoded.push(char::from(*byte))?;
        } else {
            encoded.push_str(percent_encode_byte(*byte))?;
        }
    }
    Ok(encoded)
}

fn is_unreserved(byte: u8) -> bool
    ensures { result ≡ spec.is_unreserved byte }
{
    byte.is_ascii_alphanumeric() || matches!(byte, b'-' | b'.' | b'_' | b'~')
}

fn new_path(alloc: Global, new: &Option<Text>, old: &str) -> Result<String, NoMemory>
    ensures { IfOk result (λ text. string_bytes text ≡ option_map_or spec.rooted new.now old.now) }
{
    match new {
        Some(path) => rooted(alloc, path.as_str()),
        None => Ok(String::from_str(alloc, old)?),
    }
}

fn rooted(alloc: Global, path: &str) -> Result<String, NoMemory>
    ensures { IfOk result (λ text. string_bytes text ≡ spec.rooted path.now) }
{
    let mut rooted = String::new(alloc);
    if !path.is_empty() && !path.starts_with("/") {
        rooted.push_str("/")?;
    }
    rooted.push_str(path)?;
    Ok(rooted)
}

fn new_query(alloc: Global, transform: &Transform, old: &str) -> Result<String, NoMemory>
    ensures { IfOk result (λ text. string_bytes text
        ≡ spec.new_query transform.now.query transform.now.query_transform old.now) }
{
    match (&transform.query, &transform.query_transform) {
        (Some(query), _) => Ok(String::from_str(alloc, query.as_str())?),
        (None, Some(changes)) => changed_query(alloc, changes, old.strip_prefix("?").unwrap_or("")),
        (None, None) => Ok(String::from_str(alloc, old)?),
    }
}
