ghost use Rattle.std.specs.Prelude.{◌≡◌, Ok, IfOk, IfErr};
ghost use Rattle.serde_json.specs.View.{view};
ghost use Rattle.rule_spec.specs.Redirects as rule;
ghost use Rattle.json_spec.specs.RuleAction.{extension_in, url_in, substitution_in, redirect_in, redirect_of};
ghost use Rattle.json_spec.specs.MayRefuse.{IsRefused};

use crate::transforms::{Part, read_transform, tested_text};
use dnr_base::{NoMemory, Redirect, Text};
use regex_host::{Substitution, SubstitutionRefusal};
use rule_spec::RuleRefusal;
use serde_json::Value;
use std::alloc::Global;
use url::{ParseError, Url};

// The most bytes of a URL that a rule leads to.
const MAX_URL: usize = 65_536;

// Reads the redirect of an action. `groups` is the count of groups of the rule's `regexFilter`, if it
// has one.
#[tactic(auto, unfolding(json_spec::specs::RuleAction::redirect_in))]
pub(crate) fn read_redirect(
    alloc: Global,
    action: &Value,
    groups: Option<u32>,
) -> Result<Redirect, RuleRefusal>
    ensures ok { IfOk result (λ redirect. redirect_in groups (view action.now) ≡ Ok redirect) }
    ensures refused { IfErr result (IsRefused (redirect_in groups (view action.now))) }
{
    match action.get("redirect") {
        Some(redirect) => read_fields(alloc, redirect, groups),
        None => Err(RuleRefusal::BadRedirect),
    }
}

// Of the four fields exactly one is given.
fn read_fields(
    alloc: Global,
    redirect: &Value,
    groups: Option<u32>,
) -> Result<Redirect, RuleRefusal>
    ensures ok { IfOk result (λ target. redirect_of groups (view redirect.now) ≡ Ok target) }
    ensures refused { IfErr result (IsRefused (redirect_of groups (view redirect.now))) }
{
    let path = redirect.get("extensionPath");
    let transform = redirect.get("transform");
    let url = redirect.get("url");
    let substitution = redirect.get("regexSubstitution");
    match (path, transform, url, substitution) {
        (Some(path), None, None, None) => read_extension(alloc, path),
        (None, Some(transform), None, None) => {
            Ok(Redirect::Transform(read_transform(alloc, transform)?))
        }
        (None, None, Some(url), None) => read_url(alloc, url),
        (None, None, None, Some(text)) => read_substitution(alloc, text, groups),
        _ => Err(RuleRefusal::BadRedirect),
    }
}

#[tactic(auto, unfolding(json_spec::specs::RuleAction::extension_in))]
fn read_extension(alloc: Global, value: &Value) -> Result<Redirect, RuleRefusal>
    ensures ok { IfOk result (λ redirect. extension_in (view value.now) ≡ Ok redirect) }
    ensures refused { IfErr result (IsRefused (extension_in (view value.now))) }
{
    match tested_text(alloc, value, Part::ExtensionPath)? {
        Some(path) => Ok(Redirect::ExtensionPath(path)),
        None => Err(RuleRefusal::BadRedirect),
    }
}

#[tactic(auto, unfolding(json_spec::specs::RuleAction::url_in))]
fn read_url(alloc: Global, value: &Value) -> Result<Redirect, RuleRefusal>
    ensures ok { IfOk result (λ redirect. url_in (view value.now) ≡ Ok redirect) }
    ensures refused { IfErr result (IsRefused (url_in (view value.now))) }
{
    let Some(text) = value.as_str() else {
        return Err(RuleRefusal::BadRedirect);
    };
    if !is_redirect_url(alloc, text)? {
        return Err(RuleRefusal::BadRedirect);
    }
    let url = String::from_str(alloc, text)?;
    Ok(Redirect::Url(Text::build(url)))
}

// Whether a rule may lead to the URL: the URL Standard reads it, and it is no script.
fn is_redirect_url(alloc: Global, text: &str) -> Result<bool, NoMemory>
    ensures { IfOk result (λ is. is ≡ rule.is_redirect_url text.now) }
{
    if text.len() > MAX_URL {
        return Ok(false);
    }
    match Url::parse(alloc, text) {
        Ok(url) => Ok(url.scheme() != "javascript"),
        Err(ParseError::OutOfMemory | ParseError::Overflow) => Err(NoMemory),
        Err(_) => Ok(false),
    }
}

#[tactic(auto, unfolding(json_spec::specs::RuleAction::substitution_in))]
fn read_substitution(
    alloc: Global,
    value: &Value,
    groups: Option<u32>,
) -> Result<Redirect, RuleRefusal>
    ensures ok { IfOk result (λ target. substitution_in groups (view value.now) ≡ Ok target) }
    ensures refused { IfErr result (IsRefused (substitution_in groups (view value.now))) }
{
    let Some(groups) = groups else {
        return Err(RuleRefusal::BadRedirect);
    };
    let Some(text) = value.as_str() else {
        return Err(RuleRefusal::BadRedirect);
    };
    match Substitution::read(alloc, text, groups) {
        Ok(_) => {
            let text = String::from_str(alloc, text)?;
            Ok(Redirect::RegexSubstitution(Text::build(text)))
        }
        Err(SubstitutionRefusal::BadSubstitution) => Err(RuleRefusal::BadRedirect),
        Err(SubstitutionRefusal::NoMemory) => Err(RuleRefusal::NoMemory),
    }
}
