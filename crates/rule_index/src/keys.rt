//! The keys of rules and of parts, as functions. An index asks for neither list.
ghost use Rattle.std.specs.Prelude.{◌≡◌, ◌++◌, ◌∷◌, [], map, IfOk, OnOk};
ghost use Rattle.dnr_base.specs.View.{text_of, host_of};
ghost use Rattle.dnr_spec.specs.Domains.{lower_case};
ghost use Rattle.index_spec.specs.declared.key.Key.TheVariants.{Token, All};
ghost use Rattle.index_spec.specs.Keys.{keys_of_rule, keys_of_condition, keys_of_part, domains_over, domains_over_some};
ghost use Rattle.index_spec.specs.Pairs.{once};
ghost use Rattle.index_spec.specs.Words.{words_of};
ghost use Rattle.rule_index.specs.Index as index;
ghost use Rattle.rule_index.specs.Kinds as spec;

use crate::token::token_in;
use dnr_base::{NoMemory, Part, Text};
use dnr_rules::{Condition, Rule};
use index_spec::Key;
use key_walk::{Domains, Words};
use std::alloc::Global;
use std::collections::BTreeSet;

// Which texts keys have.
#[derive(Clone, Copy, Debug)]
pub(crate) enum KeyKind {
    Host,
    Token,
    Initiator,
}

fn key_by(kind: KeyKind, text: Text) -> Key
    ensures { result ≡ spec.key_by kind text }
{
    match kind {
        KeyKind::Host => Key::Host(text),
        KeyKind::Token => Key::Token(text),
        KeyKind::Initiator => Key::Initiator(text),
    }
}

// The bytes as a text.
fn text_of(alloc: Global, bytes: &[u8]) -> Result<Text, NoMemory>
    ensures { IfOk result (λ text. text ≡ bytes.now) }
{
    // They are a piece of a text between ASCII bytes, so they are one themselves.
    match str::from_utf8(bytes) {
        Ok(text) => Ok(Text::build(String::from_str(alloc, text)?)),
        Err(_) => Err(NoMemory),
    }
}

// Puts a key behind the others for each of the texts, once.
fn push_each(
    alloc: Global,
    keys: &mut Vec<Key>,
    kind: KeyKind,
    texts: &[Text],
) -> Result<(), NoMemory>
    ensures { OnOk result (keys.new.items ≡ keys.old.items ++ map (spec.key_by kind) (index.once texts.now)) }
{
    let mut seen = BTreeSet::new(alloc);
    let mut left = texts;
    while let Some((text, rest)) = left.split_first() {
        if !seen.contains(text.as_str()) {
            keys.push(key_by(kind, text.copy(alloc)?))?;
            seen.insert(String::from_str(alloc, text.as_str())?)?;
        }
        left = rest;
    }
    Ok(())
}

// The texts by which a host is covered.
fn domains_of(alloc: Global, host: &str) -> Result<Vec<Text>, NoMemory>
    ensures { IfOk result (λ texts. texts.items ≡ domains_over host.now) }
{
    let mut domains = Domains::new(host);
    let mut texts = Vec::new(alloc);
    while let Some(domain) = domains.next() {
        texts.push(text_of(alloc, domain)?)?;
    }
    Ok(texts)
}

// The words of a text in lower case.
fn words_in(alloc: Global, text: &[u8]) -> Result<Vec<Text>, NoMemory>
    ensures { IfOk result (λ texts. texts.items ≡ map lower_case (words_of text.now)) }
{
    let mut words = Words::new(text);
    let mut texts = Vec::new(alloc);
    while let Some(word) = words.next() {
        let word = word.to_ascii_lowercase(alloc)?;
        texts.push(text_of(alloc, &word)?)?;
    }
    Ok(texts)
}

// A key for each of the texts, once.
fn keys_for(alloc: Global, kind: KeyKind, texts: &[Text]) -> Result<Vec<Key>, NoMemory>
    ensures { IfOk result (λ keys. keys.items ≡ map (spec.key_by kind) (index.once texts.now)) }
{
    let mut keys = Vec::new(alloc);
    push_each(alloc, &mut keys, kind, texts)?;
    Ok(keys)
}

// The key of a word that is a token.
fn token_key(alloc: Global, token: &[u8]) -> Result<Vec<Key>, NoMemory>
    ensures { IfOk result (λ keys. keys.items ≡ Token (lower_case token.now) ∷ []) }
{
    let token = token.to_ascii_lowercase(alloc)?;
    let mut keys = Vec::new(alloc);
    keys.push(Key::Token(text_of(alloc, &token)?))?;
    Ok(keys)
}

// The key of a rule that has no other.
fn all_key(alloc: Global) -> Result<Vec<Key>, NoMemory>
    ensures { IfOk result (λ keys. keys.items ≡ All ∷ []) }
{
    let mut keys = Vec::new(alloc);
    keys.push(Key::All)?;
    Ok(keys)
}

// The keys of a condition.
fn keys_in(alloc: Global, condition: &Condition) -> Result<Vec<Key>, NoMemory>
    ensures { IfOk result (λ keys. keys.items ≡ once (keys_of_condition condition.now)) }
{
    if let Some(domains) = condition.hosts() {
        return keys_for(alloc, KeyKind::Host, domains.entries());
    }
    if let Some(token) = token_in(condition) {
        return token_key(alloc, token);
    }
    match condition.initiators() {
        Some(domains) => keys_for(alloc, KeyKind::Initiator, domains.entries()),
        None => all_key(alloc),
    }
}

/// The keys of a rule, each once, in the order in which the rule gives them.
///
/// `NoMemory`: no memory is left for them.
pub fn key_of(alloc: Global, rule: &Rule) -> Result<Vec<Key>, NoMemory>
    ensures { IfOk result (λ keys. keys.items ≡ once (keys_of_rule rule.now)) }
{
    keys_in(alloc, rule.condition())
}

// Puts the keys of a part's host behind the others.
fn push_hosts(alloc: Global, keys: &mut Vec<Key>, part: &Part<'_>) -> Result<(), NoMemory>
    ensures { OnOk result (keys.new.items
        ≡ keys.old.items ++ map (spec.key_by KeyKind.Host) (index.once (domains_over (host_of part.now.view)))) }
{
    let domains = domains_of(alloc, part.view.host())?;
    push_each(alloc, keys, KeyKind::Host, &domains)
}

// Puts the keys of its words behind the others.
fn push_words(alloc: Global, keys: &mut Vec<Key>, part: &Part<'_>) -> Result<(), NoMemory>
    ensures { OnOk result (keys.new.items ≡ keys.old.items
        ++ map (spec.key_by KeyKind.Token) (index.once (map lower_case (words_of (text_of part.now.view))))) }
{
    let words = words_in(alloc, part.view.text().as_bytes())?;
    push_each(alloc, keys, KeyKind::Token, &words)
}

// Puts the keys of the host that asks behind the others, if there is one.
fn push_initiators(alloc: Global, keys: &mut Vec<Key>, part: &Part<'_>) -> Result<(), NoMemory>
    ensures { OnOk result (keys.new.items ≡ keys.old.items
        ++ map (spec.key_by KeyKind.Initiator) (index.once (domains_over_some part.now.initiator))) }
{
    let Some(host) = part.initiator else {
        return Ok(());
    };
    let domains = domains_of(alloc, host.as_str())?;
    push_each(alloc, keys, KeyKind::Initiator, &domains)
}

/// The keys of a part, each once.
///
/// `NoMemory`: no memory is left for them.
pub fn keys_of(alloc: Global, part: &Part<'_>) -> Result<Vec<Key>, NoMemory>
    ensures { IfOk result (λ keys. keys.items ≡ once (keys_of_part part.now)) }
{
    let mut keys = Vec::new(alloc);
    push_hosts(alloc, &mut keys, part)?;
    push_words(alloc, &mut keys, part)?;
    push_initiators(alloc, &mut keys, part)?;
    keys.push(Key::All)?;
    Ok(keys)
}
