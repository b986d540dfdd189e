ghost use Rattle.std.specs.Prelude.{◌≡◌, ℕ, ◌+◌, ◌*◌, ◌-◌, ◌==◌, ◌≤◌, ◌&&◌, ◌||◌, true, codes, Ok};
ghost use Rattle.std.specs.Prelude.{OnOk, IfOk, IfErr, is_some, length, fold, option_map};
ghost use Rattle.std.specs.Prelude.{option_and_then};
ghost use Rattle.std.specs.List.{list_any, list_all};
ghost use Rattle.std.specs.Str.{str_to_ascii_lowercase};
ghost use Rattle.std.specs.Char.{is_ascii_digit};
ghost use Rattle.serde_json.specs.View.{view, items_view};
ghost use Rattle.serde_json.specs.Find.{get};
ghost use Rattle.dnr_spec.specs.Domains as domains;
ghost use Rattle.rule_spec.specs.Redirects as rule;
ghost use Rattle.json_spec.specs.RuleFields.{each};
ghost use Rattle.json_spec.specs.RuleAction as spec;
ghost use Rattle.json_spec.specs.RuleAction.{part_in, transform_in};
ghost use Rattle.json_spec.specs.MayRefuse.{IsRefused};
ghost use Rattle.action_read.specs.Parts.{test_of};
ghost use Rattle.action_read.specs.Seen.{data_in};

use dnr_base::{Items, NoMemory, QueryPair, QueryTransform, Scheme, Text, Transform};
use rule_spec::RuleRefusal;
use serde_json::Value;
use std::alloc::Global;

// The most bytes of a text of a redirect.
const MAX_TEXT: usize = 8192;

// The most entries of the two lists of a queryTransform together.
const MAX_ENTRIES: usize = 1024;

// A text of a redirect.
#[derive(Clone, Copy, Debug, PartialEq, Eq)]
pub(crate) enum Part {
    ExtensionPath,
    Host,
    Port,
    Path,
    Query,
    Fragment,
    Other,
}

impl Part {
    // Whether the text may stand there.
    fn admits(self, text: &str) -> bool
        ensures { result ≡ test_of self text.now }
    {
        match self {
            Part::ExtensionPath => text.as_bytes().starts_with(b"/"),
            Part::Host => is_new_host(text.as_bytes()),
            Part::Port => is_new_port(text.as_bytes()),
            Part::Path => !has_byte(text.as_bytes(), b'?') && !has_byte(text.as_bytes(), b'#'),
            Part::Query => begins_with(text.as_bytes(), b'?') && !has_byte(text.as_bytes(), b'#'),
            Part::Fragment => begins_with(text.as_bytes(), b'#'),
            Part::Other => true,
        }
    }
}

// Letters, digits, `-`, `.` and `_`, or an address between brackets.
fn is_new_host(text: &[u8]) -> bool
    ensures { result ≡ rule.is_new_host text.now }
{
    is_address(text) || (!text.is_empty() && has_host_bytes(text))
}

fn is_address(text: &[u8]) -> bool
    ensures { result ≡ domains.is_address text.now }
{
    match text {
        [b'[', address @ .., b']'] => has_address_bytes(address),
        _ => false,
    }
}

fn has_address_bytes(address: &[u8]) -> bool
    ensures { result ≡ list_all domains.is_address_byte address.now }
{
    address.iter().all(|byte| byte.is_ascii_hexdigit() || *byte == b':' || *byte == b'.')
}

fn has_host_bytes(text: &[u8]) -> bool
    ensures { result ≡ list_all (λ b. domains.is_label_byte b || b == 46) text.now }
{
    text.iter().all(|byte| byte.is_ascii_alphanumeric()
        || *byte == b'-'
        || *byte == b'_'
        || *byte == b'.')
}

// Empty, or a port.
fn is_new_port(text: &[u8]) -> bool
    ensures { result ≡ rule.is_new_port text.now }
{
    text.len() <= 5 && has_digits_alone(text) && number_in(text) <= 65_535
}

fn has_digits_alone(text: &[u8]) -> bool
    ensures { result ≡ list_all is_ascii_digit text.now }
{
    text.iter().all(|byte| byte.is_ascii_digit())
}

// The number of at most five decimal digits.
fn number_in(digits: &[u8]) -> u32
    requires few { length digits.now ≤ 5 }
    requires digits { list_all is_ascii_digit digits.now ≡ true }
    ensures { result ≡ rule.number_in digits.now }
{
    let mut number = 0;
    for digit in digits {
        number = 10 * number + u32::from(digit - b'0');
    }
    number
}

fn has_byte(text: &[u8], byte: u8) -> bool
    ensures { result ≡ rule.has_byte byte text.now }
{
    text.iter().any(|other| byte == *other)
}

// Empty, or begins with this byte.
fn begins_with(text: &[u8], byte: u8) -> bool
    ensures { result ≡ rule.begins_with byte text.now }
{
    match text {
        [] => true,
        [first, ..] => *first == byte,
    }
}

// A short text that may stand there. `None`: the value is no such text.
pub(crate) fn tested_text(
    alloc: Global,
    value: &Value,
    part: Part,
) -> Result<Option<Text>, NoMemory>
    ensures { IfOk result (λ text. text ≡ spec.tested_text (test_of part) (view value.now)) }
{
    match value.as_str() {
        Some(text) if text.len() <= MAX_TEXT && part.admits(text) => {
            Ok(Some(Text::build(String::from_str(alloc, text)?)))
        }
        _ => Ok(None),
    }
}

// Reads a transform.
pub(crate) fn read_transform(alloc: Global, value: &Value) -> Result<Transform, RuleRefusal>
    ensures ok { IfOk result (λ transform. transform_in (view value.now) ≡ Ok transform) }
    ensures refused { IfErr result (IsRefused (transform_in (view value.now))) }
{
    if !value.is_object() {
        return Err(RuleRefusal::BadTransform);
    }
    let scheme = scheme_part(value)?;
    let new_host = text_part(alloc, value, "host", Part::Host)?;
    let port = text_part(alloc, value, "port", Part::Port)?;
    let path = text_part(alloc, value, "path", Part::Path)?;
    let query = text_part(alloc, value, "query", Part::Query)?;
    let query_transform = changes_part(alloc, value)?;
    if has_two_queries(value) {
        return Err(RuleRefusal::BadTransform);
    }
    let fragment = text_part(alloc, value, "fragment", Part::Fragment)?;
    let username = text_part(alloc, value, "username", Part::Other)?;
    let password = text_part(alloc, value, "password", Part::Other)?;
    let host = lower_case(alloc, new_host)?;
    Ok(Transform {
        scheme,
        host,
        port,
        path,
        query,
        query_transform,
        fragment,
        username,
        password,
    })
}

// Whether both a new query and changes of the old one are given.
fn has_two_queries(transform: &Value) -> bool
    ensures { result ≡ (is_some (get (codes "query") (view transform.now))
        && is_some (get (codes "queryTransform") (view transform.now))) }
{
    transform.get("query").is_some() && transform.get("queryTransform").is_some()
}

#[tactic(auto, unfolding(json_spec::specs::RuleAction::part_in))]
fn text_part(
    alloc: Global,
    transform: &Value,
    key: &str,
    part: Part,
) -> Result<Option<Text>, RuleRefusal>
    ensures ok { IfOk result (λ text.
        part_in (spec.tested_text (test_of part)) key.now (view transform.now) ≡ Ok text) }
    ensures refused { IfErr result
        (IsRefused (part_in (spec.tested_text (test_of part)) key.now (view transform.now))) }
{
    let Some(value) = transform.get(key) else {
        return Ok(None);
    };
    match tested_text(alloc, value, part)? {
        Some(text) => Ok(Some(text)),
        None => Err(RuleRefusal::BadTransform),
    }
}

#[tactic(auto, unfolding(json_spec::specs::RuleAction::part_in))]
fn scheme_part(transform: &Value) -> Result<Option<Scheme>, RuleRefusal>
    ensures ok { IfOk result (λ scheme.
        part_in spec.as_new_scheme (codes "scheme") (view transform.now) ≡ Ok scheme) }
    ensures refused { IfErr result
        (IsRefused (part_in spec.as_new_scheme (codes "scheme") (view transform.now))) }
{
    match transform.get("scheme") {
        None => Ok(None),
        Some(value) => match as_new_scheme(value) {
            Some(scheme) => Ok(Some(scheme)),
            None => Err(RuleRefusal::BadTransform),
        },
    }
}

// A scheme that a transform may give.
fn as_new_scheme(value: &Value) -> Option<Scheme>
    ensures { result ≡ spec.as_new_scheme (view value.now) }
{
    scheme_named(value.as_str()?)
}

fn scheme_named(name: &str) -> Option<Scheme>
    ensures { result ≡ spec.new_scheme name.now }
{
    match name {
        "http" => Some(Scheme::Http),
        "https" => Some(Scheme::Https),
        "ftp" => Some(Scheme::Ftp),
        "chrome-extension" => Some(Scheme::ChromeExtension),
        _ => None,
    }
}

#[tactic(auto, unfolding(json_spec::specs::RuleAction::part_in))]
fn changes_part(alloc: Global, transform: &Value) -> Result<Option<QueryTransform>, RuleRefusal>
    ensures ok { IfOk result (λ changes.
        part_in spec.as_changes (codes "queryTransform") (view transform.now) ≡ Ok changes) }
    ensures refused { IfErr result
        (IsRefused (part_in spec.as_changes (codes "queryTransform") (view transform.now))) }
{
    let Some(value) = transform.get("queryTransform") else {
        return Ok(None);
    };
    match as_changes(alloc, value)? {
        Some(changes) => Ok(Some(changes)),
        None => Err(RuleRefusal::BadTransform),
    }
}

fn as_changes(alloc: Global, value: &Value) -> Result<Option<QueryTransform>, NoMemory>
    ensures { IfOk result (λ changes. changes ≡ spec.as_changes (view value.now)) }
{
    if !value.is_object() {
        return Ok(None);
    }
    let Some(remove) = removed_keys(alloc, value.get("removeParams"))? else {
        return Ok(None);
    };
    let Some(add) = new_pairs(alloc, value.get("addOrReplaceParams"))? else {
        return Ok(None);
    };
    if add.len() > MAX_ENTRIES || remove.len() > MAX_ENTRIES - add.len() {
        return Ok(None);
    }
    Ok(Some(QueryTransform {
        remove: Items::build(remove),
        add: Items::build(add),
    }))
}

// A list that is absent is empty.
fn removed_keys(alloc: Global, list: Option<&Value>) -> Result<Option<Vec<Text>>, NoMemory>
    ensures { IfOk result (λ keys. option_map (λ keys. keys.items) keys
        ≡ spec.list_from spec.short_text (data_in list.entry)) }
{
    let Some(list) = list else {
        return Ok(Some(Vec::new(alloc)));
    };
    match list.as_array() {
        Some(values) => keys_in(alloc, values),
        None => Ok(None),
    }
}

fn keys_in(alloc: Global, values: &[Value]) -> Result<Option<Vec<Text>>, NoMemory>
    ensures { IfOk result (λ keys. option_map (λ keys. keys.items) keys
        ≡ each spec.short_text (items_view values.now)) }
{
    let mut keys = Vec::with_capacity(alloc, values.len())?;
    for value in values {
        let Some(key) = tested_text(alloc, value, Part::Other)? else {
            return Ok(None);
        };
        keys.push(key)?;
    }
    Ok(Some(keys))
}

// A list that is absent is empty.
fn new_pairs(alloc: Global, list: Option<&Value>) -> Result<Option<Vec<QueryPair>>, NoMemory>
    ensures { IfOk result (λ pairs. option_map (λ pairs. pairs.items) pairs
        ≡ spec.list_from spec.as_pair (data_in list.entry)) }
{
    let Some(list) = list else {
        return Ok(Some(Vec::new(alloc)));
    };
    match list.as_array() {
        Some(values) => pairs_in(alloc, values),
        None => Ok(None),
    }
}

fn pairs_in(alloc: Global, values: &[Value]) -> Result<Option<Vec<QueryPair>>, NoMemory>
    ensures { IfOk result (λ pairs. option_map (λ pairs. pairs.items) pairs
        ≡ each spec.as_pair (items_view values.now)) }
{
    let mut pairs = Vec::with_capacity(alloc, values.len())?;
    for value in values {
        let Some(pair) = as_pair(alloc, value)? else {
            return Ok(None);
        };
        pairs.push(pair)?;
    }
    Ok(Some(pairs))
}

fn as_pair(alloc: Global, value: &Value) -> Result<Option<QueryPair>, NoMemory>
    ensures { IfOk result (λ pair. pair ≡ spec.as_pair (view value.now)) }
{
    let Some(replace_only) = flag(value.get("replaceOnly")) else {
        return Ok(None);
    };
    let Some(key) = text_of(alloc, value.get("key"))? else {
        return Ok(None);
    };
    match text_of(alloc, value.get("value"))? {
        Some(value) => Ok(Some(QueryPair {
            key,
            value,
            replace_only,
        })),
        None => Ok(None),
    }
}

fn text_of(alloc: Global, value: Option<&Value>) -> Result<Option<Text>, NoMemory>
    ensures { IfOk result (λ text. text ≡ option_and_then spec.short_text (data_in value.entry)) }
{
    match value {
        Some(value) => tested_text(alloc, value, Part::Other),
        None => Ok(None),
    }
}

// A truth value that is absent is false.
fn flag(value: Option<&Value>) -> Option<bool>
    ensures { result ≡ spec.flag_from (data_in value.entry) }
{
    match value {
        Some(value) => value.as_bool(),
        None => Some(false),
    }
}

fn lower_case(alloc: Global, host: Option<Text>) -> Result<Option<Text>, NoMemory>
    ensures { IfOk result (λ lower. lower ≡ option_map str_to_ascii_lowercase host) }
{
    let Some(host) = host else {
        return Ok(None);
    };
    let lower = host.as_str().to_ascii_lowercase(alloc)?;
    Ok(Some(Text::build(lower)))
}
