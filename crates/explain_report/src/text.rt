// Texts, numbers and rules in a line, and how a whole line is appended.
ghost use Rattle.std.specs.Prelude.{◌≡◌, ◌++◌, [], true, IfOk, OnOk, OnErr, string_bytes};
ghost use Rattle.std.specs.List.{list_all};
ghost use Rattle.std.specs.Option.{option_copied};
ghost use Rattle.explain_report.specs.Plain.{is_plain};
ghost use Rattle.json.specs.Print.{quoted};
ghost use Rattle.session_spec.specs.Output as spec;

use dnr_base::{NoMemory, RuleName};
use itoa::{Buffer, Integer};
use serde_json::Value;
use std::alloc::Global;

// Most lines are shorter, in bytes.
const USUAL_LENGTH: usize = 192;

// An empty text with room for most lines. A line is made in one of its own, so that one for which no memory is left
// leaves nothing of itself behind.
pub(crate) fn new_line(alloc: Global) -> Result<String, NoMemory>
    ensures { IfOk result (λ text. string_bytes text ≡ []) }
{
    Ok(String::with_capacity(alloc, USUAL_LENGTH)?)
}

// Appends a line that is whole, or nothing.
pub(crate) fn append(line: &String, into: &mut String) -> Result<(), NoMemory>
    ensures appended { OnOk result (string_bytes into.new ≡ string_bytes into.old ++ string_bytes line.now) }
    ensures kept { OnErr result (string_bytes into.new ≡ string_bytes into.old) }
{
    into.push_str(line.as_str())?;
    Ok(())
}

/// The text as a JSON string, with its quotes.
///
/// `NoMemory`: no memory is left for it.
pub fn quoted_text(alloc: Global, text: &str) -> Result<String, NoMemory>
    ensures { IfOk result (λ written. string_bytes written ≡ quoted text.now) }
{
    let text = Value::String(String::from_str(alloc, text)?);
    Ok(text.to_string(alloc)?)
}

// Appends the text as a JSON string, with its quotes. Where nothing of it is escaped it is appended as it stands.
pub(crate) fn push_quoted(alloc: Global, text: &str, into: &mut String) -> Result<(), NoMemory>
    ensures { OnOk result (string_bytes into.new ≡ string_bytes into.old ++ quoted text.now) }
{
    if are_plain(text.as_bytes()) {
        return push_plain(text, into);
    }
    let text = quoted_text(alloc, text)?;
    into.push_str(text.as_str())?;
    Ok(())
}

fn push_plain(text: &str, into: &mut String) -> Result<(), NoMemory>
    requires { list_all is_plain text.now ≡ true }
    ensures { OnOk result (string_bytes into.new ≡ string_bytes into.old ++ quoted text.now) }
{
    into.push_str("\"")?;
    into.push_str(text)?;
    into.push_str("\"")?;
    Ok(())
}

// Whether each byte stands in a JSON string as itself.
fn are_plain(bytes: &[u8]) -> bool
    ensures { result ≡ list_all is_plain bytes.now }
{
    bytes
        .iter()
        .all(|byte| *byte >= b' ' && *byte != b'"' && *byte != b'\\')
}

// Appends the text as a JSON string, or null where there is none.
pub(crate) fn push_text_or_null(
    alloc: Global,
    text: Option<&str>,
    into: &mut String,
) -> Result<(), NoMemory>
    ensures { OnOk result (string_bytes into.new ≡ string_bytes into.old ++ spec.text_or_null
        (option_copied text.entry)) }
{
    match text {
        Some(text) => push_quoted(alloc, text, into),
        None => push_word("null", into),
    }
}

pub(crate) fn push_word(word: &str, into: &mut String) -> Result<(), NoMemory>
    ensures { OnOk result (string_bytes into.new ≡ string_bytes into.old ++ word.now) }
{
    into.push_str(word)?;
    Ok(())
}

// Appends the digits of the number, behind a sign where it is negative.
pub(crate) fn push_number<I: Integer>(number: I, into: &mut String) -> Result<(), NoMemory>
    ensures { OnOk result (string_bytes into.new ≡ string_bytes into.old ++ I.text number) }
{
    let mut digits = Buffer::new();
    into.push_str(digits.format(number))?;
    Ok(())
}

// Appends a field of a number: a comma and its key, and the number.
pub(crate) fn push_number_field<I: Integer>(
    key: &str,
    number: I,
    into: &mut String,
) -> Result<(), NoMemory>
    ensures { OnOk result (string_bytes into.new ≡ string_bytes into.old ++ (key.now ++ I.text number)) }
{
    into.push_str(key)?;
    push_number(number, into)
}

// Appends a field of a text: a comma and its key, and the text.
pub(crate) fn push_text_field(
    alloc: Global,
    key: &str,
    text: &str,
    into: &mut String,
) -> Result<(), NoMemory>
    ensures { OnOk result (string_bytes into.new ≡ string_bytes into.old ++ (key.now ++ quoted text.now)) }
{
    into.push_str(key)?;
    push_quoted(alloc, text, into)
}

// Appends a rule by the extension and the ruleset that it stands in.
pub(crate) fn push_rule(alloc: Global, rule: &RuleName, into: &mut String) -> Result<(), NoMemory>
    ensures { OnOk result (string_bytes into.new ≡ string_bytes into.old ++ spec.rule_text rule.now) }
{
    push_text_field(alloc, "[", rule.ext.as_str(), into)?;
    push_text_field(alloc, ",", rule.set.as_str(), into)?;
    push_number_field(",", rule.id, into)?;
    push_word("]", into)
}
