// What `check` and `compile` print of what they read.
ghost use Rattle.std.specs.Prelude.{◌≡◌, ◌++◌, codes, decimal, OnOk, OnErr, string_bytes};
ghost use Rattle.std.specs.Option.{option_copied};
ghost use Rattle.session_spec.specs.Refusals as spec;

use crate::text::{append, new_line, push_number_field, push_text_field, push_word};
use compile_spec::Reported;
use dnr_base::NoMemory;
use list_spec::Reason;
use std::alloc::Global;

/// Appends what `check` prints of a file of so many rules, and `compile` of a list that gives so many.
///
/// `NoMemory`: no memory is left for it, and nothing is appended.
pub fn write_count(alloc: Global, count: usize, into: &mut String) -> Result<(), NoMemory>
    ensures appended { OnOk result (string_bytes into.new ≡ string_bytes into.old ++ spec.count_line count) }
    ensures kept { OnErr result (string_bytes into.new ≡ string_bytes into.old) }
{
    let mut text = new_line(alloc)?;
    push_number_field("{\"rules\":", count, &mut text)?;
    push_word("}\n", &mut text)?;
    append(&text, into)
}

/// Appends what `compile` prints of a line that gives no rule.
///
/// `NoMemory`: no memory is left for it, and nothing is appended.
pub fn write_unsupported(
    alloc: Global,
    reported: &Reported,
    into: &mut String,
) -> Result<(), NoMemory>
    ensures appended { OnOk result (string_bytes into.new ≡ string_bytes into.old
        ++ spec.unsupported_line reported.now) }
    ensures kept { OnErr result (string_bytes into.new ≡ string_bytes into.old) }
{
    let mut text = new_line(alloc)?;
    push_unsupported(reported.line, reason_code(&reported.reason), &mut text)?;
    push_name_field(alloc, option_at_fault(&reported.reason), &mut text)?;
    push_word("}\n", &mut text)?;
    append(&text, into)
}

// How the line begins that says so of a line of a list.
pub(crate) fn push_unsupported(line: u32, code: &str, into: &mut String) -> Result<(), NoMemory>
    ensures { OnOk result (string_bytes into.new
        ≡ string_bytes into.old ++ (codes "{\"line\":" ++ (decimal line
        ++ (codes ",\"unsupported\":\"" ++ (code.now ++ codes "\""))))) }
{
    push_number_field("{\"line\":", line, into)?;
    push_word(",\"unsupported\":\"", into)?;
    push_word(code, into)?;
    push_word("\"", into)
}

fn push_name_field(alloc: Global, name: Option<&str>, into: &mut String) -> Result<(), NoMemory>
    ensures { OnOk result (string_bytes into.new ≡ string_bytes into.old ++ spec.name_field
        (option_copied name.entry)) }
{
    let Some(name) = name else {
        return Ok(());
    };
    push_text_field(alloc, ",\"name\":", name, into)
}

// The option that is at fault, if one is.
fn option_at_fault(reason: &Reason) -> Option<&str>
    ensures { option_copied result ≡ spec.option_at_fault reason.now }
{
    match reason {
        Reason::UnknownOption(name) | Reason::OptionValue(name) => Some(name.as_str()),
        _ => None,
    }
}

fn reason_code(reason: &Reason) -> &'static str
    ensures { result.now ≡ spec.reason_code reason.now }
{
    match reason {
        Reason::LineTooLong => "line-too-long",
        Reason::ElementHiding => "element-hiding",
        Reason::NotAscii => "not-ascii",
        Reason::Space => "space",
        Reason::UnknownOption(_) => "unknown-option",
        Reason::OptionValue(_) => "option-value",
        Reason::DocumentOnBlock => "document-on-block",
        Reason::BadDomain => "bad-domain",
        Reason::EmptyPattern => "empty-pattern",
        Reason::AnchorStar => "anchor-star",
        Reason::BadRegex => "bad-regex",
    }
}
