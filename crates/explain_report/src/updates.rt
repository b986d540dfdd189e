// What is written of an update that is refused, and of an extension that is not installed.
ghost use Rattle.std.specs.Prelude.{◌≡◌, ◌++◌, OnOk, OnErr, string_bytes};
ghost use Rattle.session_spec.specs.Refusals as spec;

use crate::text::{append, new_line, push_number_field, push_text_field, push_word};
use dnr_base::NoMemory;
use std::alloc::Global;
use update_spec::Refusal;

/// Appends what an extension of this name prints that is not installed.
///
/// `NoMemory`: no memory is left for it, and nothing is appended.
pub fn write_install_refusal(
    alloc: Global,
    extension: &str,
    refusal: &Refusal,
    into: &mut String,
) -> Result<(), NoMemory>
    ensures appended { OnOk result (string_bytes into.new
        ≡ string_bytes into.old ++ spec.install_line (record { extension = extension.now; cause = refusal.now })) }
    ensures kept { OnErr result (string_bytes into.new ≡ string_bytes into.old) }
{
    let mut text = new_line(alloc)?;
    push_text_field(alloc, "{\"extension\":", extension, &mut text)?;
    push_word(",\"refused\":", &mut text)?;
    push_code(update_code(refusal), &mut text)?;
    push_field_unless_named(alloc, refusal, &mut text)?;
    push_word("}\n", &mut text)?;
    append(&text, into)
}

// Appends the code of a refused update, and its field.
pub(crate) fn push_update_fields(
    alloc: Global,
    refusal: &Refusal,
    into: &mut String,
) -> Result<(), NoMemory>
    ensures { OnOk result (string_bytes into.new ≡ string_bytes into.old ++ spec.update_fields refusal.now) }
{
    push_code(update_code(refusal), into)?;
    push_update_field(alloc, refusal, into)
}

// Appends the code of a refusal in its quotes.
fn push_code(code: &str, into: &mut String) -> Result<(), NoMemory>
    ensures { OnOk result (string_bytes into.new ≡ string_bytes into.old ++ spec.code_text code.now) }
{
    push_word("\"", into)?;
    push_word(code, into)?;
    push_word("\"", into)
}

// Appends what a refusal adds to its code where the extension is named already.
fn push_field_unless_named(
    alloc: Global,
    refusal: &Refusal,
    into: &mut String,
) -> Result<(), NoMemory>
    ensures { OnOk result (string_bytes into.new
        ≡ string_bytes into.old ++ spec.update_field (spec.unless_named (spec.update_detail refusal.now))) }
{
    match refusal {
        Refusal::NoExtension(_) | Refusal::ExtensionThere(_) => Ok(()),
        _ => push_update_field(alloc, refusal, into),
    }
}

// Appends what a refusal adds to its code.
fn push_update_field(alloc: Global, refusal: &Refusal, into: &mut String) -> Result<(), NoMemory>
    ensures { OnOk result (string_bytes into.new ≡ string_bytes into.old ++ spec.update_field
        (spec.update_detail refusal.now)) }
{
    match refusal {
        Refusal::NoExtension(name) | Refusal::ExtensionThere(name) => {
            push_text_field(alloc, ",\"extension\":", name.as_str(), into)
        }
        Refusal::NoRuleset(id) => push_text_field(alloc, ",\"ruleset\":", id.as_str(), into),
        Refusal::DuplicateId(id) => push_number_field(",\"id\":", *id, into),
        Refusal::NoStaticRule(id) | Refusal::BothLists(id) => {
            push_number_field(",\"id\":", *id, into)
        }
        Refusal::ExtensionLimit(count)
        | Refusal::RulesetLimit(count)
        | Refusal::RulesLimit(count)
        | Refusal::EnabledLimit(count)
        | Refusal::PoolLimit(count)
        | Refusal::DynamicLimit(count)
        | Refusal::UnsafeLimit(count)
        | Refusal::SessionLimit(count)
        | Refusal::RegexLimit(count)
        | Refusal::DisabledLimit(count)
        | Refusal::TooManyUpdates(count) => push_number_field(",\"count\":", *count, into),
        Refusal::NoMemory => Ok(()),
    }
}

fn update_code(refusal: &Refusal) -> &'static str
    ensures { result.now ≡ spec.update_code refusal.now }
{
    match refusal {
        Refusal::NoExtension(_) => "no-extension",
        Refusal::ExtensionThere(_) => "extension-there",
        Refusal::NoRuleset(_) => "no-ruleset",
        Refusal::DuplicateId(_) => "duplicate-id",
        Refusal::NoStaticRule(_) => "no-static-rule",
        Refusal::BothLists(_) => "both-lists",
        Refusal::ExtensionLimit(_) => "extension-limit",
        Refusal::RulesetLimit(_) => "ruleset-limit",
        Refusal::RulesLimit(_) => "rules-limit",
        Refusal::EnabledLimit(_) => "enabled-limit",
        Refusal::PoolLimit(_) => "pool-limit",
        Refusal::DynamicLimit(_) => "dynamic-limit",
        Refusal::UnsafeLimit(_) => "unsafe-limit",
        Refusal::SessionLimit(_) => "session-limit",
        Refusal::RegexLimit(_) => "regex-limit",
        Refusal::DisabledLimit(_) => "disabled-limit",
        Refusal::TooManyUpdates(_) => "too-many-updates",
        Refusal::NoMemory => "no-memory",
    }
}
