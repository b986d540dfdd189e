// What is printed for a file that is refused.
ghost use Rattle.std.specs.Prelude.{◌≡◌, ◌++◌, codes, OnOk, OnErr, string_bytes};
ghost use Rattle.json.specs.Print.{quoted};
ghost use Rattle.json_spec.specs.RulesFile.{bad_json, bad_rules};
ghost use Rattle.load_spec.specs.Extensions.{bad_manifest};
ghost use Rattle.session_spec.specs.Refusals as spec;

use crate::rules::push_rule_fields;
use crate::text::{append, new_line, push_text_field, push_word};
use dnr_base::NoMemory;
use dnr_spec::SuffixRefusal;
use load_spec::ManifestPath;
use rule_spec::PlacedRefusal;
use std::alloc::Global;

/// Appends what a rules file of this name prints, or a manifest, that is no JSON.
///
/// `NoMemory`: no memory is left for it, and nothing is appended.
pub fn write_bad_json(alloc: Global, file: &str, into: &mut String) -> Result<(), NoMemory>
    ensures appended { OnOk result (string_bytes into.new ≡ string_bytes into.old
        ++ spec.refusal_line file.now bad_json) }
    ensures kept { OnErr result (string_bytes into.new ≡ string_bytes into.old) }
{
    let mut text = new_line(alloc)?;
    push_start(alloc, file, &mut text)?;
    push_word("\"bad-json\"}\n", &mut text)?;
    append(&text, into)
}

/// Appends what a rules file of this name prints of which a rule is refused.
///
/// `NoMemory`: no memory is left for it, and nothing is appended.
pub fn write_refused_rule(
    alloc: Global,
    file: &str,
    refusal: &PlacedRefusal,
    into: &mut String,
) -> Result<(), NoMemory>
    ensures appended { OnOk result (string_bytes into.new ≡ string_bytes into.old ++ spec.refusal_line file.now
        (bad_rules refusal.now)) }
    ensures kept { OnErr result (string_bytes into.new ≡ string_bytes into.old) }
{
    let mut text = new_line(alloc)?;
    push_start(alloc, file, &mut text)?;
    push_rule_fields(alloc, refusal, &mut text)?;
    push_word("}\n", &mut text)?;
    append(&text, into)
}

/// Appends what a manifest of this name prints of which this field is at fault.
///
/// `NoMemory`: no memory is left for it, and nothing is appended.
pub fn write_bad_manifest(
    alloc: Global,
    file: &str,
    field: ManifestPath,
    into: &mut String,
) -> Result<(), NoMemory>
    ensures appended { OnOk result (string_bytes into.new
        ≡ string_bytes into.old ++ spec.refused_file_line (record { file = file.now; cause = bad_manifest field })) }
    ensures kept { OnErr result (string_bytes into.new ≡ string_bytes into.old) }
{
    let mut text = new_line(alloc)?;
    push_start(alloc, file, &mut text)?;
    push_manifest_fields(field, &mut text)?;
    push_word("}\n", &mut text)?;
    append(&text, into)
}

fn push_manifest_fields(field: ManifestPath, into: &mut String) -> Result<(), NoMemory>
    ensures { OnOk result (string_bytes into.new ≡ string_bytes into.old ++ spec.cause_fields (bad_manifest field)) }
{
    let path = field.name();
    write!(into, "\"bad-manifest\",\"path\":\"{path}\"")?;
    Ok(())
}

/// Appends what a suffix list of this name prints that is refused.
///
/// `NoMemory`: no memory is left for it, and nothing is appended.
pub fn write_suffix_refusal(
    alloc: Global,
    file: &str,
    refusal: SuffixRefusal,
    into: &mut String,
) -> Result<(), NoMemory>
    ensures appended { OnOk result (string_bytes into.new ≡ string_bytes into.old
        ++ spec.suffixes_line file.now refusal) }
    ensures kept { OnErr result (string_bytes into.new ≡ string_bytes into.old) }
{
    let mut text = new_line(alloc)?;
    push_start(alloc, file, &mut text)?;
    push_suffix_fields(refusal, &mut text)?;
    push_word("}\n", &mut text)?;
    append(&text, into)
}

fn push_suffix_fields(refusal: SuffixRefusal, into: &mut String) -> Result<(), NoMemory>
    ensures { OnOk result (string_bytes into.new ≡ string_bytes into.old ++ spec.suffix_fields refusal) }
{
    match refusal {
        SuffixRefusal::NotUtf8 => into.push_str("\"not-utf8\"")?,
        SuffixRefusal::BadRule(line) => write!(into, "\"bad-suffix\",\"line\":{line}")?,
        SuffixRefusal::TooManyRules => into.push_str("\"too-many-rules\"")?,
        SuffixRefusal::NoMemory => into.push_str("\"no-memory\"")?,
    }
    Ok(())
}

/// Appends what a filter list of this name prints that gives so many rules, which is too many.
///
/// `NoMemory`: no memory is left for it, and nothing is appended.
pub fn write_too_many_rules(
    alloc: Global,
    file: &str,
    count: usize,
    into: &mut String,
) -> Result<(), NoMemory>
    ensures appended { OnOk result (string_bytes into.new ≡ string_bytes into.old ++ spec.list_line file.now
        (spec.too_many_rules count)) }
    ensures kept { OnErr result (string_bytes into.new ≡ string_bytes into.old) }
{
    let mut text = new_line(alloc)?;
    push_start(alloc, file, &mut text)?;
    write!(&mut text, "\"too-many-rules\",\"count\":{count}")?;
    push_word("}\n", &mut text)?;
    append(&text, into)
}

/// Appends what a filter list of this name prints where the pattern host failed at the line of this number, from 1.
///
/// `NoMemory`: no memory is left for it, and nothing is appended.
pub fn write_list_fault(
    alloc: Global,
    file: &str,
    line: u32,
    into: &mut String,
) -> Result<(), NoMemory>
    ensures appended { OnOk result (string_bytes into.new ≡ string_bytes into.old ++ spec.list_line file.now
        (spec.host_failed line)) }
    ensures kept { OnErr result (string_bytes into.new ≡ string_bytes into.old) }
{
    let mut text = new_line(alloc)?;
    push_start(alloc, file, &mut text)?;
    write!(&mut text, "\"pattern-host\",\"line\":{line}")?;
    push_word("}\n", &mut text)?;
    append(&text, into)
}

// How the line of a refused file begins.
fn push_start(alloc: Global, file: &str, into: &mut String) -> Result<(), NoMemory>
    ensures { OnOk result (string_bytes into.new ≡ string_bytes into.old ++ codes "{\"file\":" ++ quoted file.now ++ codes ",\"refused\":") }
{
    push_text_field(alloc, "{\"file\":", file, into)?;
    push_word(",\"refused\":", into)
}
