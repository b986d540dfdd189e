// Lines that can't be read.
ghost use Rattle.std.specs.Prelude.{◌≡◌, ◌++◌, codes, OnOk, OnErr, string_bytes};
ghost use Rattle.session_spec.specs.Output as spec;

use crate::names::view_why;
use crate::reply::{push_refused_batch_rule, push_refused_rule};
use crate::text::{append, new_line, push_number_field, push_word};
use dnr_base::NoMemory;
use dnr_spec::ViewRefusal;
use line_spec::{CommandPath, LineFault};
use std::alloc::Global;

/// Appends what a line of this number prints that can't be read.
///
/// `NoMemory`: no memory is left for it, and nothing is appended.
pub fn write_bad(
    alloc: Global,
    line: u32,
    fault: &LineFault,
    into: &mut String,
) -> Result<(), NoMemory>
    ensures appended { OnOk result (string_bytes into.new ≡ string_bytes into.old ++ spec.bad_line line fault.now) }
    ensures kept { OnErr result (string_bytes into.new ≡ string_bytes into.old) }
{
    let mut text = new_line(alloc)?;
    push_bad(alloc, line, fault, &mut text)?;
    append(&text, into)
}

pub(crate) fn push_bad(
    alloc: Global,
    line: u32,
    fault: &LineFault,
    into: &mut String,
) -> Result<(), NoMemory>
    ensures { OnOk result (string_bytes into.new ≡ string_bytes into.old ++ spec.bad_line line fault.now) }
{
    match fault {
        LineFault::BadJson => push_bad_with(line, "\"json\"", into),
        LineFault::BadCommand(field) => push_bad_command(line, *field, into),
        LineFault::BadUrl(field, refusal) => push_bad_url(line, *field, *refusal, into),
        LineFault::RuleRefused(refusal) => push_refused_rule(alloc, line, refusal, into),
        LineFault::InBatch(place, refusal) => {
            push_refused_batch_rule(alloc, line, *place, refusal, into)
        }
        LineFault::NoMemory => push_bad_with(line, "\"no-memory\"", into),
    }
}

fn push_bad_with(line: u32, fields: &str, into: &mut String) -> Result<(), NoMemory>
    ensures { OnOk result (string_bytes into.new ≡ string_bytes into.old ++ spec.bad_with line fields.now) }
{
    push_start(line, into)?;
    push_word(fields, into)?;
    push_word("}\n", into)
}

// Appends which field of a line is at fault.
fn push_bad_command(line: u32, field: CommandPath, into: &mut String) -> Result<(), NoMemory>
    ensures { OnOk result (string_bytes into.new ≡ string_bytes into.old ++ spec.bad_with line
        (spec.command_fields field)) }
{
    push_start(line, into)?;
    push_command_fields(field.name(), into)?;
    push_word("}\n", into)
}

fn push_command_fields(path: &str, into: &mut String) -> Result<(), NoMemory>
    ensures { OnOk result (string_bytes into.new
        ≡ string_bytes into.old ++ (codes "\"command\",\"path\":\"" ++ (path.now ++ codes "\""))) }
{
    push_word("\"command\",\"path\":\"", into)?;
    push_word(path, into)?;
    push_word("\"", into)
}

// Appends which field's text is no URL, and why.
fn push_bad_url(
    line: u32,
    field: CommandPath,
    refusal: ViewRefusal,
    into: &mut String,
) -> Result<(), NoMemory>
    ensures { OnOk result (string_bytes into.new ≡ string_bytes into.old ++ spec.bad_with line
        (spec.url_fields field refusal)) }
{
    push_start(line, into)?;
    push_url_fields(field.name(), view_why(refusal), into)?;
    push_word("}\n", into)
}

fn push_url_fields(path: &str, why: &str, into: &mut String) -> Result<(), NoMemory>
    ensures { OnOk result (string_bytes into.new
        ≡ string_bytes into.old ++ (codes "\"url\",\"path\":\"" ++ (path.now ++ (codes "\",\"why\":\"" ++ (why.now ++ codes "\""))))) }
{
    push_word("\"url\",\"path\":\"", into)?;
    push_word(path, into)?;
    push_word("\",\"why\":\"", into)?;
    push_word(why, into)?;
    push_word("\"", into)
}

fn push_start(line: u32, into: &mut String) -> Result<(), NoMemory>
    ensures { OnOk result (string_bytes into.new ≡ string_bytes into.old ++ spec.bad_start line) }
{
    push_number_field("{\"line\":", line, into)?;
    push_word(",\"bad\":", into)
}
