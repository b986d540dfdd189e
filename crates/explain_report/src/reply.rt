// The answers to lines that ask for no verdict, or get none.
ghost use Rattle.std.specs.Prelude.{◌≡◌, ◌++◌, decimal, OnOk, OnErr, string_bytes};
ghost use Rattle.session_spec.specs.Output as spec;

use crate::bad::push_bad;
use crate::rules::push_rule_fields;
use crate::text::{append, new_line, push_number_field, push_word};
use crate::updates::push_update_fields;
use crate::verdict::push_fault;
use dnr_base::NoMemory;
use rule_spec::PlacedRefusal;
use session_spec::Reply;
use std::alloc::Global;
use update_spec::Refusal;

/// Appends the answer to the line of this number.
///
/// `NoMemory`: no memory is left for it, and nothing is appended.
pub fn write_reply(
    alloc: Global,
    line: u32,
    reply: &Reply,
    into: &mut String,
) -> Result<(), NoMemory>
    ensures appended { OnOk result (string_bytes into.new ≡ string_bytes into.old ++ spec.reply_line line reply.now) }
    ensures kept { OnErr result (string_bytes into.new ≡ string_bytes into.old) }
{
    let mut text = new_line(alloc)?;
    push_reply(alloc, line, reply, &mut text)?;
    append(&text, into)
}

fn push_reply(alloc: Global, line: u32, reply: &Reply, into: &mut String) -> Result<(), NoMemory>
    ensures { OnOk result (string_bytes into.new ≡ string_bytes into.old ++ spec.reply_line line reply.now) }
{
    match reply {
        Reply::Accepted(count) => push_count(line, ",\"accepted\":", *count, into),
        Reply::Sync(count) => push_count(line, ",\"sync\":", *count, into),
        Reply::Refused(refusal) => push_refused(alloc, line, refusal, into),
        Reply::RuleRefused(refusal) => push_refused_rule(alloc, line, refusal, into),
        Reply::BatchRefused(place, refusal) => {
            push_refused_batch(alloc, line, *place, refusal, into)
        }
        Reply::BatchRule(place, refusal) => {
            push_refused_batch_rule(alloc, line, *place, refusal, into)
        }
        Reply::Bad(fault) => push_bad(alloc, line, fault, into),
        Reply::Fault(number, rule) => push_fault(alloc, line, *number, rule, into),
    }
}

// Appends a line of one count.
fn push_count(line: u32, key: &str, count: u32, into: &mut String) -> Result<(), NoMemory>
    ensures { OnOk result (string_bytes into.new ≡ string_bytes into.old ++ spec.counted_line line key.now count) }
{
    push_number_field("{\"line\":", line, into)?;
    push_number_field(key, count, into)?;
    push_word("}\n", into)
}

// Appends how the line begins of what is refused.
fn push_start(line: u32, into: &mut String) -> Result<(), NoMemory>
    ensures { OnOk result (string_bytes into.new ≡ string_bytes into.old ++ spec.refused_start line) }
{
    push_number_field("{\"line\":", line, into)?;
    push_word(",\"refused\":", into)
}

fn push_refused(
    alloc: Global,
    line: u32,
    refusal: &Refusal,
    into: &mut String,
) -> Result<(), NoMemory>
    ensures { OnOk result (string_bytes into.new ≡ string_bytes into.old ++ spec.refused_line line refusal.now) }
{
    push_start(line, into)?;
    push_update_fields(alloc, refusal, into)?;
    push_word("}\n", into)
}

pub(crate) fn push_refused_rule(
    alloc: Global,
    line: u32,
    refusal: &PlacedRefusal,
    into: &mut String,
) -> Result<(), NoMemory>
    ensures { OnOk result (string_bytes into.new ≡ string_bytes into.old ++ spec.refused_rule_line line refusal.now) }
{
    push_start(line, into)?;
    push_rule_fields(alloc, refusal, into)?;
    push_word("}\n", into)
}

fn push_refused_batch(
    alloc: Global,
    line: u32,
    place: u32,
    refusal: &Refusal,
    into: &mut String,
) -> Result<(), NoMemory>
    ensures { OnOk result (string_bytes into.new ≡ string_bytes into.old
        ++ spec.refused_batch_line line place refusal.now) }
{
    push_start(line, into)?;
    push_update_fields(alloc, refusal, into)?;
    push_number_field(",\"update\":", place, into)?;
    push_word("}\n", into)
}

pub(crate) fn push_refused_batch_rule(
    alloc: Global,
    line: u32,
    place: u32,
    refusal: &PlacedRefusal,
    into: &mut String,
) -> Result<(), NoMemory>
    ensures { OnOk result (string_bytes into.new ≡ string_bytes into.old
        ++ spec.refused_batch_rule_line line place refusal.now) }
{
    push_start(line, into)?;
    push_rule_fields(alloc, refusal, into)?;
    push_number_field(",\"update\":", place, into)?;
    push_word("}\n", into)
}
