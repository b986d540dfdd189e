// Where a request leads.
ghost use Rattle.std.specs.Prelude.{◌≡◌, ◌++◌, OnOk, OnErr, string_bytes};
ghost use Rattle.session_spec.specs.Output as spec;

use crate::names::end_name;
use crate::text::{append, new_line, push_number_field, push_rule, push_text_field, push_word};
use crate::verdict::{push_outcome, push_rule_field};
use crate::written::{Written, push_list};
use dnr_base::{NoMemory, RuleName};
use follow_spec::End;
use follow_trace::{Hop, Trace};
use std::alloc::Global;

/// Appends what a request line of this number prints that is followed.
///
/// `NoMemory`: no memory is left for it, and nothing is appended.
pub fn write_trace(
    alloc: Global,
    line: u32,
    trace: &Trace,
    into: &mut String,
) -> Result<(), NoMemory>
    ensures appended { OnOk result (string_bytes into.new ≡ string_bytes into.old ++ spec.trace_line line trace.now) }
    ensures kept { OnErr result (string_bytes into.new ≡ string_bytes into.old) }
{
    let mut text = new_line(alloc)?;
    push_start(line, &mut text)?;
    push_list(alloc, trace.hops.as_slice(), &mut text)?;
    push_end(trace.end, &mut text)?;
    append(&text, into)
}

fn push_start(line: u32, into: &mut String) -> Result<(), NoMemory>
    ensures { OnOk result (string_bytes into.new ≡ string_bytes into.old ++ spec.trace_start line) }
{
    push_number_field("{\"line\":", line, into)?;
    push_word(",\"hops\":", into)
}

fn push_end(end: End, into: &mut String) -> Result<(), NoMemory>
    ensures { OnOk result (string_bytes into.new ≡ string_bytes into.old ++ spec.end_field end) }
{
    push_word(",\"end\":\"", into)?;
    push_word(end_name(end), into)?;
    push_word("\"}\n", into)
}

impl Written for Hop {
    ghost use Rattle.session_spec.specs.Output as spec;

    ghost text = { λ hop. spec.hop_text hop };

    fn push(&self, alloc: Global, into: &mut String) -> Result<(), NoMemory> {
        push_hop(alloc, self, into)
    }
}

// Appends what becomes of the request at one hop, and by which rule.
fn push_hop(alloc: Global, hop: &Hop, into: &mut String) -> Result<(), NoMemory>
    ensures { OnOk result (string_bytes into.new ≡ string_bytes into.old ++ spec.hop_text hop.now) }
{
    push_text_field(alloc, "{\"url\":", hop.url.as_str(), into)?;
    push_outcome(hop.verdict.outcome, into)?;
    push_rule_field(alloc, &hop.verdict.rule, into)?;
    push_word("}", into)
}

/// Appends what a request line of this number prints where the pattern host failed at this rule, at the hop of this place.
///
/// `NoMemory`: no memory is left for it, and nothing is appended.
pub fn write_hop_fault(
    alloc: Global,
    line: u32,
    hop: u32,
    rule: &RuleName,
    into: &mut String,
) -> Result<(), NoMemory>
    ensures appended { OnOk result (string_bytes into.new ≡ string_bytes into.old
        ++ spec.hop_fault_line line hop rule.now) }
    ensures kept { OnErr result (string_bytes into.new ≡ string_bytes into.old) }
{
    let mut text = new_line(alloc)?;
    push_hop_fault(alloc, line, hop, rule, &mut text)?;
    append(&text, into)
}

fn push_hop_fault(
    alloc: Global,
    line: u32,
    hop: u32,
    rule: &RuleName,
    into: &mut String,
) -> Result<(), NoMemory>
    ensures { OnOk result (string_bytes into.new ≡ string_bytes into.old ++ spec.hop_fault_line line hop rule.now) }
{
    push_number_field("{\"line\":", line, into)?;
    push_number_field(",\"fault\":\"pattern-host\",\"hop\":", hop, into)?;
    push_word(",\"rule\":", into)?;
    push_rule(alloc, rule, into)?;
    push_word("}\n", into)
}
