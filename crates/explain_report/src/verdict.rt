// The answers to a request.
ghost use Rattle.std.specs.Prelude.{◌≡◌, ◌++◌, OnOk, OnErr, string_bytes};
ghost use Rattle.session_spec.specs.Output as spec;

use crate::names::{direction_name, operation_name, outcome_name};
use crate::text::{
    append, new_line, push_number_field, push_quoted, push_rule, push_text_field,
    push_text_or_null, push_word,
};
use crate::written::{Written, push_list};
use dnr_base::{Direction, Header, Items, NoMemory, Operation, RuleName, Text};
use dnr_verdict::{NamedOp, Verdict};
use rule_spec::Outcome;
use std::alloc::Global;

/// Appends what a request line of this number prints. `number` is the count of the updates before it.
///
/// `NoMemory`: no memory is left for it, and nothing is appended.
pub fn write_verdict(
    alloc: Global,
    line: u32,
    number: u32,
    verdict: &Verdict,
    into: &mut String,
) -> Result<(), NoMemory>
    ensures appended { OnOk result (string_bytes into.new ≡ string_bytes into.old
        ++ spec.verdict_line line number verdict.now) }
    ensures kept { OnErr result (string_bytes into.new ≡ string_bytes into.old) }
{
    let mut text = new_line(alloc)?;
    push_start(line, number, &mut text)?;
    push_verdict(alloc, verdict, &mut text)?;
    push_word("}\n", &mut text)?;
    append(&text, into)
}

/// Appends what a request line of this number prints where the pattern host failed at this rule.
///
/// `NoMemory`: no memory is left for it, and nothing is appended.
pub fn write_fault(
    alloc: Global,
    line: u32,
    number: u32,
    rule: &RuleName,
    into: &mut String,
) -> Result<(), NoMemory>
    ensures appended { OnOk result (string_bytes into.new ≡ string_bytes into.old
        ++ spec.fault_line line number rule.now) }
    ensures kept { OnErr result (string_bytes into.new ≡ string_bytes into.old) }
{
    let mut text = new_line(alloc)?;
    push_fault(alloc, line, number, rule, &mut text)?;
    append(&text, into)
}

pub(crate) fn push_fault(
    alloc: Global,
    line: u32,
    number: u32,
    rule: &RuleName,
    into: &mut String,
) -> Result<(), NoMemory>
    ensures { OnOk result (string_bytes into.new ≡ string_bytes into.old ++ spec.fault_line line number rule.now) }
{
    push_start(line, number, into)?;
    push_word(",\"fault\":\"pattern-host\",\"rule\":", into)?;
    push_rule(alloc, rule, into)?;
    push_word("}\n", into)
}

pub(crate) fn push_start(line: u32, number: u32, into: &mut String) -> Result<(), NoMemory>
    ensures { OnOk result (string_bytes into.new ≡ string_bytes into.old ++ spec.answer_start line number) }
{
    push_number_field("{\"line\":", line, into)?;
    push_number_field(",\"generation\":", number, into)
}

// Appends what becomes of a request, behind the number of the generation.
pub(crate) fn push_verdict(
    alloc: Global,
    verdict: &Verdict,
    into: &mut String,
) -> Result<(), NoMemory>
    ensures { OnOk result (string_bytes into.new ≡ string_bytes into.old ++ spec.verdict_fields verdict.now) }
{
    push_outcome(verdict.outcome, into)?;
    push_rule_field(alloc, &verdict.rule, into)?;
    push_url(alloc, &verdict.target, into)?;
    push_ops(alloc, verdict.ops.as_slice(), into)?;
    push_headers(alloc, "requestHeaders", &verdict.request_headers, into)?;
    push_headers(alloc, "responseHeaders", &verdict.response_headers, into)
}

pub(crate) fn push_outcome(outcome: Outcome, into: &mut String) -> Result<(), NoMemory>
    ensures { OnOk result (string_bytes into.new ≡ string_bytes into.old ++ spec.outcome_field outcome) }
{
    push_word(",\"verdict\":\"", into)?;
    push_word(outcome_name(outcome), into)?;
    push_word("\"", into)
}

// Appends the rule that decides, if there is one.
pub(crate) fn push_rule_field(
    alloc: Global,
    rule: &Option<RuleName>,
    into: &mut String,
) -> Result<(), NoMemory>
    ensures { OnOk result (string_bytes into.new ≡ string_bytes into.old ++ spec.rule_field rule.now) }
{
    let Some(rule) = rule else {
        return Ok(());
    };
    push_word(",\"rule\":", into)?;
    push_rule(alloc, rule, into)
}

// Appends where the request is sent, if it is sent elsewhere.
fn push_url(alloc: Global, target: &Option<Text>, into: &mut String) -> Result<(), NoMemory>
    ensures { OnOk result (string_bytes into.new ≡ string_bytes into.old ++ spec.url_field target.now) }
{
    let Some(target) = target else {
        return Ok(());
    };
    push_text_field(alloc, ",\"url\":", target.as_str(), into)
}

// Appends the operations that took effect, where there are any.
fn push_ops(alloc: Global, ops: &[NamedOp], into: &mut String) -> Result<(), NoMemory>
    ensures { OnOk result (string_bytes into.new ≡ string_bytes into.old ++ spec.ops_field ops.now) }
{
    if ops.is_empty() {
        return Ok(());
    }
    push_word(",\"ops\":", into)?;
    push_list(alloc, ops, into)
}

// Appends the list of headers under its key, where there is one.
fn push_headers(
    alloc: Global,
    key: &str,
    headers: &Option<Items<Header>>,
    into: &mut String,
) -> Result<(), NoMemory>
    ensures { OnOk result (string_bytes into.new ≡ string_bytes into.old ++ spec.headers_field key.now headers.now) }
{
    let Some(headers) = headers else {
        return Ok(());
    };
    push_word(",\"", into)?;
    push_word(key, into)?;
    push_word("\":", into)?;
    push_list(alloc, headers.as_slice(), into)
}

impl Written for NamedOp {
    ghost use Rattle.session_spec.specs.Output as spec;

    ghost text = { λ op. spec.op_text op };

    fn push(&self, alloc: Global, into: &mut String) -> Result<(), NoMemory> {
        push_op(alloc, self, into)
    }
}

fn push_op(alloc: Global, op: &NamedOp, into: &mut String) -> Result<(), NoMemory>
    ensures { OnOk result (string_bytes into.new ≡ string_bytes into.old ++ spec.op_text op.now) }
{
    push_change(op.direction, op.op.operation(), into)?;
    push_quoted(alloc, op.op.name(), into)?;
    push_word(",", into)?;
    push_text_or_null(alloc, op.op.value(), into)?;
    push_word(",", into)?;
    push_rule(alloc, &op.rule, into)?;
    push_word("]", into)
}

// Appends whose header an operation changes, and what it does.
fn push_change(
    direction: Direction,
    operation: Operation,
    into: &mut String,
) -> Result<(), NoMemory>
    ensures { OnOk result (string_bytes into.new ≡ string_bytes into.old ++ spec.change_text direction operation) }
{
    push_word("[\"", into)?;
    push_word(direction_name(direction), into)?;
    push_word("\",\"", into)?;
    push_word(operation_name(operation), into)?;
    push_word("\",", into)
}

impl Written for Header {
    ghost use Rattle.session_spec.specs.Output as spec;

    ghost text = { λ header. spec.header_text header };

    fn push(&self, alloc: Global, into: &mut String) -> Result<(), NoMemory> {
        push_header(alloc, self, into)
    }
}

fn push_header(alloc: Global, header: &Header, into: &mut String) -> Result<(), NoMemory>
    ensures { OnOk result (string_bytes into.new ≡ string_bytes into.old ++ spec.header_text header.now) }
{
    push_text_field(alloc, "[", header.name.as_str(), into)?;
    push_text_field(alloc, ",", header.value.as_str(), into)?;
    push_word("]", into)
}
