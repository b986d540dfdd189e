// Why a request fares as it does.
ghost use Rattle.std.specs.Prelude.{◌≡◌, ◌++◌, OnOk, OnErr, string_bytes};
ghost use Rattle.session_spec.specs.Output as spec;

use crate::names::verb_name;
use crate::text::{
    append, new_line, push_number, push_number_field, push_rule, push_text_field, push_word,
};
use crate::verdict::{push_start, push_verdict};
use crate::written::{Written, push_list};
use dnr_base::NoMemory;
use dnr_verdict::{Explanation, Why, WhyRule};
use std::alloc::Global;

/// Appends what an explain line of this number prints. `number` is the count of the updates before it.
///
/// `NoMemory`: no memory is left for it, and nothing is appended.
pub fn write_explain(
    alloc: Global,
    line: u32,
    number: u32,
    explanation: &Explanation,
    into: &mut String,
) -> Result<(), NoMemory>
    ensures appended { OnOk result (string_bytes into.new ≡ string_bytes into.old
        ++ spec.explain_line line number explanation.now) }
    ensures kept { OnErr result (string_bytes into.new ≡ string_bytes into.old) }
{
    let mut text = new_line(alloc)?;
    push_start(line, number, &mut text)?;
    push_verdict(alloc, &explanation.verdict, &mut text)?;
    push_word(",\"why\":", &mut text)?;
    push_list(alloc, explanation.why.as_slice(), &mut text)?;
    push_word("}\n", &mut text)?;
    append(&text, into)
}

impl Written for Why {
    ghost use Rattle.session_spec.specs.Output as spec;

    ghost text = { λ why. spec.why_text why };

    fn push(&self, alloc: Global, into: &mut String) -> Result<(), NoMemory> {
        push_why(alloc, self, into)
    }
}

// Appends what one extension says.
fn push_why(alloc: Global, why: &Why, into: &mut String) -> Result<(), NoMemory>
    ensures { OnOk result (string_bytes into.new ≡ string_bytes into.old ++ spec.why_text why.now) }
{
    push_text_field(alloc, "{\"extension\":", why.ext.as_str(), into)?;
    push_word(",\"rule\":", into)?;
    push_winner(alloc, &why.winner, into)?;
    push_word("}", into)
}

fn push_winner(alloc: Global, winner: &Option<WhyRule>, into: &mut String) -> Result<(), NoMemory>
    ensures { OnOk result (string_bytes into.new ≡ string_bytes into.old ++ spec.winner_text winner.now) }
{
    match winner {
        Some(why) => push_why_rule(alloc, why, into),
        None => push_word("null", into),
    }
}

fn push_why_rule(alloc: Global, why: &WhyRule, into: &mut String) -> Result<(), NoMemory>
    ensures { OnOk result (string_bytes into.new ≡ string_bytes into.old ++ spec.why_rule_text why.now) }
{
    push_rule(alloc, &why.rule, into)?;
    push_word(",\"action\":\"", into)?;
    push_word(verb_name(why.verb), into)?;
    push_number_field("\",\"priority\":", why.priority, into)?;
    push_frame(why.frame, into)?;
    push_lines(alloc, why.lines.as_slice(), into)
}

// Appends the frame by which alone the rule reaches the request, if it does so.
fn push_frame(place: Option<u32>, into: &mut String) -> Result<(), NoMemory>
    ensures { OnOk result (string_bytes into.new ≡ string_bytes into.old ++ spec.frame_field place) }
{
    let Some(place) = place else {
        return Ok(());
    };
    push_number_field(",\"frame\":", place, into)
}

// Appends the lines of a filter list that the rule comes from, if it comes from one.
fn push_lines(alloc: Global, lines: &[u32], into: &mut String) -> Result<(), NoMemory>
    ensures { OnOk result (string_bytes into.new ≡ string_bytes into.old ++ spec.lines_field lines.now) }
{
    if lines.is_empty() {
        return Ok(());
    }
    push_word(",\"lines\":", into)?;
    push_list(alloc, lines, into)
}

impl Written for u32 {
    ghost use Rattle.std.specs.Prelude.{decimal};

    ghost text = { λ number. decimal number };

    fn push(&self, _alloc: Global, into: &mut String) -> Result<(), NoMemory> {
        push_number(*self, into)
    }
}
