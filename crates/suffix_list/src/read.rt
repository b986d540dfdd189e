ghost use Rattle.std.specs.Prelude.{◌≡◌, ◌<◌, [], ◌∷◌, ◌++◌, length, string_bytes, IfOk, OnOk};
ghost use Rattle.std.specs.List.{position};
ghost use Rattle.std.specs.Option.{option_map, option_and_then};
ghost use Rattle.dnr_spec.specs.Hosts.{labels_of};
ghost use Rattle.dnr_spec.specs.Suffixes as spec;
ghost use Rattle.suffix_list.specs.Kept as kept;
ghost use Rattle.suffix_list.specs.Reading as reading;

use crate::label::read_label;
use crate::names::label_count;
use crate::rule::Rule;
use dnr_spec::{NoMemory, SuffixRefusal, split_first_label};
use std::alloc::Global;

// The most rules of a list.
const MAX_RULES: usize = 65536;

// The rules of a text, in the order of its lines.
pub fn read_rules(alloc: Global, text: &str) -> Result<Vec<Rule>, SuffixRefusal>
    requires { length text.now < 4294967295 }
    ensures { reading.IsReadText text.now result }
{
    let mut rules = Vec::new(alloc);
    let mut too_many = false;
    let mut number = 0;
    for line in text.split('\n') {
        number += 1;
        if let Some(rule) = read_line(alloc, line, number)? {
            if rules.len() < MAX_RULES {
                let Ok(()) = rules.push(rule) else {
                    return Err(SuffixRefusal::NoMemory);
                };
            } else {
                too_many = true;
            }
        }
    }
    if too_many {
        return Err(SuffixRefusal::TooManyRules);
    }
    Ok(rules)
}

// The rule of a line, or none where it is empty or a comment.
#[tactic(auto, unfolding(crate::specs::Reading::read_line))]
fn read_line(alloc: Global, line: &str, number: u32) -> Result<Option<Rule>, SuffixRefusal>
    ensures { reading.IsReadLine line.now number result }
{
    let word = word_of(line);
    if word.is_empty() || word.as_bytes().starts_with(b"//") {
        return Ok(None);
    }
    match read_word(alloc, word) {
        Ok(Some(rule)) => Ok(Some(rule)),
        Ok(None) => Err(SuffixRefusal::BadRule(number)),
        Err(NoMemory) => Err(SuffixRefusal::NoMemory),
    }
}

// What stands before the first white space.
fn word_of(line: &str) -> &str
    ensures { result.now ≡ spec.word_of line.now }
{
    match white_at(line.as_bytes()) {
        Some(end) => &line[..end],
        None => line,
    }
}

fn white_at(line: &[u8]) -> Option<usize>
    ensures { result ≡ position spec.is_white line.now }
{
    line.iter().position(|b| is_white(*b))
}

fn is_white(byte: u8) -> bool
    ensures { result ≡ spec.is_white byte }
{
    byte == b' ' || (9 <= byte && byte <= 13)
}

// The rule of a word, or none where it is no rule.
fn read_word(alloc: Global, word: &str) -> Result<Option<Rule>, NoMemory>
    ensures { IfOk result (λ rule. option_map kept.seen rule ≡ spec.read_rule word.now) }
{
    match word.strip_prefix("!") {
        Some(rest) => read_rule(alloc, true, rest),
        None => read_rule(alloc, false, word),
    }
}

// The rule of these labels, or none where one is no label or an exception has no other.
fn read_rule(alloc: Global, exception: bool, word: &str) -> Result<Option<Rule>, NoMemory>
    ensures { IfOk result (λ rule. option_map kept.seen rule
        ≡ option_and_then (spec.rule_of exception) (spec.read_labels (labels_of word.now))) }
{
    let Some(text) = read_labels(alloc, word)? else {
        return Ok(None);
    };
    if exception && label_count(text.as_str()) == 1 {
        return Ok(None);
    }
    Ok(Some(Rule { exception, text }))
}

// The labels as hosts have them, a dot between each two, or none where one is no label.
fn read_labels(alloc: Global, word: &str) -> Result<Option<String>, NoMemory>
    ensures { IfOk result (λ text. option_map kept.labels_in text ≡ spec.read_labels (labels_of word.now)) }
{
    let (first, mut rest) = split_first_label(word);
    let Some(mut text) = read_label(alloc, first)? else {
        return Ok(None);
    };
    while let Some(others) = rest {
        let (label, more) = split_first_label(others);
        let Some(label) = read_label(alloc, label)? else {
            return Ok(None);
        };
        add_label(&mut text, label.as_str())?;
        rest = more;
    }
    Ok(Some(text))
}

fn add_label(text: &mut String, label: &str) -> Result<(), NoMemory>
    ensures { OnOk result (string_bytes text.new ≡ (string_bytes text.old ++ 46 ∷ []) ++ label.now) }
{
    text.push('.')?;
    text.push_str(label)?;
    Ok(())
}
