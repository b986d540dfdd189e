// The commands.
ghost use Rattle.std.specs.Prelude.{◌≡◌, map, option_map, string_bytes};
ghost use Rattle.session_spec.specs.Words as spec;
ghost use Rattle.dnr_words.specs.Seen.{task_seen};

use crate::names::{is_file_name, is_page_host, kind_named};
use crate::sample::{Sample, read_sample};
use crate::serving::{Serving, serving_in};
use rule_spec::RuleKind;

/// What a run is asked to do.
#[derive(Debug, Drop)]
pub enum Task<'a> {
    /// `match RULES REQUESTS`: the file of the rules, and that of the request lines.
    Match(&'a str, &'a str),
    /// `follow RULES REQUESTS`: the same files.
    Follow(&'a str, &'a str),
    /// `check KIND RULES`: where the rules come from, and their file.
    Check(RuleKind, &'a str),
    /// `compile LIST`: the file of the filter list.
    Compile(&'a str),
    /// `serve [--workers N] [--psl F] [--ext NAME].. [--list NAME=F].. SCRIPT`: a session.
    Serve(Serving<'a>),
    /// `sample SEED RULES REQUESTS UPDATES`: a session that is made from a number.
    Sample(Sample),
    /// `hide LIST HOST`: the file of the filter list, and the host of the page.
    Hide(&'a str, &'a str),
    /// `prune RULES`: the file of the rules.
    Prune(&'a str),
}

/// The command that the words after the program's name say, if they say one. It takes no memory.
pub fn read_words(words: &[String]) -> Option<Task<'_>>
    ensures { option_map task_seen result ≡ spec.task_of (map string_bytes words.now) }
{
    let (command, words) = words.split_first()?;
    match command.as_str() {
        "match" => match_in(words),
        "check" => check_in(words),
        "compile" => compile_in(words),
        "serve" => serving_in(words).map(Task::Serve),
        "sample" => sample_in(words),
        "hide" => hide_in(words),
        "prune" => prune_in(words),
        "follow" => follow_in(words),
        _ => None,
    }
}

fn match_in(words: &[String]) -> Option<Task<'_>>
    ensures { option_map task_seen result ≡ spec.match_of (map string_bytes words.now) }
{
    let [rules, script] = words else {
        return None;
    };
    let (rules, script) = (rules.as_str(), script.as_str());
    if is_file_name(rules) && is_file_name(script) {
        Some(Task::Match(rules, script))
    } else {
        None
    }
}

fn follow_in(words: &[String]) -> Option<Task<'_>>
    ensures { option_map task_seen result ≡ spec.follow_of (map string_bytes words.now) }
{
    let [rules, script] = words else {
        return None;
    };
    let (rules, script) = (rules.as_str(), script.as_str());
    if is_file_name(rules) && is_file_name(script) {
        Some(Task::Follow(rules, script))
    } else {
        None
    }
}

fn check_in(words: &[String]) -> Option<Task<'_>>
    ensures { option_map task_seen result ≡ spec.check_of (map string_bytes words.now) }
{
    let [kind, rules] = words else {
        return None;
    };
    if !is_file_name(rules.as_str()) {
        return None;
    }
    let kind = kind_named(kind.as_str())?;
    Some(Task::Check(kind, rules.as_str()))
}

fn compile_in(words: &[String]) -> Option<Task<'_>>
    ensures { option_map task_seen result ≡ spec.compile_of (map string_bytes words.now) }
{
    let [list] = words else {
        return None;
    };
    let list = list.as_str();
    if is_file_name(list) {
        Some(Task::Compile(list))
    } else {
        None
    }
}

fn hide_in(words: &[String]) -> Option<Task<'_>>
    ensures { option_map task_seen result ≡ spec.hide_of (map string_bytes words.now) }
{
    let [list, host] = words else {
        return None;
    };
    let (list, host) = (list.as_str(), host.as_str());
    if is_file_name(list) && is_page_host(host) {
        Some(Task::Hide(list, host))
    } else {
        None
    }
}

fn prune_in(words: &[String]) -> Option<Task<'_>>
    ensures { option_map task_seen result ≡ spec.prune_of (map string_bytes words.now) }
{
    let [rules] = words else {
        return None;
    };
    let rules = rules.as_str();
    if is_file_name(rules) {
        Some(Task::Prune(rules))
    } else {
        None
    }
}

fn sample_in(words: &[String]) -> Option<Task<'_>>
    ensures { option_map task_seen result ≡ spec.make_sample_of (map string_bytes words.now) }
{
    Some(Task::Sample(read_sample(words)?))
}
