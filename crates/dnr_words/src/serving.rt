// What `serve` is asked for: options with their values, and behind them the script.
ghost use Rattle.std.specs.Prelude.{◌≡◌, None, map, option_map, string_bytes, IfOk};
ghost use Rattle.std.specs.Option.{option_copied};
ghost use Rattle.session_spec.specs.Words as spec;
ghost use Rattle.dnr_words.specs.Reading.{chosen_from, once_after};
ghost use Rattle.dnr_words.specs.Seen.{choice_seen, chosen_seen, installed_seen, once_seen};

use crate::names::is_file_name;
use crate::options::{Choice, Installed, choice_of};
use dnr_base::NoMemory;
use std::alloc::Global;
use std::marker::Model;

/// A session that is asked for. It borrows the words that ask for it, which all were read.
#[derive(Debug, Drop)]
pub struct Serving<'a> {
    // The options with their values, and then the script.
    words: &'a [String],
    workers: u32,
    suffixes: Option<&'a str>,
    script: &'a str,
}

impl<'a> Model for Serving<'a> {
    ghost use Rattle.std.specs.Prelude.{map, string_bytes};
    ghost use Rattle.std.specs.Option.{option_copied};
    ghost use Rattle.session_spec.specs.Words as spec;
    ghost use Rattle.dnr_words.specs.Reading.{installed_in};

    ghost Value = { spec.Serving };

    ghost view = { λ s. record { workers = s.workers; suffixes = option_copied s.suffixes; installed = installed_in (map string_bytes s.words.now); script = s.script.now } };
}

impl<'a> Serving<'a> {
    /// How many answer requests, from 1 to 8. It is 1 where no number is named.
    pub fn workers(&self) -> u32
        ensures { result ≡ self.now.workers }
    {
        self.workers
    }

    /// The file of the public suffix list, if one is named.
    pub fn suffixes(&self) -> Option<&'a str>
        ensures { option_copied result ≡ self.now.suffixes }
    {
        self.suffixes
    }

    /// The file of the script.
    pub fn script(&self) -> &'a str
        ensures { result.now ≡ self.now.script }
    {
        self.script
    }

    /// What is installed before the script, in order.
    ///
    /// `NoMemory`: no memory is left for the list.
    pub fn installed(&self, alloc: Global) -> Result<Vec<Installed<'a>>, NoMemory>
        ensures { IfOk result (λ all. map installed_seen all.items ≡ self.now.installed) }
    {
        let mut all = Vec::new(alloc);
        let mut rest = self.words;
        while let [option, value, others @ ..] = rest {
            if let Some(Choice::Install(one)) = choice_of(option.as_str(), value.as_str()) {
                all.push(one)?;
            }
            rest = others;
        }
        Ok(all)
    }
}

/// The session that the words after `serve` ask for, if they ask for one.
pub(crate) fn serving_in(words: &[String]) -> Option<Serving<'_>>
    ensures { option_map spec.serve_script result ≡ spec.serve_of (map string_bytes words.now) }
{
    let Chosen { once, script } = chosen_in(words)?;
    Some(Serving {
        words,
        workers: once.workers.unwrap_or(1),
        suffixes: once.suffixes,
        script,
    })
}

// What stands once or not at all.
#[derive(Clone, Copy)]
pub(crate) struct Once<'a> {
    pub(crate) workers: Option<u32>,
    pub(crate) suffixes: Option<&'a str>,
}

// What stands once, and the script.
#[derive(Drop)]
pub(crate) struct Chosen<'a> {
    pub(crate) once: Once<'a>,
    pub(crate) script: &'a str,
}

fn chosen_in(words: &[String]) -> Option<Chosen<'_>>
    ensures { option_map chosen_seen result ≡ chosen_from None None (map string_bytes words.now) }
{
    let mut once = Once {
        workers: None,
        suffixes: None,
    };
    let mut rest = words;
    while let [option, value, others @ ..] = rest {
        once = once_behind(once, option.as_str(), value.as_str())?;
        rest = others;
    }
    let [script] = rest else {
        return None;
    };
    let script = script.as_str();
    is_file_name(script).then_some(Chosen { once, script })
}

// What stands once after one more option, if the option is one; what stands twice is none.
fn once_behind<'a>(before: Once<'a>, option: &str, value: &'a str) -> Option<Once<'a>>
    ensures { option_map once_seen result
        ≡ once_after before.entry.workers (option_copied before.entry.suffixes) (spec.choice_of option.now value.now) }
{
    match choice_of(option, value)? {
        Choice::Install(_) => Some(before),
        Choice::Workers(_) if before.workers.is_some() => None,
        Choice::Workers(count) => Some(Once {
            workers: Some(count),
            suffixes: before.suffixes,
        }),
        Choice::Suffixes(_) if before.suffixes.is_some() => None,
        Choice::Suffixes(file) => Some(Once {
            workers: before.workers,
            suffixes: Some(file),
        }),
    }
}
