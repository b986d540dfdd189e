// The options of `serve`, each with its value.
ghost use Rattle.std.specs.Prelude.{◌≡◌, option_map};
ghost use Rattle.session_spec.specs.Words as spec;
ghost use Rattle.dnr_words.specs.Seen.{choice_seen};

use crate::names::{is_extension_name, is_file_name};
use crate::numbers::small_number_up_to;

const MOST_WORKERS: u32 = 8;

/// What is installed before the script.
#[derive(Clone, Copy, Debug)]
pub enum Installed<'a> {
    /// The extension of this name, which is also that of its folder.
    Folder(&'a str),
    /// The extension of this name, which a filter list gives: the name, and the file of the list.
    List(&'a str, &'a str),
}

// What an option chooses.
#[derive(Clone, Copy)]
pub(crate) enum Choice<'a> {
    Workers(u32),
    Suffixes(&'a str),
    Install(Installed<'a>),
}

// What an option chooses by this value, if it is one and takes the value.
pub(crate) fn choice_of<'a>(option: &str, value: &'a str) -> Option<Choice<'a>>
    ensures { option_map choice_seen result ≡ spec.choice_of option.now value.now }
{
    match option {
        "--workers" => workers_named(value),
        "--psl" if is_file_name(value) => Some(Choice::Suffixes(value)),
        "--ext" if is_extension_name(value) => Some(Choice::Install(Installed::Folder(value))),
        "--list" => list_named(value),
        _ => None,
    }
}

// One to eight answer requests.
fn workers_named(value: &str) -> Option<Choice<'_>>
    ensures { option_map choice_seen result ≡ spec.workers_named value.now }
{
    let count = small_number_up_to(MOST_WORKERS, value)?;
    if count > 0 {
        Some(Choice::Workers(count))
    } else {
        None
    }
}

// `NAME=F`, where the name ends before the first `=`.
fn list_named(value: &str) -> Option<Choice<'_>>
    ensures { option_map choice_seen result ≡ spec.list_named value.now }
{
    let (name, file) = value.split_once('=')?;
    if is_extension_name(name) && is_file_name(file) {
        Some(Choice::Install(Installed::List(name, file)))
    } else {
        None
    }
}
