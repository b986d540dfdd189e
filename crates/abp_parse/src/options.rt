//! The options of a filter.
ghost use Rattle.std.specs.Prelude.{◌≡◌, ◌||◌, [], Some, None, false, IsAscii, IfOk, IfErr, OnOk};
ghost use Rattle.std.specs.Prelude.{map, is_some, unwrap_or, option_map};
ghost use Rattle.std.specs.Char.{to_ascii_lowercase};
ghost use Rattle.list_spec.specs.Entries.{entries_of};
ghost use Rattle.list_spec.specs.Options as options;
ghost use Rattle.list_spec.specs.Pieces.{pieces_of};
ghost use Rattle.abp_parse.specs.Seen.{asked_seen, subject_seen, written_seen};
ghost use Rattle.abp_parse.specs.Told.{IsFault, IsRead, IsWrittenInAscii, speaks_of_domains, written_in};

use crate::asked::{Asked, Subject, subject_of};
use crate::entries::{are_domains, cut_tilde, entries_of, is_domain_list};
use crate::text::{cut_at, lower_text, place_of};
use dnr_base::NoMemory;
use list_spec::{DomainEntry, OptionName, Reason};
use std::alloc::Global;

/// Why options can't be read.
#[derive(Debug, Drop)]
pub enum Fault {
    /// One of them is at fault.
    Unsupported(Reason),
    /// Memory ran out.
    NoMemory,
}

impl From<NoMemory> for Fault {
    ghost use Rattle.std.specs.Prelude.{◌≡◌};
    ghost use Rattle.abp_parse.specs.declared.options.Fault.TheVariants as fault;

    ghost from_gives = { λ _ e. e ≡ fault.NoMemory };

    fn from(_: NoMemory) -> Fault {
        Fault::NoMemory
    }
}

/// An option as it is written.
#[derive(Clone, Copy)]
pub struct Written<'a> {
    pub inverse: bool,
    pub name: &'a [u8],
    pub value: Option<&'a [u8]>,
}

// The parts of an option.
fn written_of(piece: &[u8]) -> Written<'_>
    ensures seen { written_seen result ≡ options.written_of piece.now }
    ensures ascii { IsAscii piece.now → IsWrittenInAscii result }
{
    let (inverse, text) = cut_tilde(piece);
    match place_of(b'=', text) {
        Some(place) => Written {
            inverse,
            name: &text[..place],
            value: Some(&text[place + 1..]),
        },
        None => Written {
            inverse,
            name: text,
            value: None,
        },
    }
}

// The fault of an option that must not stand so.
fn option_value(alloc: Global, name: &[u8]) -> Fault
    requires { IsAscii name.now }
    ensures { IsFault (Some (Reason.OptionValue (map to_ascii_lowercase name.now))) result }
{
    match lower_text(alloc, name) {
        Ok(name) => Fault::Unsupported(Reason::OptionValue(name)),
        Err(NoMemory) => Fault::NoMemory,
    }
}

// The fault of an option that is not known.
fn unknown_option(alloc: Global, name: &[u8]) -> Fault
    requires { IsAscii name.now }
    ensures { IsFault (Some (Reason.UnknownOption (map to_ascii_lowercase name.now))) result }
{
    match lower_text(alloc, name) {
        Ok(name) => Fault::Unsupported(Reason::UnknownOption(name)),
        Err(NoMemory) => Fault::NoMemory,
    }
}

// The domains of a value.
fn read_value(alloc: Global, name: &[u8], value: &[u8]) -> Result<Vec<DomainEntry>, Fault>
    requires name { IsAscii name.now }
    requires value { IsAscii value.now }
    ensures read { IfOk result (λ entries. entries.items ≡ entries_of value.now) }
    ensures told { IsRead (options.entries_fault (map to_ascii_lowercase name.now) (entries_of value.now)) result }
{
    let entries = entries_of(alloc, value)?;
    if !is_domain_list(alloc, entries.as_slice())? {
        return Err(option_value(alloc, name));
    }
    if !are_domains(entries.as_slice()) {
        return Err(Fault::Unsupported(Reason::BadDomain));
    }
    Ok(entries)
}

// The domains of an option `domain`.
fn read_domains(
    alloc: Global,
    repeated: bool,
    written: Written<'_>,
) -> Result<Vec<DomainEntry>, Fault>
    requires { IsWrittenInAscii written }
    ensures read { IfOk result (λ entries. entries.items ≡ entries_of (unwrap_or (written_seen written.entry).value [])) }
    ensures told { IsRead (options.domain_fault repeated (written_seen written.entry)) result }
{
    if written.inverse || repeated {
        return Err(option_value(alloc, written.name));
    }
    match written.value {
        Some(value) => read_value(alloc, written.name, value),
        None => Err(option_value(alloc, written.name)),
    }
}

// Refuses an option that has a value.
fn no_value(alloc: Global, written: Written<'_>) -> Result<(), Fault>
    requires { IsWrittenInAscii written }
    ensures { IsRead (options.plain_fault (written_seen written.entry) None) result }
{
    match written.value {
        Some(_) => Err(option_value(alloc, written.name)),
        None => Ok(()),
    }
}

// What an option of this name speaks of.
fn subject_named(name: &[u8]) -> Option<Subject>
    ensures { option_map subject_seen result ≡ options.subject_named (map to_ascii_lowercase name.now) }
{
    OptionName::named(name).map(subject_of)
}

// One option more.
fn read_option(
    alloc: Global,
    exception: bool,
    written: Written<'_>,
    asked: &mut Asked,
) -> Result<(), Fault>
    requires { IsWrittenInAscii written }
    ensures told { IsRead (options.option_fault exception (is_some asked.old.domains) (written_seen written.entry)) result }
    ensures asked { OnOk result (asked_seen asked.new ≡ options.after_option (asked_seen asked.old) (written_seen written.entry)) }
    ensures domains { OnOk result (is_some asked.new.domains ≡ (is_some asked.old.domains || speaks_of_domains (written_seen written.entry))) }
{
    let Some(subject) = subject_named(written.name) else {
        return Err(unknown_option(alloc, written.name));
    };
    match subject {
        Subject::Types(these) => {
            no_value(alloc, written)?;
            asked.add_kinds(written.inverse, these);
        }
        Subject::Party => {
            no_value(alloc, written)?;
            asked.third_party = Some(!written.inverse);
        }
        Subject::Domains => {
            let domains = read_domains(alloc, asked.domains.is_some(), written)?;
            asked.domains = Some(domains);
        }
        Subject::Case => {
            no_value(alloc, written)?;
            asked.match_case = !written.inverse;
        }
        Subject::Document => {
            no_value(alloc, written)?;
            if !exception && !written.inverse {
                return Err(Fault::Unsupported(Reason::DocumentOnBlock));
            }
            asked.document = !written.inverse;
            asked.add_kinds(written.inverse, &[]);
        }
    }
    Ok(())
}

/// Reads a list of options, up to the first that is at fault.
pub fn read_options(alloc: Global, exception: bool, text: &[u8]) -> Result<Asked, Fault>
    requires { IsAscii text.now }
    ensures told { IsRead (options.first_fault exception false (written_in text.now)) result }
    ensures asked { IfOk result (λ asked. asked_seen asked ≡ options.asked_of (written_in text.now)) }
{
    let mut asked = Asked::nothing();
    let mut rest = text;
    loop {
        let (piece, later) = cut_at(b',', rest);
        read_option(alloc, exception, written_of(piece), &mut asked)?;
        match later {
            Some(later) => rest = later,
            None => return Ok(asked),
        }
    }
}
