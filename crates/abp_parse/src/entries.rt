//! The domains of a filter's option `domain=`.
ghost use Rattle.std.specs.Prelude.{◌≡◌, IfOk, OnOk, IsAscii};
ghost use Rattle.std.specs.List.{list_all, list_any};
ghost use Rattle.abp_parse.specs.Excluded.{AddsEntry, HasExcluded};
ghost use Rattle.dnr_spec.specs.Domains as domains;
ghost use Rattle.list_spec.specs.Entries as spec;
ghost use Rattle.list_spec.specs.Pieces as pieces;

use crate::text::{cut_at, lower_text};
use dnr_base::NoMemory;
use domain_set::is_domain;
use list_spec::DomainEntry;
use std::alloc::Global;
use std::collections::BTreeSet;

/// The text without a `~` at its beginning, and whether there is one.
pub fn cut_tilde(text: &[u8]) -> (bool, &[u8])
    ensures inverse { result.0 ≡ pieces.is_inverse text.now }
    ensures rest { result.1.now ≡ pieces.without_tilde text.now }
    ensures ascii { IsAscii text.now → IsAscii result.1.now }
{
    if text.starts_with(b"~") {
        (true, &text[1..])
    } else {
        (false, text)
    }
}

// The entry of a piece.
fn entry_of(alloc: Global, piece: &[u8]) -> Result<DomainEntry, NoMemory>
    requires { IsAscii piece.now }
    ensures { IfOk result (λ entry. entry ≡ spec.entry_of piece.now) }
{
    let (excluded, domain) = cut_tilde(piece);
    let domain = lower_text(alloc, domain)?;
    Ok(DomainEntry { domain, excluded })
}

/// The entries of a value.
pub fn entries_of(alloc: Global, value: &[u8]) -> Result<Vec<DomainEntry>, NoMemory>
    requires { IsAscii value.now }
    ensures { IfOk result (λ entries. entries.items ≡ spec.entries_of value.now) }
{
    let mut entries = Vec::new(alloc);
    let mut rest = value;
    loop {
        let (piece, later) = cut_at(b'|', rest);
        entries.push(entry_of(alloc, piece)?)?;
        match later {
            Some(later) => rest = later,
            None => return Ok(entries),
        }
    }
}

// Puts the domain of an entry in, if it is excluded.
fn exclude(
    alloc: Global,
    excluded: &mut BTreeSet<String>,
    entry: &DomainEntry,
) -> Result<(), NoMemory>
    ensures { OnOk result (AddsEntry excluded.old excluded.new entry.now) }
{
    if entry.excluded {
        let domain = String::from_str(alloc, entry.domain.as_str())?;
        excluded.insert(domain)?;
    }
    Ok(())
}

// The domains that are excluded.
fn excluded_of(alloc: Global, entries: &[DomainEntry]) -> Result<BTreeSet<String>, NoMemory>
    ensures { IfOk result (λ excluded. HasExcluded excluded entries.now) }
{
    let mut excluded = BTreeSet::new(alloc);
    for entry in entries {
        exclude(alloc, &mut excluded, entry)?;
    }
    Ok(excluded)
}

/// Whether one domain is both listed and excluded.
///
/// `NoMemory`: no memory is left for the domains that are excluded.
pub fn has_conflict(alloc: Global, entries: &[DomainEntry]) -> Result<bool, NoMemory>
    ensures { IfOk result (λ answer. answer ≡ spec.has_conflict entries.now) }
{
    let excluded = excluded_of(alloc, entries)?;
    Ok(entries.iter().any(|entry| !entry.excluded && excluded.contains(entry.domain.as_str())))
}

// Whether an entry names no domain.
fn has_empty(entries: &[DomainEntry]) -> bool
    ensures { result ≡ list_any spec.is_empty_entry entries.now }
{
    entries.iter().any(|entry| entry.domain.as_str().is_empty())
}

/// Whether each entry names a domain, and none is both listed and excluded.
pub fn is_domain_list(alloc: Global, entries: &[DomainEntry]) -> Result<bool, NoMemory>
    ensures { IfOk result (λ answer. answer ≡ spec.is_domain_list entries.now) }
{
    if has_empty(entries) {
        return Ok(false);
    }
    let conflict = has_conflict(alloc, entries)?;
    Ok(!conflict)
}

/// Whether a rule may list the domains of all entries.
pub fn are_domains(entries: &[DomainEntry]) -> bool
    ensures { result ≡ list_all (λ entry. domains.is_domain entry.domain) entries.now }
{
    entries
        .iter()
        .all(|entry| is_domain(entry.domain.as_str().as_bytes()))
}
