//! The domains of a hiding line.
ghost use Rattle.std.specs.Prelude.{IfOk, map};
ghost use Rattle.list_spec.specs.Entries as spec;
ghost use Rattle.list_spec.specs.Pieces as pieces;
ghost use Rattle.hide_spec.specs.HidingLine.{hide_entries};
ghost use Rattle.hide_rules.specs.Read.{IsEntryOf, AreEntriesOf};

use abp_parse::{cut_at, cut_tilde};
use dnr_base::{NoMemory, Text};
use domain_set::is_domain;
use list_spec::DomainEntry;
use std::alloc::Global;

// The entry of a piece. `None`: it names no domain.
fn read_entry(alloc: Global, piece: &[u8]) -> Result<Option<DomainEntry>, NoMemory>
    ensures { IfOk result (IsEntryOf (spec.entry_of piece.now)) }
{
    let (excluded, domain) = cut_tilde(piece);
    let lower = domain.to_ascii_lowercase(alloc)?;
    if !is_domain(&lower) {
        return Ok(None);
    }
    let Ok(domain) = String::from_utf8(lower) else {
        unreachable!("a domain is ASCII")
    };
    Ok(Some(DomainEntry {
        domain: Text::build(domain),
        excluded,
    }))
}

// The entries of a text with at least one. `None`: one of them names no domain.
fn read_pieces(alloc: Global, text: &[u8]) -> Result<Option<Vec<DomainEntry>>, NoMemory>
    ensures { IfOk result (AreEntriesOf (map spec.entry_of (pieces.pieces_of 44 text.now))) }
{
    // Most lines name one domain, so no more room is taken than for that.
    let mut entries = Vec::with_capacity(alloc, 1)?;
    let mut rest = text;
    'pieces: loop {
        let (piece, later) = cut_at(b',', rest);
        match read_entry(alloc, piece)? {
            Some(entry) => entries.push(entry)?,
            None => return Ok(None),
        }
        match later {
            Some(later) => rest = later,
            None => return Ok(Some(entries)),
        }
    }
}

/// The entries of what stands before a separator. `None`: one of them names no domain.
pub fn read_entries(alloc: Global, text: &[u8]) -> Result<Option<Vec<DomainEntry>>, NoMemory>
    ensures { IfOk result (AreEntriesOf (hide_entries text.now)) }
{
    if text.is_empty() {
        return Ok(Some(Vec::new(alloc)));
    }
    read_pieces(alloc, text)
}
