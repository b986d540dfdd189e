//! Where the lines stand that list a domain.
ghost use Rattle.std.specs.Prelude.{[], ◌∷◌, IfOk, OnOk, map};
ghost use Rattle.hide_rules.specs.Listings.{AddsPlace, FilesPlace, FindsListed};
ghost use Rattle.hide_rules.specs.Seen.{hiding_seen};

use crate::line::HidingLine;
use dnr_base::NoMemory;
use list_spec::DomainEntry;
use std::alloc::Global;
use std::collections::BTreeMap;

// Puts a place behind those of a domain.
fn add_place(
    alloc: Global,
    listings: &mut BTreeMap<String, Vec<usize>>,
    domain: &str,
    place: usize,
) -> Result<(), NoMemory>
    ensures { OnOk result (AddsPlace domain.now place listings.old listings.new) }
{
    let domain = String::from_str(alloc, domain)?;
    listings.entry(domain)?.or_default().push(place)?;
    Ok(())
}

// Puts a place behind those of the domain of an entry, if that lists it.
fn file_entry(
    alloc: Global,
    listings: &mut BTreeMap<String, Vec<usize>>,
    entry: &DomainEntry,
    place: usize,
) -> Result<(), NoMemory>
    ensures { OnOk result (FilesPlace place (entry.now ∷ []) listings.old listings.new) }
{
    if !entry.excluded {
        add_place(alloc, listings, entry.domain.as_str(), place)?;
    }
    Ok(())
}

// Puts the place of a line behind those of each domain that its entries list.
fn file_place(
    alloc: Global,
    listings: &mut BTreeMap<String, Vec<usize>>,
    entries: &[DomainEntry],
    place: usize,
) -> Result<(), NoMemory>
    ensures { OnOk result (FilesPlace place entries.now listings.old listings.new) }
{
    for entry in entries {
        file_entry(alloc, listings, entry, place)?;
    }
    Ok(())
}

/// The places of lines by the domains that they list. It is a tree, so that no list can be written
/// whose domains collide.
///
/// `NoMemory`: no memory is left for them.
pub fn listings_of(
    alloc: Global,
    lines: &[HidingLine],
) -> Result<BTreeMap<String, Vec<usize>>, NoMemory>
    ensures { IfOk result (FindsListed (map hiding_seen lines.now)) }
{
    let mut listings = BTreeMap::new(alloc);
    for place in 0..lines.len() {
        file_place(alloc, &mut listings, lines[place].domains.as_slice(), place)?;
    }
    Ok(listings)
}
