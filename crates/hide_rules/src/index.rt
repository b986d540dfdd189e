//! Where the lines of a list are found, so that a page costs what is for it.
ghost use Rattle.std.specs.Prelude.{◌≡◌, [], ◌∷◌, ◌++◌, IfOk, OnOk, filter, map, if◌then◌else◌};
ghost use Rattle.hide_rules.specs.Listings.{FindsUnlisted, is_general, is_unlisted};
ghost use Rattle.hide_rules.specs.Index.{Indexes};
ghost use Rattle.hide_rules.specs.Seen.{hiding_seen, lines_seen};

use crate::applies::lists_none;
use crate::line::HidingLine;
use crate::listings::listings_of;
use crate::selectors::selectors_of;
use dnr_base::NoMemory;
use std::alloc::Global;
use std::collections::{BTreeMap, BTreeSet};

/// Where the lines of a list are found: those without a domain by their selectors, which are sorted
/// once, the others by their places in the list.
#[derive(Drop)]
pub struct Index {
    /// What lines without a domain hide.
    pub hidden: BTreeSet<String>,
    /// What exceptions without a domain keep.
    pub kept: BTreeSet<String>,
    /// The lines that list a domain.
    pub listings: BTreeMap<String, Vec<usize>>,
    /// The lines whose domains are all excluded, which are for all other pages.
    pub unlisted: Vec<usize>,
}

// Whether the line has no domain.
fn is_general(line: &HidingLine) -> bool
    ensures { result ≡ is_general (hiding_seen line.now) }
{
    line.domains.is_empty()
}

// Puts a line behind the others, if it has no domain.
fn push_general<'a>(general: &mut Vec<&'a HidingLine>, line: &'a HidingLine) -> Result<(), NoMemory>
    ensures { OnOk result (lines_seen general.new.items
        ≡ lines_seen general.old.items ++ filter is_general (hiding_seen line.now ∷ [])) }
{
    if is_general(line) {
        general.push(line)?;
    }
    Ok(())
}

// The lines without a domain.
fn general_lines(alloc: Global, lines: &[HidingLine]) -> Result<Vec<&HidingLine>, NoMemory>
    ensures { IfOk result (λ general. lines_seen general.items
        ≡ filter is_general (map hiding_seen lines.now)) }
{
    let mut general = Vec::new(alloc);
    for line in lines {
        push_general(&mut general, line)?;
    }
    Ok(general)
}

// Whether the line has domains, and all of them are excluded.
fn is_unlisted(line: &HidingLine) -> bool
    ensures { result ≡ is_unlisted (hiding_seen line.now) }
{
    !is_general(line) && lists_none(line.domains.as_slice())
}

// Puts the place of a line behind the others, if all its domains are excluded.
fn push_unlisted(unlisted: &mut Vec<usize>, line: &HidingLine, place: usize) -> Result<(), NoMemory>
    ensures { OnOk result (unlisted.new.items ≡ unlisted.old.items
        ++ (if is_unlisted (hiding_seen line.now) then place ∷ [] else [])) }
{
    if is_unlisted(line) {
        unlisted.push(place)?;
    }
    Ok(())
}

// The places of the lines whose domains are all excluded.
fn unlisted_of(alloc: Global, lines: &[HidingLine]) -> Result<Vec<usize>, NoMemory>
    ensures { IfOk result (λ unlisted. FindsUnlisted (map hiding_seen lines.now) unlisted.items) }
{
    let mut unlisted = Vec::new(alloc);
    for place in 0..lines.len() {
        push_unlisted(&mut unlisted, &lines[place], place)?;
    }
    Ok(unlisted)
}

/// Where these lines are found.
///
/// `NoMemory`: no memory is left for it.
pub fn index_of(alloc: Global, lines: &[HidingLine]) -> Result<Index, NoMemory>
    ensures { IfOk result (Indexes (map hiding_seen lines.now)) }
{
    let general = general_lines(alloc, lines)?;
    let hidden = selectors_of(alloc, general.as_slice(), &[], false)?;
    let kept = selectors_of(alloc, general.as_slice(), &[], true)?;
    let listings = listings_of(alloc, lines)?;
    let unlisted = unlisted_of(alloc, lines)?;
    Ok(Index {
        hidden,
        kept,
        listings,
        unlisted,
    })
}
