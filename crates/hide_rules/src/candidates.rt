//! The lines that may be for a page.
ghost use Rattle.std.specs.Prelude.{◌≡◌, [], ◌∷◌, ◌++◌, IfOk, OnOk, map};
ghost use Rattle.hide_rules.specs.Index.{found_for};
ghost use Rattle.hide_rules.specs.Listings.{lines_at, places_at};
ghost use Rattle.hide_rules.specs.Seen.{hiding_seen, lines_seen};
ghost use Rattle.hide_rules.specs.Texts.{texts_of};

use crate::index::Index;
use crate::line::HidingLine;
use dnr_base::NoMemory;
use std::alloc::Global;

// Puts the line at a place behind those that were found.
fn push_line<'a>(
    found: &mut Vec<&'a HidingLine>,
    lines: &'a [HidingLine],
    place: usize,
) -> Result<(), NoMemory>
    ensures { OnOk result (lines_seen found.new.items
        ≡ lines_seen found.old.items ++ lines_at (map hiding_seen lines.now) (place ∷ [])) }
{
    if let Some(line) = lines.get(place) {
        found.push(line)?;
    }
    Ok(())
}

// Puts the lines at these places behind those that were found.
fn push_lines<'a>(
    found: &mut Vec<&'a HidingLine>,
    lines: &'a [HidingLine],
    places: &[usize],
) -> Result<(), NoMemory>
    ensures { OnOk result (lines_seen found.new.items
        ≡ lines_seen found.old.items ++ lines_at (map hiding_seen lines.now) places.now) }
{
    for place in places {
        push_line(found, lines, *place)?;
    }
    Ok(())
}

// Puts the lines that list a domain behind those that were found.
fn push_listed<'a>(
    found: &mut Vec<&'a HidingLine>,
    lines: &'a [HidingLine],
    index: &Index,
    domain: &str,
) -> Result<(), NoMemory>
    ensures { OnOk result (lines_seen found.new.items ≡ lines_seen found.old.items
        ++ lines_at (map hiding_seen lines.now) (places_at index.now.listings domain.now)) }
{
    if let Some(places) = index.listings.get(domain) {
        push_lines(found, lines, places.as_slice())?;
    }
    Ok(())
}

/// The lines with domains that may be for pages which these domains cover: those that list one of
/// them, and those whose domains are all excluded.
///
/// `NoMemory`: no memory is left for them.
pub fn candidates<'a>(
    alloc: Global,
    lines: &'a [HidingLine],
    index: &Index,
    domains: &[&str],
) -> Result<Vec<&'a HidingLine>, NoMemory>
    ensures { IfOk result (λ found. lines_seen found.items
        ≡ found_for (map hiding_seen lines.now) index.now (texts_of domains.now)) }
{
    let mut found = Vec::new(alloc);
    push_lines(&mut found, lines, index.unlisted.as_slice())?;
    for domain in domains {
        push_listed(&mut found, lines, index, domain)?;
    }
    Ok(found)
}
