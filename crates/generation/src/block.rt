ghost use Rattle.std.specs.Prelude.{◌≡◌, [], option_and_then, slice_get};
ghost use Rattle.rule_index.specs.Lists.{IsListIndexOf};
ghost use Rattle.rule_segments.specs.Segments.{live_in as live_in_segment};
ghost use Rattle.rule_spec.specs.State as spec;
ghost use Rattle.generation.specs.Block.{lines_at, listed_in, live_by, live_there, lives_in, set_there, sets_there};

use crate::live::Live;
use dnr_base::{Items, Rank};
use rule_index::ListIndex;
use ruleset_store::{InstalledExtension, InstalledSet, Segment};

// Rules that are looked up together, by one index.
#[derive(Drop)]
pub(crate) enum Block<'a> {
    // Those of a segment of rules that were added to an extension, with their rank and the name of their ruleset.
    Added(Rank, &'a str, &'a Segment),
    // Those of all static rulesets of an extension.
    Sets(&'a InstalledExtension),
}

// The lines of the rule at a place.
fn lines_at(origins: &[Items<u32>], place: usize) -> &[u32]
    ensures { result.now ≡ lines_at origins.now place }
{
    match origins.get(place) {
        Some(lines) => lines.as_slice(),
        None => &[],
    }
}

// The rule at a place of a segment, if one stands there and is in force.
fn live_of_segment<'a>(
    rank: Rank,
    set: &'a str,
    segment: &'a Segment,
    place: usize,
) -> Option<Live<'a>>
    ensures { result ≡ option_and_then
        (live_by (record { rank = rank; set = set.now; off = segment.now.removed; lines = [] }))
        (slice_get segment.now.rules place) }
{
    let Some(rule) = segment.rules().rules().get(place) else {
        return None;
    };
    if segment.removed().has(rule.id()) {
        return None;
    }
    Some(Live {
        rank,
        set,
        rule,
        lines: &[],
    })
}

// The rule at a place of the static ruleset of this number, if one stands there and is in force.
fn live_of_set(number: u32, set: &InstalledSet, place: usize) -> Option<Live<'_>>
    ensures { result ≡ set_there number set.now place }
{
    if !set.is_enabled() {
        return None;
    }
    let Some(rule) = set.rules().get(place) else {
        return None;
    };
    if set.is_disabled(rule.id()) {
        return None;
    }
    Some(Live {
        rank: Rank::Static(number),
        set: set.id(),
        rule,
        lines: lines_at(set.origins(), place),
    })
}

// The same of the one of this number among these.
fn live_of_number(sets: &[InstalledSet], number: u32, place: usize) -> Option<Live<'_>>
    ensures { result ≡ option_and_then (λ set. set_there number set place) (slice_get sets.now number) }
{
    match sets.get(number as usize) {
        Some(set) => live_of_set(number, set, place),
        None => None,
    }
}

// The rule at a place of the static rulesets of an extension, if one stands there and is in force.
fn live_of_sets(extension: &InstalledExtension, place: usize) -> Option<Live<'_>>
    ensures { result ≡ sets_there 0 extension.now.sets place }
{
    match extension.static_index().find(place) {
        Some((number, place)) => live_of_number(extension.sets(), number, place),
        None => None,
    }
}

impl<'a> Block<'a> {
    // The live rules of a segment of those that were added to an extension.
    pub(crate) fn of_segment(rank: Rank, set: &'a str, segment: &'a Segment) -> Block<'a>
        ensures { lives_in result ≡ spec.live_with rank set.now (live_in_segment segment.now) }
    {
        Block::Added(rank, set, segment)
    }

    // The rules of the static rulesets of an extension that are enabled.
    pub(crate) fn of_sets(extension: &'a InstalledExtension) -> Block<'a>
        ensures { lives_in result ≡ spec.live_from 0 extension.now.sets }
    {
        Block::Sets(extension)
    }

    // The index of its rules, in force or not.
    pub(crate) fn index(&self) -> &'a ListIndex
        ensures { IsListIndexOf (listed_in self.now) result.now }
    {
        match self {
            Block::Added(_, _, segment) => segment.rules().index(),
            Block::Sets(extension) => extension.static_index().index(),
        }
    }

    // The rule at a place, if one stands there and is in force.
    pub(crate) fn live_at(&self, place: usize) -> Option<Live<'a>>
        ensures { result ≡ live_there self.now place }
    {
        match self {
            Block::Added(rank, set, segment) => live_of_segment(*rank, set, segment, place),
            Block::Sets(extension) => live_of_sets(extension, place),
        }
    }
}
