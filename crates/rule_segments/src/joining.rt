ghost use Rattle.std.specs.Prelude.{◌≡◌, ◌*◌, ◌≤◌, ◌++◌, ◌↔◌, length, IsTrue, IfOk};
ghost use Rattle.rule_ids.specs.Counted.{counts_of};
ghost use Rattle.rule_segments.specs.Segments.{live_in, live_among, IsHalfLive, AreHalfLive};
ghost use Rattle.rule_segments.specs.Segments.{IsAboveFrom, AreTapered, LastIsAbove};

use crate::indexed_rules::IndexedRules;
use crate::segment::Segment;
use crate::shared_rule::SharedRule;
use dnr_base::NoMemory;
use rule_ids::Counts;
use std::alloc::Global;

// How many rules of the segments are live, and how many of these count for a limit.
pub(crate) fn total(segments: &[Segment]) -> Result<Counts, NoMemory>
    ensures { IfOk result (λ counts. counts ≡ counts_of (live_among segments.now)) }
{
    let mut counts = Counts::none();
    for segment in segments {
        counts = counts.and(segment.counts())?;
    }
    Ok(counts)
}

// One segment of the live rules of all, and of these behind them.
fn remade(alloc: Global, segments: &[Segment], newer: &[SharedRule]) -> Result<Segment, NoMemory>
    ensures live { IfOk result (λ one. live_in one ≡ live_among segments.now ++ newer.now) }
    ensures half { IfOk result IsHalfLive }
{
    let mut handles = Vec::new(alloc);
    for segment in segments {
        segment.push_live(&mut handles)?;
    }
    SharedRule::push_all(&mut handles, newer)?;
    Segment::of(alloc, IndexedRules::of_handles(alloc, handles)?)
}

// The same, which is the only one itself where half of its rules are live.
fn joined(alloc: Global, segments: &[Segment]) -> Result<Segment, NoMemory>
    ensures live { IfOk result (λ one. live_in one ≡ live_among segments.now) }
    ensures half { IfOk result IsHalfLive }
{
    if segments.len() == 1 && segments[0].is_half_live() {
        return segments[0].again();
    }
    remade(alloc, segments, &[])
}

// Whether a segment of so many live rules is joined with newer ones that have so many.
fn is_joined(older: usize, newer: usize) -> bool
    ensures { IsTrue result ↔ older ≤ 2 * newer }
{
    older.saturating_sub(newer) <= newer
}

// Where the segments begin that are joined with newer rules, of which there are so many.
fn start_of_joined(segments: &[Segment], newer: usize) -> Result<usize, NoMemory>
    ensures within { IfOk result (λ start. start ≤ length segments.now) }
    ensures apart { IfOk result (λ start. IsAboveFrom segments.now start newer) }
{
    let mut start = segments.len();
    let mut count = newer;
    while start > 0 && is_joined(segments[start - 1].len(), count) {
        start -= 1;
        count = count.checked_add(segments[start].len()).ok_or(NoMemory)?;
    }
    Ok(start)
}

// The live rules of the segments and newer ones behind them, in segments that taper. From the newest on, those are joined that
// would not taper, and one of which less than half is live is made anew. The index of the newer rules is made once.
pub(crate) fn tapered(
    alloc: Global,
    segments: &[Segment],
    newer: &[SharedRule],
) -> Result<Vec<Segment>, NoMemory>
    ensures same { IfOk result (λ next. live_among next.items ≡ live_among segments.now ++ newer.now) }
    ensures taper { IfOk result (λ next. AreTapered next.items) }
    ensures half { IfOk result (λ next. AreHalfLive next.items) }
{
    if newer.is_empty() {
        return tapered_before(alloc, segments, Vec::new(alloc));
    }
    let start = start_of_joined(segments, newer.len())?;
    let newest = remade(alloc, &segments[start..], newer)?;
    let mut behind = Vec::new(alloc);
    behind.push(newest)?;
    tapered_before(alloc, &segments[..start], behind)
}

// The same of segments before others, which taper.
fn tapered_before(
    alloc: Global,
    segments: &[Segment],
    behind: Vec<Segment>,
) -> Result<Vec<Segment>, NoMemory>
    requires taper { AreTapered behind.items }
    requires half { AreHalfLive behind.items }
    requires above { LastIsAbove segments.now behind.items }
    ensures same { IfOk result (λ next. live_among next.items
        ≡ live_among segments.now ++ live_among behind.items) }
    ensures taper { IfOk result (λ next. AreTapered next.items) }
    ensures half { IfOk result (λ next. AreHalfLive next.items) }
{
    let mut next = behind;
    let mut left = segments;
    while let Some((last, older)) = left.split_last() {
        if last.len() == 0 {
            left = older;
        } else {
            let start = start_of_joined(older, last.len())?;
            next.insert(0, joined(alloc, &left[start..])?)?;
            left = &left[..start];
        }
    }
    Ok(next)
}
