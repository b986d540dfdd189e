ghost use Rattle.std.specs.Prelude.{◌≡◌, ◌++◌, [], length, count_by, IfOk};
ghost use Rattle.update_spec.specs.Judge.{uses_regex, count_unsafe};
ghost use Rattle.update_spec.specs.Update.{without_ids};
ghost use Rattle.rule_ids.specs.Counted.{counts_of};
ghost use Rattle.rule_ids.specs.Off.{AreApart};
ghost use Rattle.rule_segments.specs.Segments.{AreFew, AreHalfLive, live_among};

use crate::joining::{tapered, total};
use crate::kept_rules::KeptRules;
use crate::segment::Segment;
use crate::shared_rule::SharedRule;
use dnr_base::NoMemory;
use rule_ids::{Counts, distinct};
use std::alloc::Global;
use std::marker::Model;

/// Rules that come and go, in segments, and how many of them count for a limit. A clause sees the rules that are live,
/// in their order.
#[derive(Debug, Drop)]
pub struct RuleList {
    segments: Vec<Segment>,
    counts: Counts,
}

impl Model for RuleList {
    ghost use Rattle.std.specs.Prelude.{List};
    ghost use Rattle.rule_spec.specs.Rule as spec;
    ghost use Rattle.rule_segments.specs.Counts.{AreListed};
    ghost use Rattle.rule_segments.specs.Segments.{live_among};

    ghost Value = { List spec.Rule };

    ghost view = { λ l. live_among l.segments.items };

    ghost invariant = { λ l. AreListed l.segments.items l.counts };
}

// The segments without the rules of these ids.
#[tactic(auto, using(crate::proofs::Removed::without_more))]
fn without(alloc: Global, segments: &[Segment], remove: &[u32]) -> Result<Vec<Segment>, NoMemory>
    requires { AreApart remove.now }
    ensures { IfOk result (λ next. live_among next.items ≡ without_ids remove.now (live_among segments.now)) }
{
    // (one may come behind them)
    let mut next = Vec::with_capacity(alloc, segments.len().saturating_add(1))?;
    for segment in segments {
        next.push(segment.without(alloc, remove)?)?;
    }
    Ok(next)
}

impl RuleList {
    /// No rules. It takes no memory.
    pub fn empty(alloc: Global) -> RuleList
        ensures { result ≡ [] }
    {
        RuleList {
            segments: Vec::new(alloc),
            counts: Counts::none(),
        }
    }

    // The live rules of the segments, and these behind them.
    pub(crate) fn of(
        alloc: Global,
        segments: &[Segment],
        newer: &[SharedRule],
    ) -> Result<RuleList, NoMemory>
        ensures { IfOk result (λ list. list ≡ live_among segments.now ++ newer.now) }
    {
        let segments = tapered(alloc, segments, newer)?;
        let counts = total(segments.as_slice())?;
        Ok(RuleList { segments, counts })
    }

    // How many rules there are, and how many of them count for a limit.
    fn counts(&self) -> Counts
        ensures { result ≡ counts_of self.now }
    {
        self.counts
    }

    /// How many rules there are.
    pub fn len(&self) -> usize
        ensures { result ≡ length self.now }
    {
        self.counts().rules
    }

    /// The segments, oldest first. The rules are those of all segments that are live.
    #[tactic(auto, using(crate::proofs::Tapered::tapered_are_few))]
    pub fn segments(&self) -> &[Segment]
        ensures live { live_among result.now ≡ self.now }
        ensures few { AreFew result.now }
        ensures half { AreHalfLive result.now }
    {
        self.segments.as_slice()
    }

    /// How many of them have a `regexFilter`.
    pub fn patterns(&self) -> usize
        ensures { result ≡ count_by uses_regex self.now }
    {
        self.counts().patterns
    }

    /// How many of them are unsafe.
    pub fn unsafe_rules(&self) -> usize
        ensures { result ≡ count_unsafe self.now }
    {
        self.counts().unsafe_rules
    }

    /// The rules that stay when those of these ids are removed.
    ///
    /// `NoMemory`: no memory is left for what changes.
    pub fn without(&self, alloc: Global, remove: &[u32]) -> Result<KeptRules, NoMemory>
        ensures { IfOk result (λ kept. kept ≡ without_ids remove.now self.now) }
    {
        let remove = distinct(alloc, remove)?;
        let segments = without(alloc, self.segments(), remove.as_slice())?;
        Ok(KeptRules::of(segments))
    }
}
