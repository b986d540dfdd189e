ghost use Rattle.std.specs.Prelude.{◌≡◌, ◌++◌, IfOk};
ghost use Rattle.std.specs.List.{list_any};
ghost use Rattle.update_spec.specs.Judge.{has_id};
ghost use Rattle.rule_segments.specs.Segments.{live_among, live_in};

use crate::rule_list::RuleList;
use crate::segment::Segment;
use crate::shared_rule::SharedRule;
use dnr_base::NoMemory;
use std::alloc::Global;
use std::marker::Model;

/// The rules of a list that stay when some are removed, before others come. No index was made anew for them: that is done
/// once, when it is known which others come. A clause sees the rules.
#[derive(Debug, Drop)]
pub struct KeptRules {
    segments: Vec<Segment>,
}

impl Model for KeptRules {
    ghost use Rattle.std.specs.Prelude.{List};
    ghost use Rattle.rule_spec.specs.Rule as spec;
    ghost use Rattle.rule_segments.specs.Segments.{live_among};

    ghost Value = { List spec.Rule };

    ghost view = { λ k. live_among k.segments.items };
}

// Whether a live rule of one of the segments has this id.
fn has_live(segments: &[Segment], id: u32) -> bool
    ensures { result ≡ list_any (λ segment. has_id (live_in segment) id) segments.now }
{
    segments.iter().any(|segment| segment.has_live(id))
}

impl KeptRules {
    // The live rules of the segments.
    pub(crate) fn of(segments: Vec<Segment>) -> KeptRules
        ensures { result ≡ live_among segments.items }
    {
        KeptRules { segments }
    }

    /// Whether one of the rules has this id. It is asked in the time of a search in each segment.
    pub fn has_id(&self, id: u32) -> bool
        ensures { result ≡ has_id self.now id }
    {
        has_live(self.segments.as_slice(), id)
    }

    /// The rules and these behind them, which are a segment of their own or part of one.
    ///
    /// `NoMemory`: no memory is left for what changes.
    pub fn with(self, alloc: Global, add: &[SharedRule]) -> Result<RuleList, NoMemory>
        ensures { IfOk result (λ next. next ≡ self ++ add.now) }
    {
        RuleList::of(alloc, self.segments.as_slice(), add)
    }
}
