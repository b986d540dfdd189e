ghost use Rattle.std.specs.Prelude.{◌≡◌, ◌≤◌, ◌+◌, [], ◌∷◌, length, fold, option_to_list, Some, IsSome, OnOk, IfOk, IfSome, IsErrOf};
ghost use Rattle.std.specs.List.{sum_by};
ghost use Rattle.dnr_base.specs.Faults.{HasCauseOf};
ghost use Rattle.rule_match.specs.Answers.{IsCalm};
ghost use Rattle.explain_spec.specs.Explanation.{frame_of};
ghost use Rattle.rule_segments.specs.Segments.{live_among};
ghost use Rattle.rule_spec.specs.State.{live_rules, live_with};
ghost use Rattle.generation.specs.Block.{added_to, live_there, lives_in};
ghost use Rattle.generation.specs.Hits.{acts_by, live_count, pairs_by, pairs_in, part_at, with_hit, with_part};
ghost use Rattle.generation.specs.Kept as spec;
ghost use Rattle.generation.specs.Refused.{Ends, IsPattern, IsPatternOf};
ghost use Rattle.dnr_base.specs.Request.{max_frames};

use crate::DecideRefusal;
use crate::blame::{name_asked, no_name, refusal_by};
use crate::block::Block;
use crate::hits::{Hit, find, no_hits};
use crate::kept::Kept;
use crate::live::Live;
use crate::long_frames::long_frames;
use crate::targets::may_act;
use dnr_base::{NoMemory, Rank, Request, RuleName, Steps};
use dnr_rules::Rule;
use regex_host::RegexHost;
use rule_index::ListedPart;
use rule_match::{MatchRefusal, PreparedRequest, Reach};
use ruleset_store::{InstalledExtension, Segment};
use std::alloc::Global;
use std::marker::Model;
use std::mem::replace;
use std::sync::ledger::Ledger;
use suffix_list::SuffixList;

// A request that is scanned for, prepared for the tests of rules and for look-ups. A clause sees the request and the suffix rules.
#[derive(Drop)]
pub(crate) struct Scan<'r> {
    pub alloc: Global,
    pub request: &'r Request,
    prepared: PreparedRequest<'r>,
    own: ListedPart<'r>,
    long: Vec<Option<ListedPart<'r>>>,
}

impl<'r> Model for Scan<'r> {
    ghost use Rattle.std.specs.Prelude.{◌≡◌, ◌≤◌, length};
    ghost use Rattle.dnr_base.specs.Request.{max_frames, own_part};
    ghost use Rattle.rule_match.specs.Prepared.{PreparedRequest};
    ghost use Rattle.generation.specs.LongFrames.{AreLong};

    ghost Value = { PreparedRequest };

    ghost view = { λ s. s.prepared };

    ghost invariant = { λ s. (s.prepared.request ≡ s.request.now)
        × (length s.request.now.frames ≤ max_frames)
        × (s.own ≡ own_part s.request.now)
        × AreLong s.long.items s.request.now };
}

// What is written into while rules are walked: the hits of a block, and the name of the rule for which the host is asked.
#[derive(Drop)]
pub(crate) struct Scratch {
    hits: Vec<Hit>,
    asked: RuleName,
}

// The number, if it fits.
fn narrow(n: usize) -> Option<u32>
    ensures { IfSome result (λ narrow. narrow ≡ n) }
{
    u32::try_from(n).ok()
}

// The place of the frame by which a rule reaches, if it is by one.
fn frame_of(reach: Reach) -> Option<u32>
    ensures { result ≡ frame_of (Some reach) }
{
    match reach {
        Reach::Own => None,
        Reach::Frame(place) => Some(place),
    }
}

// The part of this number: the request itself, and behind it its frames.
pub(crate) fn part_at(part: u32) -> Reach
    ensures { result ≡ part_at part }
{
    if part == 0 {
        Reach::Own
    } else {
        Reach::Frame(part - 1)
    }
}

impl<'r> Scan<'r> {
    pub(crate) fn new(
        alloc: Global,
        request: &'r Request,
        list: &'r SuffixList,
    ) -> Result<Scan<'r>, NoMemory>
        requires { length request.now.frames ≤ max_frames }
        ensures { IfOk result (λ scan. scan ≡ record { suffixes = list.now; request = request.now }) }
    {
        Ok(Scan {
            alloc,
            request,
            prepared: PreparedRequest::new(request, list),
            own: ListedPart::new(alloc, request.own_part())?,
            long: long_frames(alloc, request)?,
        })
    }

    // Whether the rule reaches the request by this part and may act on it.
    fn acts_by<H: RegexHost, L: Ledger>(
        &self,
        kept: &mut Kept<'_>,
        rule: &Rule,
        part: Reach,
        host: &mut H,
        steps: &mut Steps<L>,
    ) -> Result<bool, MatchRefusal>
        ensures value { IfOk result (λ acts. acts ≡ acts_by self.now.suffixes self.now.request part kept.old rule.now) }
        ensures kept { kept.new ≡ kept.old }
        ensures few { steps.new ≤ steps.old + 1 }
        ensures asked { IsErrOf result MatchRefusal.HostFault → IsSome rule.now.condition.regex_filter }
        ensures cause { HasCauseOf MatchRefusal.HostFault (H.faults host.old) (H.faults host.new) result }
        ensures calm { IsCalm (H.faults host.old) (H.faults host.new) result }
    {
        if !self.prepared.reaches_by(part, rule, host, steps)? {
            return Ok(false);
        }
        may_act(
            self.alloc,
            kept.name,
            &mut kept.access,
            rule,
            &self.request.view,
            host,
        )
    }

    // Takes a rule in force in, if it acts by this part.
    fn take_live<'a, H: RegexHost, L: Ledger>(
        &self,
        kept: &mut Kept<'a>,
        live: Live<'a>,
        part: Reach,
        asked: &mut RuleName,
        host: &mut H,
        steps: &mut Steps<L>,
    ) -> Result<(), DecideRefusal>
        ensures kept { OnOk result (kept.new ≡ with_part self.now.suffixes self.now.request part kept.old live.entry) }
        ensures few { steps.new ≤ steps.old + 1 }
        ensures ends { Ends (IsPattern kept.old.name (live.entry ∷ [])) (H.faults host.old) (H.faults host.new) result }
    {
        if kept.outdoes(&live) {
            return Ok(());
        }
        if name_asked(self.alloc, asked, kept.name, &live).is_err() {
            return Err(DecideRefusal::NoMemory);
        }
        match self.acts_by(kept, live.rule, part, host, steps) {
            Ok(true) => match kept.add(live, frame_of(part)) {
                Ok(()) => Ok(()),
                Err(_) => Err(DecideRefusal::NoMemory),
            },
            Ok(false) => Ok(()),
            Err(refusal) => Err(refusal_by(refusal, replace(asked, no_name(self.alloc)))),
        }
    }

    // Takes the rule of a hit in, if it is in force and acts by this part.
    fn take_hit<'a, H: RegexHost, L: Ledger>(
        &self,
        kept: &mut Kept<'a>,
        block: &Block<'a>,
        hit: Hit,
        asked: &mut RuleName,
        host: &mut H,
        steps: &mut Steps<L>,
    ) -> Result<(), DecideRefusal>
        ensures kept { OnOk result (kept.new ≡ with_hit self.now.suffixes self.now.request block.now kept.old hit) }
        ensures few { steps.new ≤ steps.old + live_count block.now hit }
        ensures ends { Ends (IsPattern kept.old.name (option_to_list (live_there block.now hit.0)))
            (H.faults host.old) (H.faults host.new) result }
    {
        match block.live_at(hit.0 as usize) {
            Some(live) => self.take_live(kept, live, part_at(hit.1), asked, host, steps),
            None => Ok(()),
        }
    }

    // Takes the rules of the hits in, one after another.
    fn take_hits<'a, H: RegexHost, L: Ledger>(
        &self,
        kept: Kept<'a>,
        block: &Block<'a>,
        hits: &[Hit],
        asked: &mut RuleName,
        host: &mut H,
        steps: &mut Steps<L>,
    ) -> Result<Kept<'a>, DecideRefusal>
        ensures kept { IfOk result (λ new. new ≡ fold
            (with_hit self.now.suffixes self.now.request block.now) kept.entry hits.now) }
        ensures few { steps.new ≤ steps.old + sum_by (live_count block.now) hits.now }
        ensures ends { Ends (IsPattern kept.entry.name (lives_in block.now)) (H.faults host.old)
            (H.faults host.new) result }
    {
        let mut kept = kept;
        for hit in hits {
            match self.take_hit(&mut kept, block, *hit, asked, host, steps) {
                Ok(()) => {}
                Err(refusal) => return Err(refusal),
            }
        }
        Ok(kept)
    }

    // Takes the rules of a block in. Those that do not reach the request are not walked.
    fn take_block<'a, H: RegexHost, L: Ledger>(
        &self,
        kept: Kept<'a>,
        block: &Block<'a>,
        scratch: &mut Scratch,
        host: &mut H,
        steps: &mut Steps<L>,
    ) -> Result<Kept<'a>, DecideRefusal>
        ensures kept { IfOk result (λ new. new ≡ spec.with_lives self.now.suffixes self.now.request kept.entry
            (lives_in block.now)) }
        ensures bound { steps.new ≤ steps.old + pairs_by (lives_in block.now) self.now.request }
        ensures ends { Ends (IsPattern kept.entry.name (lives_in block.now)) (H.faults host.old)
            (H.faults host.new) result }
    {
        let Scratch { hits, asked } = scratch;
        match find(hits, block, self.request, &self.own, &self.long) {
            Ok(()) => self.take_hits(kept, block, hits.as_slice(), asked, host, steps),
            Err(_) => Err(DecideRefusal::NoMemory),
        }
    }

    // Takes the rules of segments in that were added to an extension.
    fn take_segments<'a, H: RegexHost, L: Ledger>(
        &self,
        kept: Kept<'a>,
        rank: Rank,
        set: &'a str,
        segments: &'a [Segment],
        scratch: &mut Scratch,
        host: &mut H,
        steps: &mut Steps<L>,
    ) -> Result<Kept<'a>, DecideRefusal>
        ensures kept { IfOk result (λ new. new ≡ spec.with_lives self.now.suffixes self.now.request kept.entry
            (live_with rank set.now (live_among segments.now))) }
        ensures bound { steps.new ≤ steps.old + pairs_by
            (live_with rank set.now (live_among segments.now)) self.now.request }
        ensures ends { Ends (IsPattern kept.entry.name (live_with rank set.now (live_among segments.now)))
            (H.faults host.old) (H.faults host.new) result }
    {
        let mut kept = kept;
        for segment in segments {
            let block = Block::of_segment(rank, set, segment);
            match self.take_block(kept, &block, scratch, host, steps) {
                Ok(more) => kept = more,
                Err(refusal) => return Err(refusal),
            }
        }
        Ok(kept)
    }

    // Takes the rules in that were added since the extension was installed.
    fn take_added<'a, H: RegexHost, L: Ledger>(
        &self,
        kept: Kept<'a>,
        extension: &'a InstalledExtension,
        scratch: &mut Scratch,
        host: &mut H,
        steps: &mut Steps<L>,
    ) -> Result<Kept<'a>, DecideRefusal>
        ensures kept { IfOk result (λ new. new ≡ spec.with_lives self.now.suffixes self.now.request kept.entry
            (added_to extension.now)) }
        ensures bound { steps.new ≤ steps.old + pairs_by (added_to extension.now) self.now.request }
        ensures ends { Ends (IsPattern kept.entry.name (added_to extension.now)) (H.faults host.old)
            (H.faults host.new) result }
    {
        let session = extension.session().segments();
        let dynamic = extension.dynamic().segments();
        match self.take_segments(
            kept,
            Rank::Session,
            "_session",
            session,
            scratch,
            host,
            steps,
        ) {
            Ok(kept) => {
                self.take_segments(
                    kept,
                    Rank::Dynamic,
                    "_dynamic",
                    dynamic,
                    scratch,
                    host,
                    steps,
                )
            }
            Err(refusal) => Err(refusal),
        }
    }

    // What is kept of an extension.
    fn take_extension<H: RegexHost, L: Ledger>(
        &self,
        age: usize,
        extension: &'r InstalledExtension,
        scratch: &mut Scratch,
        host: &mut H,
        steps: &mut Steps<L>,
    ) -> Result<Kept<'r>, DecideRefusal>
        ensures kept { IfOk result (λ kept. kept ≡ spec.kept_of self.now.suffixes self.now.request age extension.now) }
        ensures bound { steps.new ≤ steps.old + pairs_by (live_rules extension.now) self.now.request }
        ensures ends { Ends (IsPattern extension.now.name (live_rules extension.now)) (H.faults host.old)
            (H.faults host.new) result }
    {
        // An age past the end of its type is a want of room like another.
        let Some(age) = narrow(age) else {
            return Err(DecideRefusal::NoMemory);
        };
        let kept = Kept::new(self.alloc, extension, age, self.request);
        match self.take_added(kept, extension, scratch, host, steps) {
            Ok(kept) => self.take_block(kept, &Block::of_sets(extension), scratch, host, steps),
            Err(refusal) => Err(refusal),
        }
    }

    // What is kept of each extension.
    pub(crate) fn take_all<H: RegexHost, L: Ledger>(
        &self,
        extensions: &'r [InstalledExtension],
        host: &mut H,
        steps: &mut Steps<L>,
    ) -> Result<Vec<Kept<'r>>, DecideRefusal>
        ensures kept { IfOk result (λ kepts. kepts.items
            ≡ spec.kept_from self.now.suffixes self.now.request 0 extensions.now) }
        ensures bound { steps.new ≤ steps.old + pairs_in extensions.now self.now.request }
        ensures ends { Ends (IsPatternOf extensions.now) (H.faults host.old) (H.faults host.new) result }
    {
        let Some(hits) = no_hits(self.alloc) else {
            return Err(DecideRefusal::NoMemory);
        };
        let asked = no_name(self.alloc);
        let mut scratch = Scratch { hits, asked };
        let mut kepts = Vec::new(self.alloc);
        for (age, extension) in extensions.iter().enumerate() {
            match self.take_extension(age, extension, &mut scratch, host, steps) {
                Ok(kept) => {
                    if kepts.push(kept).is_err() {
                        return Err(DecideRefusal::NoMemory);
                    }
                }
                Err(refusal) => return Err(refusal),
            }
        }
        Ok(kepts)
    }
}
