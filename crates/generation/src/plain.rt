// Whether a request is blocked, where no rule in force asks for a match of a pattern and none sends a request elsewhere. It
// is told without memory: of an extension only the strongest candidate so far is kept, and a rule may come several times.
ghost use Rattle.std.specs.Prelude.{◌≡◌, ◌≤◌, ◌+◌, ◌<◌, ℕ, Some, length, max, true, IfSome, MatchBool};
ghost use Rattle.std.specs.List.{flat_map, sum_by};
ghost use Rattle.dnr_base.specs.Request.{frame_part, max_frames, own_part};
ghost use Rattle.dnr_base.specs.View.{IsView};
ghost use Rattle.dnr_rules.specs.Seen.{action_seen};
ghost use Rattle.index_spec.specs.Pairs.{pairs_of_rules};
ghost use Rattle.rule_index.specs.Index.{near};
ghost use Rattle.rule_index.specs.Needs.{shown_by};
ghost use Rattle.rule_segments.specs.Segments.{live_among, live_in};
ghost use Rattle.generation.specs.Block.{lives_in};
ghost use Rattle.generation.specs.Hits.{frame_hits, hits_by, hits_on, live_count, pairs_by};
ghost use Rattle.generation.specs.Plain as spec;
ghost use Rattle.generation.specs.Plain.{are_plain, greatest, level_in, level_of, rules_by};

use crate::block::Block;
use crate::hits::shown;
use crate::live::Live;
use crate::scan::part_at;
use dnr_base::{Candidate, Rank, Request, Scheme, Steps, Verb, View};
use dnr_rules::Action;
use precedence::beats;
use rule_index::{ListIndex, Walk};
use rule_match::{PreparedRequest, Reach};
use ruleset_store::{InstalledExtension, Segment};
use std::marker::Model;
use std::sync::ledger::Ledger;
use suffix_list::SuffixList;

// A request of which it is asked whether it is blocked. A clause sees the request and the suffix rules.
#[derive(Drop)]
pub(crate) struct PlainScan<'r> {
    request: &'r Request,
    prepared: PreparedRequest<'r>,
    shown: u128,
}

impl<'r> Model for PlainScan<'r> {
    ghost use Rattle.std.specs.Prelude.{◌≡◌, ◌≤◌, length};
    ghost use Rattle.dnr_base.specs.Request.{max_frames, own_part};
    ghost use Rattle.rule_index.specs.Index.{near};
    ghost use Rattle.rule_index.specs.Needs.{shown_by};
    ghost use Rattle.rule_match.specs.Prepared.{PreparedRequest};

    ghost Value = { PreparedRequest };

    ghost view = { λ s. s.prepared };

    ghost invariant = { λ s. (s.prepared.request ≡ s.request.now)
        × (length s.request.now.frames ≤ max_frames)
        × (s.shown ≡ shown_by (own_part s.request.now)) };
}

// Whether a plain rule of this action may decide a request of this view.
fn may_decide(action: &Action, view: &View) -> bool
    ensures { result ≡ spec.may_decide (action_seen action.now) view.now }
{
    match action {
        Action::Block | Action::Allow | Action::AllowAllRequests => true,
        Action::UpgradeScheme => matches!(view.scheme(), Scheme::Http | Scheme::Ftp),
        Action::Redirect(_) | Action::ModifyHeaders(_) => false,
    }
}

// Whether the candidate is no stronger than the best so far.
fn is_outdone(best: &Option<Candidate>, next: &Candidate) -> bool
    ensures { MatchBool result (level_of next.now.priority next.now.action ≤ level_in best.now)
        (level_in best.now ≤ level_of next.now.priority next.now.action) }
{
    match best {
        Some(best) => !beats(next, best),
        None => false,
    }
}

// The live rules of a segment. Neither their rank nor the name of their ruleset decides anything here.
#[tactic(auto, using(crate::proofs::PlainRules::with_rules))]
fn of_segment(segment: &Segment) -> Block<'_>
    ensures { rules_by (lives_in result) ≡ live_in segment.now }
{
    Block::of_segment(Rank::Session, "", segment)
}

// The rules of the rulesets that are enabled. Nor do their places decide anything.
#[tactic(auto, using(crate::proofs::PlainRules::sets_rules))]
fn of_sets(extension: &InstalledExtension) -> Block<'_>
    ensures { rules_by (lives_in result) ≡ flat_map spec.rules_of_set extension.now.sets }
{
    Block::of_sets(extension)
}

fn blocks_by(best: &Option<Candidate>) -> bool
    ensures { result ≡ spec.blocks_by best.now }
{
    match best {
        Some(best) => matches!(best.action, Verb::Block),
        None => false,
    }
}

impl<'r> PlainScan<'r> {
    pub(crate) fn new(request: &'r Request, list: &'r SuffixList) -> PlainScan<'r>
        requires { length request.now.frames ≤ max_frames }
        ensures { result ≡ record { suffixes = list.now; request = request.now } }
    {
        PlainScan {
            request,
            prepared: PreparedRequest::new(request, list),
            shown: shown(request),
        }
    }

    fn request(&self) -> &'r Request
        ensures value { result.now ≡ self.now.request }
        ensures few { length result.now.frames ≤ max_frames }
    {
        self.request
    }

    // What the request itself shows.
    fn shown(&self) -> u128
        ensures { result ≡ shown_by (own_part self.now.request) }
    {
        self.shown
    }

    // The stronger of the best so far and a rule in force, if it reaches the request by this part and may decide.
    #[tactic(auto, using(crate::proofs::PlainHits::one_rule, crate::proofs::PlainRules::asks_none))]
    fn with_live<L: Ledger>(
        &self,
        best: Option<Candidate>,
        live: &Live<'_>,
        part: Reach,
        steps: &mut Steps<L>,
    ) -> Option<Candidate>
        requires { spec.is_plain_rule live.now.rule ≡ true }
        ensures level { level_in result ≡ max (level_in best)
            (spec.level_at self.now.suffixes self.now.request live.now.rule part) }
        ensures few { steps.new ≤ steps.old + 1 }
    {
        let Some(verb) = live.verb() else {
            return best;
        };
        let candidate = live.candidate(verb);
        if is_outdone(&best, &candidate) {
            return best;
        }
        if !may_decide(live.rule.action(), &self.request().view) {
            return best;
        }
        if self.prepared.plain_reaches_by(part, live.rule, steps) {
            Some(candidate)
        } else {
            best
        }
    }

    // The same of the rule at a place, if it is in force.
    #[tactic(auto, using(crate::proofs::PlainHits::live_is_plain))]
    fn with_hit<L: Ledger>(
        &self,
        best: Option<Candidate>,
        block: &Block<'_>,
        place: u32,
        part: u32,
        steps: &mut Steps<L>,
    ) -> Option<Candidate>
        requires { are_plain (rules_by (lives_in block.now)) ≡ true }
        ensures level { level_in result ≡ max (level_in best)
            (spec.hit_level self.now.suffixes self.now.request block.now (place, part)) }
        ensures few { steps.new ≤ steps.old + live_count block.now (place, part) }
    {
        match block.live_at(place as usize) {
            Some(live) => self.with_live(best, &live, part_at(part), steps),
            None => best,
        }
    }

    // The same of the rules at these places.
    fn with_places<L: Ledger>(
        &self,
        best: Option<Candidate>,
        block: &Block<'_>,
        places: Walk<'_>,
        part: u32,
        steps: &mut Steps<L>,
    ) -> Option<Candidate>
        requires { are_plain (rules_by (lives_in block.now)) ≡ true }
        ensures level { level_in result
            ≡ max (level_in best) (spec.hits_level self.now.suffixes self.now.request block.now (hits_by places.entry part)) }
        ensures few { steps.new ≤ steps.old + sum_by (live_count block.now) (hits_by places.entry part) }
    {
        let mut best = best;
        let mut places = places;
        while let Some(place) = places.next() {
            best = self.with_hit(best, block, place, part, steps);
        }
        best
    }

    // The same of the rules that may reach by the frame at a place, if it has a URL.
    fn with_frame<L: Ledger>(
        &self,
        best: Option<Candidate>,
        block: &Block<'_>,
        index: &ListIndex,
        place: usize,
        steps: &mut Steps<L>,
    ) -> Option<Candidate>
        requires plain { are_plain (rules_by (lives_in block.now)) ≡ true }
        requires place { place < max_frames }
        ensures level { level_in result
            ≡ max (level_in best) (spec.hits_level self.now.suffixes self.now.request block.now
            (hits_on index.now.framing (place + 1) (frame_part self.now.request place))) }
        ensures few { steps.new
            ≤ steps.old + sum_by (live_count block.now) (hits_on index.now.framing (place + 1) (frame_part self.now.request place)) }
        ensures view { IfSome (frame_part self.now.request place) (λ part. IsView part.view) }
    {
        let Some(part) = self.request().frame_part(place) else {
            return best;
        };
        let _text = part.view.text();
        let places = index.framing_candidates(&part);
        self.with_places(best, block, places, place as u32 + 1, steps)
    }

    // The same of those that may reach by frames.
    fn with_frames<L: Ledger>(
        &self,
        best: Option<Candidate>,
        block: &Block<'_>,
        index: &ListIndex,
        steps: &mut Steps<L>,
    ) -> Option<Candidate>
        requires { are_plain (rules_by (lives_in block.now)) ≡ true }
        ensures level { level_in result
            ≡ max (level_in best) (spec.hits_level self.now.suffixes self.now.request block.now
            (frame_hits index.now.framing self.now.request 0 self.now.request.frames)) }
        ensures few { steps.new
            ≤ steps.old + sum_by (live_count block.now) (frame_hits index.now.framing self.now.request 0 self.now.request.frames) }
        ensures views { (place : ℕ) → place < length self.now.request.frames
            → IfSome (frame_part self.now.request place) (λ part. IsView part.view) }
    {
        let request = self.request();
        let mut best = best;
        for place in 0..request.frames.as_slice().len() {
            best = self.with_frame(best, block, index, place, steps);
        }
        best
    }

    // The same of those that may reach by the request itself.
    fn with_own<L: Ledger>(
        &self,
        best: Option<Candidate>,
        block: &Block<'_>,
        index: &ListIndex,
        steps: &mut Steps<L>,
    ) -> Option<Candidate>
        requires { are_plain (rules_by (lives_in block.now)) ≡ true }
        ensures level { level_in result
            ≡ max (level_in best) (spec.hits_level self.now.suffixes self.now.request block.now
            (hits_by (near index.now.whole (Some (shown_by (own_part self.now.request))) (own_part self.now.request)) 0)) }
        ensures few { steps.new
            ≤ steps.old + sum_by (live_count block.now)
            (hits_by (near index.now.whole (Some (shown_by (own_part self.now.request))) (own_part self.now.request)) 0) }
        ensures view { IsView self.now.request.view }
    {
        let request = self.request();
        let _text = request.view.text();
        let part = request.own_part();
        let places = index.near(&part, self.shown());
        self.with_places(best, block, places, 0, steps)
    }

    // The same of all rules of a block. Those that do not reach the request are not walked.
    fn with_block<L: Ledger>(
        &self,
        best: Option<Candidate>,
        block: &Block<'_>,
        steps: &mut Steps<L>,
    ) -> Option<Candidate>
        requires { are_plain (rules_by (lives_in block.now)) ≡ true }
        ensures level { level_in result
            ≡ max (level_in best) (greatest self.now.suffixes self.now.request (rules_by (lives_in block.now))) }
        ensures bound { steps.new ≤ steps.old + pairs_by (lives_in block.now) self.now.request }
    {
        let index = block.index();
        let own = self.with_own(best, block, index, steps);
        self.with_frames(own, block, index, steps)
    }

    // The same of the live rules of segments.
    fn with_segments<L: Ledger>(
        &self,
        best: Option<Candidate>,
        segments: &[Segment],
        steps: &mut Steps<L>,
    ) -> Option<Candidate>
        requires { are_plain (live_among segments.now) ≡ true }
        ensures level { level_in result
            ≡ max (level_in best) (greatest self.now.suffixes self.now.request (live_among segments.now)) }
        ensures bound { steps.new ≤ steps.old + pairs_of_rules (live_among segments.now) self.now.request }
    {
        let mut best = best;
        for segment in segments {
            let block = of_segment(segment);
            best = self.with_block(best, &block, steps);
        }
        best
    }

    // The strongest candidate of an extension.
    fn strongest<L: Ledger>(
        &self,
        extension: &InstalledExtension,
        steps: &mut Steps<L>,
    ) -> Option<Candidate>
        requires { are_plain (spec.rules_of extension.now) ≡ true }
        ensures level { level_in result ≡ greatest self.now.suffixes self.now.request (spec.rules_of extension.now) }
        ensures bound { steps.new ≤ steps.old + pairs_of_rules (spec.rules_of extension.now) self.now.request }
    {
        let session = self.with_segments(None, extension.session().segments(), steps);
        let added = self.with_segments(session, extension.dynamic().segments(), steps);
        self.with_block(added, &of_sets(extension), steps)
    }

    // Whether the rule that decides inside an extension blocks.
    #[tactic(auto, using(crate::proofs::Levels::strongest_tells))]
    fn blocks<L: Ledger>(&self, extension: &InstalledExtension, steps: &mut Steps<L>) -> bool
        requires { are_plain (spec.rules_of extension.now) ≡ true }
        ensures value { result ≡ spec.blocks self.now.suffixes self.now.request extension.now }
        ensures bound { steps.new ≤ steps.old + pairs_of_rules (spec.rules_of extension.now) self.now.request }
    {
        blocks_by(&self.strongest(extension, steps))
    }

    // Whether one of the extensions blocks the request, which none other can then let go on.
    pub(crate) fn some_blocks<L: Ledger>(
        &self,
        extensions: &[InstalledExtension],
        steps: &mut Steps<L>,
    ) -> bool
        requires { are_plain (flat_map spec.rules_of extensions.now) ≡ true }
        ensures value { result ≡ spec.some_blocks self.now.suffixes self.now.request extensions.now }
        ensures bound { steps.new ≤ steps.old + pairs_of_rules
            (flat_map spec.rules_of extensions.now) self.now.request }
    {
        for extension in extensions {
            if self.blocks(extension, steps) {
                return true;
            }
        }
        false
    }
}
