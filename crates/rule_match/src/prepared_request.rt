ghost use Rattle.std.specs.Prelude.{◌≡◌, ◌+◌, ◌≤◌, ◌<◌, length, Some, None, is_some, option_map};
ghost use Rattle.std.specs.Prelude.{IfOk, OnErr, IsTrue};
ghost use Rattle.dnr_base.specs.Faults.{HasCauseOf};
ghost use Rattle.dnr_base.specs.Request.{own_part, frame_part, max_frames};
ghost use Rattle.rule_spec.specs.Reaches.{reach_of, first_frame, holds_on_part};
ghost use Rattle.dnr_rules.specs.Seen.{action_seen};
ghost use Rattle.rule_match.specs.Answers.{IsCalm};
ghost use Rattle.rule_match.specs.Tested as tested;
ghost use Rattle.rule_match.specs.Tested.{parts_tested, frames_tested, part_count, reaches_by};

use crate::{MatchRefusal, PreparedPart};
use dnr_base::{Request, Steps};
use dnr_rules::{Action, Rule};
use regex_host::RegexHost;
use rule_spec::Reach;
use std::marker::Model;
use std::sync::ledger::Ledger;
use suffix_list::SuffixList;

/// A request on which many rules are tested, and the suffix list by which parties are told. A clause sees the request and
/// the suffix rules.
#[derive(Drop)]
pub struct PreparedRequest<'a> {
    request: &'a Request,
    list: &'a SuffixList,
    own: PreparedPart<'a>,
}

impl<'a> Model for PreparedRequest<'a> {
    ghost use Rattle.std.specs.Prelude.{◌≡◌, ◌≤◌, length};
    ghost use Rattle.dnr_base.specs.Request.{own_part, max_frames};
    ghost use Rattle.rule_match.specs.Prepared.{PreparedRequest};

    ghost Value = { PreparedRequest };

    ghost view = { λ r. record { suffixes = r.list.now; request = r.request.now } };

    ghost invariant = { λ r. (length r.request.now.frames ≤ max_frames)
        × (r.own ≡ record { suffixes = r.list.now; part = own_part r.request.now }) };
}

impl<'a> PreparedRequest<'a> {
    /// A request, and the suffix list by which the parties of its parts are told. It takes no memory.
    pub fn new(request: &'a Request, list: &'a SuffixList) -> PreparedRequest<'a>
        requires { length request.now.frames ≤ max_frames }
        ensures { result ≡ record { suffixes = list.now; request = request.now } }
    {
        PreparedRequest {
            request,
            list,
            own: PreparedPart::new(request.own_part(), list),
        }
    }

    /// What the request says of itself.
    pub fn own(&self) -> &PreparedPart<'a>
        ensures { result.now ≡ record { suffixes = self.now.suffixes; part = own_part self.now.request } }
    {
        &self.own
    }

    /// What the frame at a place, from 0 for the outermost, says of its own document. `None`: there is no such
    /// frame, or it has no URL.
    pub fn frame(&self, place: usize) -> Option<PreparedPart<'a>>
        ensures { result ≡ option_map
            (λ part. record { suffixes = self.now.suffixes; part = part }) (frame_part self.now.request place) }
    {
        let part = self.request.frame_part(place)?;
        Some(PreparedPart::new(part, self.list))
    }

    // Whether the rule holds on the frame at a place, if that has a URL.
    fn matches_frame<H: RegexHost, L: Ledger>(
        &self,
        place: usize,
        rule: &Rule,
        host: &mut H,
        steps: &mut Steps<L>,
    ) -> Result<bool, MatchRefusal>
        ensures value { IfOk result (λ is_match. is_match
            ≡ holds_on_part self.now.suffixes rule.now (frame_part self.now.request place)) }
        ensures steps { steps.new ≡ steps.old + part_count (frame_part self.now.request place) }
        ensures asked { OnErr result (IsTrue (is_some rule.now.condition.regex_filter)) }
        ensures cause { HasCauseOf MatchRefusal.HostFault (H.faults host.old) (H.faults host.new) result }
        ensures calm { IsCalm (H.faults host.old) (H.faults host.new) result }
    {
        match self.frame(place) {
            Some(part) => part.matches(rule, host, steps),
            None => Ok(false),
        }
    }

    // The place of the first frame on which the rule holds.
    #[tactic(auto, using(crate::proofs::FrameSteps::frame_steps))]
    fn first_frame<H: RegexHost, L: Ledger>(
        &self,
        rule: &Rule,
        host: &mut H,
        steps: &mut Steps<L>,
    ) -> Result<Option<u32>, MatchRefusal>
        ensures value { IfOk result (λ place. place
            ≡ first_frame self.now.suffixes rule.now self.now.request 0 self.now.request.frames) }
        ensures steps { IfOk result (λ place. steps.new ≡ steps.old
            + frames_tested self.now.suffixes rule.now self.now.request 0 self.now.request.frames) }
        ensures few { steps.new ≤ steps.old
            + frames_tested self.now.suffixes rule.now self.now.request 0 self.now.request.frames }
        ensures asked { OnErr result (IsTrue (is_some rule.now.condition.regex_filter)) }
        ensures cause { HasCauseOf MatchRefusal.HostFault (H.faults host.old) (H.faults host.new) result }
        ensures calm { IsCalm (H.faults host.old) (H.faults host.new) result }
    {
        for place in 0..self.request.frames.as_slice().len() {
            if self.matches_frame(place, rule, host, steps)? {
                return Ok(Some(place as u32));
            }
        }
        Ok(None)
    }

    /// Whether the rule reaches the request by this part: by the request itself or, where it is an `allowAllRequests`, by
    /// the frame at this place, whether or not it does so by another part too. It is one step at most.
    ///
    /// # Errors
    ///
    /// Those of `reaches`.
    pub fn reaches_by<H: RegexHost, L: Ledger>(
        &self,
        part: Reach,
        rule: &Rule,
        host: &mut H,
        steps: &mut Steps<L>,
    ) -> Result<bool, MatchRefusal>
        ensures value { IfOk result (λ is_so. is_so ≡ reaches_by self.now.suffixes rule.now self.now.request part) }
        ensures few { steps.new ≤ steps.old + 1 }
        ensures asked { OnErr result (IsTrue (is_some rule.now.condition.regex_filter)) }
        ensures cause { HasCauseOf MatchRefusal.HostFault (H.faults host.old) (H.faults host.new) result }
        ensures calm { IsCalm (H.faults host.old) (H.faults host.new) result }
    {
        match part {
            Reach::Own => self.own.matches(rule, host, steps),
            Reach::Frame(place) => {
                if reaches_by_frames(rule.action()) {
                    self.matches_frame(place as usize, rule, host, steps)
                } else {
                    Ok(false)
                }
            }
        }
    }

    /// The same of a rule without `regexFilter`. It takes no memory.
    pub fn plain_reaches_by<L: Ledger>(
        &self,
        part: Reach,
        rule: &Rule,
        steps: &mut Steps<L>,
    ) -> bool
        requires { rule.now.condition.regex_filter ≡ None }
        ensures value { result ≡ reaches_by self.now.suffixes rule.now self.now.request part }
        ensures few { steps.new ≤ steps.old + 1 }
    {
        match part {
            Reach::Own => self.own.plain_matches(rule, steps),
            Reach::Frame(place) => {
                reaches_by_frames(rule.action())
                    && self.plain_matches_frame(place as usize, rule, steps)
            }
        }
    }

    /// How the rule reaches the request: by the request itself, or, where it is an `allowAllRequests`, by the
    /// first frame on which it holds, the outermost first. `None`: it does not reach it. Each part tested is one
    /// step.
    ///
    /// # Errors
    ///
    /// Only of a rule with a `regexFilter`:
    ///
    /// - `HostFault`: the host failed, and its count of faults rose.
    /// - `NoMemory`: memory ran out.
    pub fn reaches<H: RegexHost, L: Ledger>(
        &self,
        rule: &Rule,
        host: &mut H,
        steps: &mut Steps<L>,
    ) -> Result<Option<Reach>, MatchRefusal>
        ensures value { IfOk result (λ reach. reach ≡ reach_of self.now.suffixes rule.now self.now.request) }
        ensures steps { IfOk result (λ reach. steps.new
            ≡ steps.old + parts_tested self.now.suffixes rule.now self.now.request) }
        ensures few { steps.new ≤ steps.old + parts_tested self.now.suffixes rule.now self.now.request }
        ensures asked { OnErr result (IsTrue (is_some rule.now.condition.regex_filter)) }
        ensures cause { HasCauseOf MatchRefusal.HostFault (H.faults host.old) (H.faults host.new) result }
        ensures calm { IsCalm (H.faults host.old) (H.faults host.new) result }
    {
        if self.own.matches(rule, host, steps)? {
            return Ok(Some(Reach::Own));
        }
        if self.request.frames.as_slice().is_empty() || !reaches_by_frames(rule.action()) {
            return Ok(None);
        }
        let place = self.first_frame(rule, host, steps)?;
        Ok(place.map(Reach::Frame))
    }

    // The place of the first frame on which a rule without pattern holds.
    #[tactic(auto, using(crate::proofs::FrameSteps::frame_steps))]
    fn plain_first_frame<L: Ledger>(&self, rule: &Rule, steps: &mut Steps<L>) -> Option<u32>
        requires { rule.now.condition.regex_filter ≡ None }
        ensures value { result
            ≡ first_frame self.now.suffixes rule.now self.now.request 0 self.now.request.frames }
        ensures steps { steps.new ≡ steps.old
            + frames_tested self.now.suffixes rule.now self.now.request 0 self.now.request.frames }
    {
        for place in 0..self.request.frames.as_slice().len() {
            if self.plain_matches_frame(place, rule, steps) {
                return Some(place as u32);
            }
        }
        None
    }

    // Whether a rule without pattern holds on the frame at a place, if that has a URL.
    fn plain_matches_frame<L: Ledger>(
        &self,
        place: usize,
        rule: &Rule,
        steps: &mut Steps<L>,
    ) -> bool
        requires { rule.now.condition.regex_filter ≡ None }
        ensures value { result
            ≡ holds_on_part self.now.suffixes rule.now (frame_part self.now.request place) }
        ensures steps { steps.new ≡ steps.old + part_count (frame_part self.now.request place) }
    {
        match self.frame(place) {
            Some(part) => part.plain_matches(rule, steps),
            None => false,
        }
    }

    /// The same of a rule without `regexFilter`. It takes no memory.
    pub fn plain_reaches<L: Ledger>(&self, rule: &Rule, steps: &mut Steps<L>) -> Option<Reach>
        requires { rule.now.condition.regex_filter ≡ None }
        ensures value { result ≡ reach_of self.now.suffixes rule.now self.now.request }
        ensures steps { steps.new ≡ steps.old + parts_tested self.now.suffixes rule.now self.now.request }
    {
        if self.own.plain_matches(rule, steps) {
            return Some(Reach::Own);
        }
        if self.request.frames.as_slice().is_empty() || !reaches_by_frames(rule.action()) {
            return None;
        }
        self.plain_first_frame(rule, steps).map(Reach::Frame)
    }
}

fn reaches_by_frames(action: &Action) -> bool
    ensures { result ≡ tested.reaches_by_frames (action_seen action.now) }
{
    matches!(action, Action::AllowAllRequests)
}
