ghost use Rattle.std.specs.Prelude.{◌≡◌, ◌+◌, None, is_some, IfOk, OnErr, IsTrue};
ghost use Rattle.dnr_base.specs.Faults.{HasCauseOf};
ghost use Rattle.dnr_base.specs.View.{text_of};
ghost use Rattle.dnr_spec.specs.Patterns.{found};
ghost use Rattle.rule_spec.specs.Holds.{holds, holds_on};
ghost use Rattle.rule_match.specs.Answers.{IsCalm};
ghost use Rattle.rule_match.specs.Groups as groups;
ghost use Rattle.rule_match.specs.Prepared as prepared;
ghost use Rattle.rule_match.specs.Patterns.{without_pattern, asks_for_match};

use crate::MatchRefusal;
use crate::conditions::{
    fits, has_no_response, has_response, has_tab, is_among, is_by, is_from, is_in, is_not_among,
    is_not_by, is_not_from,
};
use dnr_base::{Part, Steps, Text};
use dnr_rules::{Condition, Rule};
use regex_host::{HostRefusal, RegexHost};
use std::marker::Model;
use std::sync::ledger::Ledger;
use suffix_list::{SuffixList, third_party};

// Whether the part is third party.
fn is_third(part: &Part<'_>, list: &SuffixList) -> bool
    ensures { result ≡ prepared.is_third list.now part.now }
{
    third_party(list, part.view.host(), part.initiator.map(Text::as_str))
}

/// A part of a request on which many rules are tested. Its party is told where a rule asks for it of which all else
/// holds. A clause sees the part and the suffix rules.
#[derive(Drop)]
pub struct PreparedPart<'a> {
    part: Part<'a>,
    list: &'a SuffixList,
}

impl<'a> Model for PreparedPart<'a> {
    ghost use Rattle.rule_match.specs.Prepared.{PreparedPart};

    ghost Value = { PreparedPart };

    ghost view = { λ p. record { suffixes = p.list.now; part = p.part } };
}

impl<'a> PreparedPart<'a> {
    /// A part, and the suffix list by which its party is told. It takes no memory.
    pub fn new(part: Part<'a>, list: &'a SuffixList) -> PreparedPart<'a>
        ensures { result ≡ record { suffixes = list.now; part = part.entry } }
    {
        PreparedPart { part, list }
    }

    // Whether all of the condition holds but for its pattern. What most rules give is tested first, the cheap before the
    // urlFilter, which few fit; then what few rules give, and last the party, which takes more to tell than the rest.
    #[tactic(auto, using(crate::proofs::PatternLast::holds_by_groups))]
    fn holds_but_pattern(&self, condition: &Condition) -> bool
        ensures { result
            ≡ holds_on self.now.suffixes (without_pattern condition.now) self.now.part }
    {
        self.holds_by_type(condition)
            && self.holds_by_domains(condition)
            && fits(
                condition.url_filter(),
                !condition.case_sensitive(),
                self.part.view,
            )
            && self.holds_by_rest(condition)
            && self.holds_by_response(condition)
            && self.holds_by_party(condition)
    }

    fn holds_by_type(&self, condition: &Condition) -> bool
        ensures { result ≡ groups.holds_by_type condition.now self.now.part }
    {
        let part = &self.part;
        condition.kinds().contains(part.kind)
            && is_by(condition.methods(), part.view.scheme(), part.method)
            && is_not_by(condition.not_methods(), part.view.scheme(), part.method)
    }

    fn holds_by_domains(&self, condition: &Condition) -> bool
        ensures { result ≡ groups.holds_by_domains condition.now self.now.part }
    {
        is_among(condition.hosts(), self.part.view)
            && is_from(condition.initiators(), self.part.initiator)
    }

    fn holds_by_rest(&self, condition: &Condition) -> bool
        ensures { result ≡ groups.holds_by_rest condition.now self.now.part }
    {
        let part = &self.part;
        is_not_among(condition.not_hosts(), part.view)
            && is_not_from(condition.not_initiators(), part.initiator)
            && is_in(condition.tabs(), part.tab)
            && !has_tab(condition.not_tabs(), part.tab)
    }

    fn holds_by_response(&self, condition: &Condition) -> bool
        ensures { result ≡ groups.holds_by_response condition.now self.now.part }
    {
        let headers = self.part.response_headers;
        has_response(condition.header_tests(), headers)
            && has_no_response(condition.not_header_tests(), headers)
    }

    fn holds_by_party(&self, condition: &Condition) -> bool
        ensures { result ≡ groups.holds_by_party self.now.suffixes condition.now self.now.part }
    {
        match condition.third_party() {
            None => true,
            Some(asked) => asked == is_third(&self.part, self.list),
        }
    }

    // Whether a pattern has a match in the URL.
    fn has_match<H: RegexHost>(
        &self,
        pattern: &Text,
        fold: bool,
        host: &mut H,
    ) -> Result<bool, MatchRefusal>
        ensures value { IfOk result (λ is_match. is_match
            ≡ is_some (found pattern.now fold (text_of self.now.part.view))) }
        ensures cause { HasCauseOf MatchRefusal.HostFault (H.faults host.old) (H.faults host.new) result }
        ensures calm { IsCalm (H.faults host.old) (H.faults host.new) result }
    {
        let mut spans = [None; 10];
        match host.find(pattern.as_str(), fold, self.part.view.text(), &mut spans) {
            Ok(is_match) => Ok(is_match),
            Err(HostRefusal::NoPattern) => unreachable!(),
            Err(HostRefusal::HostFault) => Err(MatchRefusal::HostFault),
            Err(HostRefusal::NoMemory) => Err(MatchRefusal::NoMemory),
        }
    }

    /// Whether the rule's condition holds on the part: Chrome's reference of declarativeNetRequest,
    /// `RuleCondition`. It is one step. The host is asked last, and only where all else holds; nothing but the
    /// host takes memory.
    ///
    /// # Errors
    ///
    /// Only of a rule with a `regexFilter` of which all else holds:
    ///
    /// - `HostFault`: the host failed, and its count of faults rose.
    /// - `NoMemory`: memory ran out.
    #[tactic(auto, using(crate::proofs::PatternLast::holds_by_match))]
    pub fn matches<H: RegexHost, L: Ledger>(
        &self,
        rule: &Rule,
        host: &mut H,
        steps: &mut Steps<L>,
    ) -> Result<bool, MatchRefusal>
        ensures value { IfOk result (λ is_match. is_match ≡ holds self.now.suffixes rule.now self.now.part) }
        ensures steps { steps.new ≡ steps.old + 1 }
        ensures asked { OnErr result (IsTrue (asks_for_match self.now.suffixes rule.now self.now.part)) }
        ensures cause { HasCauseOf MatchRefusal.HostFault (H.faults host.old) (H.faults host.new) result }
        ensures calm { IsCalm (H.faults host.old) (H.faults host.new) result }
    {
        steps.tick();
        let condition = rule.condition();
        if !self.holds_but_pattern(condition) {
            return Ok(false);
        }
        match condition.regex_filter() {
            None => Ok(true),
            Some(pattern) => self.has_match(pattern, !condition.case_sensitive(), host),
        }
    }

    /// The same of a rule without `regexFilter`. It takes no memory.
    #[tactic(auto, using(crate::proofs::PatternLast::holds_by_match))]
    pub fn plain_matches<L: Ledger>(&self, rule: &Rule, steps: &mut Steps<L>) -> bool
        requires { rule.now.condition.regex_filter ≡ None }
        ensures value { result ≡ holds self.now.suffixes rule.now self.now.part }
        ensures steps { steps.new ≡ steps.old + 1 }
    {
        steps.tick();
        self.holds_but_pattern(rule.condition())
    }
}
