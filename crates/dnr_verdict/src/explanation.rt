use crate::Verdict;
use dnr_base::{Items, RuleName, Text, Verb};
use std::marker::Model;

/// A rule that an extension decides by. A clause sees the one of `explain_spec`.
#[derive(Debug, Drop)]
pub struct WhyRule {
    /// The rule.
    pub rule: RuleName,
    /// The verdict that it gives.
    pub verb: Verb,
    /// Its priority.
    pub priority: u32,
    /// The place of the frame by which it reaches the request, counted from 0 for the outermost, where it does not
    /// hold on the request itself.
    pub frame: Option<u32>,
    /// The lines of a filter list that it comes from, ascending.
    pub lines: Items<u32>,
}

impl Model for WhyRule {
    ghost use Rattle.explain_spec.specs.Explanation as spec;

    ghost Value = { spec.WhyRule };

    ghost view = { λ w. record { rule = w.rule; verb = w.verb; priority = w.priority; frame = w.frame; lines = w.lines } };
}

/// What an extension says of a request. A clause sees the one of `explain_spec`.
#[derive(Debug, Drop)]
pub struct Why {
    /// The extension.
    pub ext: Text,
    /// The rule that it decides by. `None`: no rule of it decides.
    pub winner: Option<WhyRule>,
}

impl Model for Why {
    ghost use Rattle.explain_spec.specs.Explanation as spec;

    ghost Value = { spec.Why };

    ghost view = { λ w. record { ext = w.ext; winner = w.winner } };
}

/// Why a request fares as it does. A clause sees the one of `explain_spec`.
#[derive(Debug, Drop)]
pub struct Explanation {
    /// What becomes of it.
    pub verdict: Verdict,
    /// What each extension says, the newest first.
    pub why: Items<Why>,
}

impl Model for Explanation {
    ghost use Rattle.explain_spec.specs.Explanation as spec;

    ghost Value = { spec.Explanation };

    ghost view = { λ e. record { verdict = e.verdict; why = e.why } };
}
