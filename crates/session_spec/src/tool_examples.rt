//! Examples of the commands `hide` and `prune`. Each is stated in `specs/ToolExamples.antt` and computed from the
//! definitions by the prover; the functions do nothing.

ghost use Rattle.session_spec.specs.ToolExamples.{ToolsTakeTheirWords, HiddenSelectorsAreListed};
ghost use Rattle.session_spec.specs.ToolExamples.{PrunedRulesAreListed};

/// `hide` takes a file and a host, `prune` a file.
#[tactic(auto, using(crate::proofs::ComputedTools::tools_take_their_words))]
pub fn tools_take_their_words()
    ensures { ToolsTakeTheirWords }
{}

/// Lines that are not used are told first, and then what the page hides.
#[tactic(auto, using(crate::proofs::ComputedTools::hidden_selectors_are_listed))]
pub fn hidden_selectors_are_listed()
    ensures { HiddenSelectorsAreListed }
{}

/// Each rule that is left out names the one that is kept for it.
#[tactic(auto, using(crate::proofs::ComputedTools::pruned_rules_are_listed))]
pub fn pruned_rules_are_listed()
    ensures { PrunedRulesAreListed }
{}
