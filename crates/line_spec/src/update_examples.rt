//! Examples of script lines that ask for updates. Each is stated in `specs/UpdateExamples.antt` and computed from the
//! definitions by the prover; the functions do nothing.

ghost use Rattle.line_spec.specs.UpdateExamples.{UpdatesAreRead, ExtensionsAreInstalled};
ghost use Rattle.line_spec.specs.UpdateExamples.{FirstUpdateFieldAtFaultIsNamed, IdsToRemoveAreRuleIds};
ghost use Rattle.line_spec.specs.UpdateExamples.{IdsToSwitchAreWhole, RefusedRulesHavePlaces};
ghost use Rattle.line_spec.specs.UpdateExamples.{RefusedRulesHaveRulesets, BatchesAreReadInTurn};
ghost use Rattle.line_spec.specs.UpdateExamples.{BatchesHaveALimit, HostsFailAtPatterns};

/// The six updates, and to wait for them.
#[tactic(auto, using(crate::proofs::UpdatesComputed::updates_are_read))]
pub fn updates_are_read()
    ensures { UpdatesAreRead }
{}

/// An extension is installed with its rulesets, and with what it may touch, where that is said.
#[tactic(auto, using(crate::proofs::UpdatesComputed::extensions_are_installed))]
pub fn extensions_are_installed()
    ensures { ExtensionsAreInstalled }
{}

/// Fields are tested in their order, and the first at fault is named.
#[tactic(auto, using(crate::proofs::UpdatesComputed::first_update_field_at_fault_is_named))]
pub fn first_update_field_at_fault_is_named()
    ensures { FirstUpdateFieldAtFaultIsNamed }
{}

/// Of the ids to remove those stay that a rule may have.
#[tactic(auto, using(crate::proofs::UpdatesComputed::ids_to_remove_are_rule_ids))]
pub fn ids_to_remove_are_rule_ids()
    ensures { IdsToRemoveAreRuleIds }
{}

/// Ids to disable and to enable are any whole numbers.
#[tactic(auto, using(crate::proofs::UpdatesComputed::ids_to_switch_are_whole))]
pub fn ids_to_switch_are_whole()
    ensures { IdsToSwitchAreWhole }
{}

/// Rules are read as those of their kind, and the first that is refused has its place.
#[tactic(auto, using(crate::proofs::UpdatesComputed::refused_rules_have_places))]
pub fn refused_rules_have_places()
    ensures { RefusedRulesHavePlaces }
{}

/// A refused rule of an installation has its ruleset too.
#[tactic(auto, using(crate::proofs::UpdatesComputed::refused_rules_have_rulesets))]
pub fn refused_rules_have_rulesets()
    ensures { RefusedRulesHaveRulesets }
{}

/// Updates stand in a batch, and nothing else; the first at fault is named.
#[tactic(auto, using(crate::proofs::UpdatesComputed::batches_are_read_in_turn))]
pub fn batches_are_read_in_turn()
    ensures { BatchesAreReadInTurn }
{}

/// A batch has from 1 to 256 updates, and their count is tested before any of them.
#[tactic(auto, using(crate::proofs::UpdatesComputed::batches_have_a_limit))]
pub fn batches_have_a_limit()
    ensures { BatchesHaveALimit }
{}

/// Where a pattern host fails a line is refused at the rule of the pattern.
#[tactic(auto, using(crate::proofs::UpdatesComputed::hosts_fail_at_patterns))]
pub fn hosts_fail_at_patterns()
    ensures { HostsFailAtPatterns }
{}
