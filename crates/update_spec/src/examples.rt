//! Examples of the definitions. Each is stated in `specs/Examples.antt` and computed from the definitions
//! by the prover; the functions do nothing.

ghost use Rattle.update_spec.specs.Examples.{NamesAreJudged};
ghost use Rattle.update_spec.specs.Examples.{EnablingComesLast};
ghost use Rattle.update_spec.specs.Examples.{DisabledIdsStay};
ghost use Rattle.update_spec.specs.Examples.{RemovalComesFirst};
ghost use Rattle.update_spec.specs.Examples.{UnsafeRulesHaveALimit};
ghost use Rattle.update_spec.specs.Examples.{BatchIsJudgedInTurn};
ghost use Rattle.update_spec.specs.Examples.{BatchCountsOnce};
ghost use Rattle.update_spec.specs.Examples.{OldestStandsFirst};
ghost use Rattle.update_spec.specs.Examples.{NameIsInstalledOnce};
ghost use Rattle.update_spec.specs.Examples.{EnabledRulesetsHaveALimit};

/// What an update names must be there, and what it installs must not.
#[tactic(auto, using(crate::proofs::Computed::names_are_judged))]
pub fn names_are_judged()
    ensures { NamesAreJudged }
{}

/// A ruleset that is disabled and enabled ends enabled.
#[tactic(auto, using(crate::proofs::Computed::enabling_comes_last))]
pub fn enabling_comes_last()
    ensures { EnablingComesLast }
{}

/// An id that is disabled twice is off once, and stays off while its ruleset is disabled.
#[tactic(auto, using(crate::proofs::Computed::disabled_ids_stay))]
pub fn disabled_ids_stay()
    ensures { DisabledIdsStay }
{}

/// An id may be added again where it is removed.
#[tactic(auto, using(crate::proofs::Computed::removal_comes_first))]
pub fn removal_comes_first()
    ensures { RemovalComesFirst }
{}

/// Of the dynamic rules 5,000 may change headers; one more is refused.
#[tactic(auto, using(crate::proofs::Computed::unsafe_rules_have_a_limit))]
pub fn unsafe_rules_have_a_limit()
    ensures { UnsafeRulesHaveALimit }
{}

/// A batch is refused at the first update that what the earlier ones leave refuses.
#[tactic(auto, using(crate::proofs::Computed::batch_is_judged_in_turn))]
pub fn batch_is_judged_in_turn()
    ensures { BatchIsJudgedInTurn }
{}

/// A batch may uninstall an extension and install one of the same name, and counts once.
#[tactic(auto, using(crate::proofs::Computed::batch_counts_once))]
pub fn batch_counts_once()
    ensures { BatchCountsOnce }
{}

/// Extensions stand in the order of their installation, and count for nothing before the first line.
#[tactic(auto, using(crate::proofs::Computed::oldest_stands_first))]
pub fn oldest_stands_first()
    ensures { OldestStandsFirst }
{}

/// A name is installed once.
#[tactic(auto, using(crate::proofs::Computed::name_is_installed_once))]
pub fn name_is_installed_once()
    ensures { NameIsInstalledOnce }
{}

/// Fifty enabled rulesets are installed, and one more is refused.
#[tactic(auto, using(crate::proofs::Computed::enabled_rulesets_have_a_limit))]
pub fn enabled_rulesets_have_a_limit()
    ensures { EnabledRulesetsHaveALimit }
{}
