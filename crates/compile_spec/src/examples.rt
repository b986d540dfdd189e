//! Examples of the definitions. Each is stated in `specs/Examples.antt` and computed from the definitions
//! by the prover; the functions do nothing.

ghost use Rattle.compile_spec.specs.Examples.{RulesOfAList, ReportOfAList, NoTypeGivesNoRule};
ghost use Rattle.compile_spec.specs.Examples.{PageAloneGivesNoAllow, OneRuleWhereNothingIsNested};
ghost use Rattle.compile_spec.specs.Examples.{NestedDomainsStandAlone, AlikeFiltersStandAsOne};
ghost use Rattle.compile_spec.specs.Examples.{HostsAscendAndStandOnce, InitiatorsAreASet};
ghost use Rattle.compile_spec.specs.Examples.{ExceptionsStandWithExceptions};
ghost use Rattle.compile_spec.specs.Examples.{OtherPatternsStandAlone};

/// A list gives rules for its filters alone, and two for one line.
#[tactic(auto, using(crate::proofs::Computed::rules_of_a_list))]
pub fn rules_of_a_list()
    ensures { RulesOfAList }
{}

/// The lines of a list that give nothing are reported.
#[tactic(auto, using(crate::proofs::Computed::report_of_a_list))]
pub fn report_of_a_list()
    ensures { ReportOfAList }
{}

/// A filter whose types were all taken back gives no rule.
#[tactic(auto, using(crate::proofs::Computed::no_type_gives_no_rule))]
pub fn no_type_gives_no_rule()
    ensures { NoTypeGivesNoRule }
{}

/// An exception for a page gives no `allow` unless it names types too.
#[tactic(auto, using(crate::proofs::Computed::page_alone_gives_no_allow))]
pub fn page_alone_gives_no_allow()
    ensures { PageAloneGivesNoAllow }
{}

/// Without a listed domain under an excluded one there is one rule.
#[tactic(auto, using(crate::proofs::Computed::one_rule_where_nothing_is_nested))]
pub fn one_rule_where_nothing_is_nested()
    ensures { OneRuleWhereNothingIsNested }
{}

/// Each listed domain under an excluded one has a rule of its own, and the others share one.
#[tactic(auto, using(crate::proofs::Computed::nested_domains_stand_alone))]
pub fn nested_domains_stand_alone()
    ensures { NestedDomainsStandAlone }
{}

/// Filters of plain domains that agree in all but the case of letters give one rule.
#[tactic(auto, using(crate::proofs::Computed::alike_filters_stand_as_one))]
pub fn alike_filters_stand_as_one()
    ensures { AlikeFiltersStandAsOne }
{}

/// The hosts of such a rule ascend, and each is listed once.
#[tactic(auto, using(crate::proofs::Computed::hosts_ascend_and_stand_once))]
pub fn hosts_ascend_and_stand_once()
    ensures { HostsAscendAndStandOnce }
{}

/// The domains of the initiator are compared as a set.
#[tactic(auto, using(crate::proofs::Computed::initiators_are_a_set))]
pub fn initiators_are_a_set()
    ensures { InitiatorsAreASet }
{}

/// An exception is alike to no filter that blocks.
#[tactic(auto, using(crate::proofs::Computed::exceptions_stand_with_exceptions))]
pub fn exceptions_stand_with_exceptions()
    ensures { ExceptionsStandWithExceptions }
{}

/// A pattern that is no plain domain between `||` and `^` keeps a rule of its own.
#[tactic(auto, using(crate::proofs::Computed::other_patterns_stand_alone))]
pub fn other_patterns_stand_alone()
    ensures { OtherPatternsStandAlone }
{}
