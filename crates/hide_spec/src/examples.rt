//! Examples of the definitions. Each is stated in `specs/Examples.antt` and computed from the definitions
//! by the prover; the functions do nothing.

ghost use Rattle.hide_spec.specs.Examples.{LongLinesComeFirst};
ghost use Rattle.hide_spec.specs.Examples.{PagesOfASmallList, OtherLinesHideNothing};
ghost use Rattle.hide_spec.specs.Examples.{LongestDomainDecides, ExceptionsKeepWhereTheyApply};
ghost use Rattle.hide_spec.specs.Examples.{SelectorsAscendAndStandOnce, LeftmostSeparatorSplits};
ghost use Rattle.hide_spec.specs.Examples.{DomainsStandBetweenCommas, BothDomainsAreComparedInLowerCase};
ghost use Rattle.hide_spec.specs.Examples.{ReasonsComeInOrder, ReportOfHidingLines};
ghost use Rattle.hide_spec.specs.Examples.{HostsOfPages};

/// A page hides what is for its host and what is for all, unless an exception is for the host.
#[tactic(auto, using(crate::proofs::Computed::pages_of_a_small_list))]
pub fn pages_of_a_small_list()
    ensures { PagesOfASmallList }
{}

/// Lines that say nothing of elements hide nothing, and exceptions for a page do not speak of
/// elements.
#[tactic(auto, using(crate::proofs::Computed::other_lines_hide_nothing))]
pub fn other_lines_hide_nothing()
    ensures { OtherLinesHideNothing }
{}

/// Of the domains that cover the host the longest decides, whatever the order of the line. A domain
/// covers no host that only ends with its letters, and no address but its own.
#[tactic(auto, using(crate::proofs::Computed::longest_domain_decides))]
pub fn longest_domain_decides()
    ensures { LongestDomainDecides }
{}

/// An exception keeps a selector where it applies, on whatever line that is hidden, and nowhere
/// else.
#[tactic(auto, using(crate::proofs::Computed::exceptions_keep_where_they_apply))]
pub fn exceptions_keep_where_they_apply()
    ensures { ExceptionsKeepWhereTheyApply }
{}

/// Selectors ascend by their bytes, a shorter one before those that begin with it, and each stands
/// once.
#[tactic(auto, using(crate::proofs::Computed::selectors_ascend_and_stand_once))]
pub fn selectors_ascend_and_stand_once()
    ensures { SelectorsAscendAndStandOnce }
{}

/// The leftmost separator splits a line, and spaces and tabs round the selector are cut off.
#[tactic(auto, using(crate::proofs::Computed::leftmost_separator_splits))]
pub fn leftmost_separator_splits()
    ensures { LeftmostSeparatorSplits }
{}

/// Domains stand between commas and are read in lower case; nothing but a `~` may stand beside
/// them.
#[tactic(auto, using(crate::proofs::Computed::domains_stand_between_commas))]
pub fn domains_stand_between_commas()
    ensures { DomainsStandBetweenCommas }
{}

/// Letters of domains have no case.
#[tactic(auto, using(crate::proofs::Computed::both_domains_are_compared_in_lower_case))]
pub fn both_domains_are_compared_in_lower_case()
    ensures { BothDomainsAreComparedInLowerCase }
{}

/// A line with more than 65,536 bytes has that reason, whatever it says.
#[tactic(auto, using(crate::proofs::Computed::long_lines_come_first))]
pub fn long_lines_come_first()
    ensures { LongLinesComeFirst }
{}

/// Each reason comes before those behind it.
#[tactic(auto, using(crate::proofs::Computed::reasons_come_in_order))]
pub fn reasons_come_in_order()
    ensures { ReasonsComeInOrder }
{}

/// The lines with a reason are reported by their numbers, which count all lines.
#[tactic(auto, using(crate::proofs::Computed::report_of_hiding_lines))]
pub fn report_of_hiding_lines()
    ensures { ReportOfHidingLines }
{}

/// A host of a page is labels of lower-case letters, digits, `-` and `_`.
#[tactic(auto, using(crate::proofs::Computed::hosts_of_pages))]
pub fn hosts_of_pages()
    ensures { HostsOfPages }
{}
