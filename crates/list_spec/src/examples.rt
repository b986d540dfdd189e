//! Examples of the definitions. Each is stated in `specs/Examples.antt` and computed from the definitions
//! by the prover; the functions do nothing.

ghost use Rattle.list_spec.specs.Examples.{KindsOfLines, CutsStandAtTheLeftmostDollar};
ghost use Rattle.list_spec.specs.Examples.{TypesAreFolded, DomainsAreToldApart, FaultsComeInOrder};

/// A list has each kind of line.
#[tactic(auto, using(crate::proofs::Computed::kinds_of_lines))]
pub fn kinds_of_lines()
    ensures { KindsOfLines }
{}

/// The options stand behind the leftmost `$` that allows it, and where none does the `$` is part of the
/// pattern.
#[tactic(auto, using(crate::proofs::Computed::cuts_stand_at_the_leftmost_dollar))]
pub fn cuts_stand_at_the_leftmost_dollar()
    ensures { CutsStandAtTheLeftmostDollar }
{}

/// Types add up from none, or are taken from all but `main_frame`, by the first option that speaks of types.
#[tactic(auto, using(crate::proofs::Computed::types_are_folded))]
pub fn types_are_folded()
    ensures { TypesAreFolded }
{}

/// Domains are listed or excluded, in lower case, but none is both.
#[tactic(auto, using(crate::proofs::Computed::domains_are_told_apart))]
pub fn domains_are_told_apart()
    ensures { DomainsAreToldApart }
{}

/// The first option at fault is named, and the pattern is judged after all options.
#[tactic(auto, using(crate::proofs::Computed::faults_come_in_order))]
pub fn faults_come_in_order()
    ensures { FaultsComeInOrder }
{}
