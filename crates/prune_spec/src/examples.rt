//! Examples of what a list can do without. Each is stated in `specs/Examples.antt` and computed
//! from the definitions by the prover; the functions do nothing.

ghost use Rattle.prune_spec.specs.Examples.{StrongestOfThreeIsKept, FirstOfTwoEqualRulesIsKept};
ghost use Rattle.prune_spec.specs.Examples.{EachRefusalOfAProof, KeeperOfAChainStays};

/// Of rules of one action for one domain and one under it the strongest is kept.
#[tactic(auto, using(crate::proofs::Computed::strongest_of_three_is_kept))]
pub fn strongest_of_three_is_kept()
    ensures { StrongestOfThreeIsKept }
{}

/// The first of two equal rules is kept, and a rule of another action makes nothing needless.
#[tactic(auto, using(crate::proofs::Computed::first_of_two_equal_rules_is_kept))]
pub fn first_of_two_equal_rules_is_kept()
    ensures { FirstOfTwoEqualRulesIsKept }
{}

/// Either of two equal rules may go, and not both, nor one twice, nor one that is not there.
#[tactic(auto, using(crate::proofs::Computed::each_refusal_of_a_proof))]
pub fn each_refusal_of_a_proof()
    ensures { EachRefusalOfAProof }
{}

/// A rule goes by one that stays, and not by one that goes itself.
#[tactic(auto, using(crate::proofs::Computed::keeper_of_a_chain_stays))]
pub fn keeper_of_a_chain_stays()
    ensures { KeeperOfAChainStays }
{}
