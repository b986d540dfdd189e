//! Examples of the command `follow`. Each is stated in `specs/FollowExamples.antt` and computed from the definitions by
//! the prover; the functions do nothing.

ghost use Rattle.session_spec.specs.FollowExamples.{FollowTakesTwoFileNames, TracesAreListed};
ghost use Rattle.session_spec.specs.FollowExamples.{FollowExplainsNothing, HopsOfFaultsAreNamed};

/// `follow` takes two names of files.
#[tactic(auto, using(crate::proofs::ComputedFollow::follow_takes_two_file_names))]
pub fn follow_takes_two_file_names()
    ensures { FollowTakesTwoFileNames }
{}

/// Each hop stands with what becomes of it, and the end says why no other follows.
#[tactic(auto, using(crate::proofs::ComputedFollow::traces_are_listed))]
pub fn traces_are_listed()
    ensures { TracesAreListed }
{}

/// Where requests are followed nothing is explained, and other lines are what they are in `match`.
#[tactic(auto, using(crate::proofs::ComputedFollow::follow_explains_nothing))]
pub fn follow_explains_nothing()
    ensures { FollowExplainsNothing }
{}

/// A fault names the hop at which the host failed, and the rule.
#[tactic(auto, using(crate::proofs::ComputedFollow::hops_of_faults_are_named))]
pub fn hops_of_faults_are_named()
    ensures { HopsOfFaultsAreNamed }
{}
