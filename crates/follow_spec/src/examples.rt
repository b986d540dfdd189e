//! Examples of the definition. Each is stated in `specs/Examples.antt` and computed from the definitions by the prover; the
//! functions do nothing.

ghost use Rattle.follow_spec.specs.Examples.{TracesFollowRedirects, UpgradesAreFollowed, LoopsEndWhereTheyClose};
ghost use Rattle.follow_spec.specs.Examples.{BadTargetsEndATrace, TracesAreBounded};

/// Each redirect is followed, until no rule redirects.
#[tactic(auto, using(crate::proofs::Computed::traces_follow_redirects))]
pub fn traces_follow_redirects()
    ensures { TracesFollowRedirects }
{}

/// An upgrade is followed as a redirect is.
#[tactic(auto, using(crate::proofs::Computed::upgrades_are_followed))]
pub fn upgrades_are_followed()
    ensures { UpgradesAreFollowed }
{}

/// A redirect back to any hop ends the trace.
#[tactic(auto, using(crate::proofs::Computed::loops_end_where_they_close))]
pub fn loops_end_where_they_close()
    ensures { LoopsEndWhereTheyClose }
{}

/// A redirect to what is no URL of a view ends the trace.
#[tactic(auto, using(crate::proofs::Computed::bad_targets_end_a_trace))]
pub fn bad_targets_end_a_trace()
    ensures { BadTargetsEndATrace }
{}

/// No more than 20 hops are followed.
#[tactic(auto, using(crate::proofs::Computed::traces_are_bounded))]
pub fn traces_are_bounded()
    ensures { TracesAreBounded }
{}
