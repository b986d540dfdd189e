//! What is known of rules that another rule makes needless: laws over the definitions of
//! `prune_spec` and `rule_spec`. The functions do nothing; each has a law as its contract.
//!
//! The laws stand in `specs/Laws.antt`.
#![tactic(auto)]

ghost use Rattle.prune_laws.specs.Laws.{
  FoundIsAccepted,
  OneIsNeedless,
  RestDoesTheSame,
  ShadowsHoldWider,
};

/// A rule holds wherever one holds that it makes needless.
pub fn shadows_hold_wider()
    ensures { ShadowsHoldWider }
{}

/// Without a rule that another of its ruleset makes needless, a state gives each request the same
/// outcome, target, operations and header lists.
pub fn one_is_needless()
    ensures { OneIsNeedless }
{}

/// The same is so of the rest that a proof leaves.
pub fn rest_does_the_same()
    ensures { RestDoesTheSame }
{}

/// The needless rules of a list, each with the first rule that is kept and outdoes it, are such a
/// proof.
pub fn found_is_accepted()
    ensures { FoundIsAccepted }
{}
