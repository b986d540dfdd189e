//! What is known of keys: laws over the definitions of `index_spec`. The functions do nothing; each has a law as its
//! contract.
//!
//! The laws stand in `specs/`.
#![tactic(auto)]

ghost use Rattle.index_laws.specs.Shared.{FirmWordsAreShown, RulesShareAKey};
ghost use Rattle.index_laws.specs.Served.{CandidatesAreServed};
ghost use Rattle.index_laws.specs.Segments.{SegmentsAreFew};

/// A text that a filter fits has, in some case, each word of the filter of which both ends are firm.
pub fn firm_words_are_shown()
    ensures { FirmWordsAreShown }
{}

/// A rule that holds on a part of a request shares a key with it, so rules that share none need not be tested.
#[tactic(auto, using(crate::proofs::Sharing::rules_share_a_key))]
pub fn rules_share_a_key()
    ensures { RulesShareAKey }
{}

/// Of segments that taper, and of whose rules half are live, there are few.
#[tactic(auto, using(crate::proofs::Few::segments_are_few))]
pub fn segments_are_few()
    ensures { SegmentsAreFew }
{}

/// Places that rise, among which each candidate stands, give the candidates of all rules in force: so rules need not be
/// walked, where an index gives such places.
#[tactic(auto, using(crate::proofs::Served::candidates_are_served))]
pub fn candidates_are_served()
    ensures { CandidatesAreServed }
{}
