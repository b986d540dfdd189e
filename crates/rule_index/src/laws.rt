//! What is known of an index: laws over its definitions. The functions do nothing; each has a law as its contract.

ghost use Rattle.rule_index.specs.Found.{CandidatesAreCounted, FewAreFound, FewAreNear, HoldersAreFound, HoldersAreNear, NearAreCounted, SharersAreFound};
ghost use Rattle.rule_index.specs.Needs.{NeedsAreShown};

/// A place is given once for each key that its rule shares with a part, and no other place is.
pub fn candidates_are_counted()
    ensures { CandidatesAreCounted }
{}

/// Each rule that shares a key with a part is found for it.
pub fn rules_that_share_are_found()
    ensures { SharersAreFound }
{}

/// Each rule that holds on a part is found for it.
pub fn rules_that_hold_are_found()
    ensures { HoldersAreFound }
{}

/// For a part as many places are given as there are pairs of a rule and a key that it shares.
pub fn few_rules_are_found()
    ensures { FewAreFound }
{}

/// A place that needs no more than is shown is given once for each key that its rule shares with a part, and no other
/// place is.
pub fn near_are_counted()
    ensures { NearAreCounted }
{}

/// A part shows all that a rule needs which holds on it.
pub fn needs_are_shown()
    ensures { NeedsAreShown }
{}

/// Each rule that holds on a part is found for it with what the part shows.
pub fn rules_that_hold_are_near()
    ensures { HoldersAreNear }
{}

/// Whatever is shown, no more places are given than there are pairs of a rule and a key that it shares.
pub fn few_rules_are_near()
    ensures { FewAreNear }
{}
