//! Examples of keys. Each is stated in `specs/Examples.antt` and computed from the definitions by the prover; the
//! functions do nothing.

ghost use Rattle.index_spec.specs.Examples.{EachNumberIsAKey, NumbersShareTheLastLabel};
ghost use Rattle.index_spec.specs.Examples.{WordsBesideStarsAreNoTokens, CommonWordsAreNoTokens};
ghost use Rattle.index_spec.specs.Examples.{HostsAreAskedByTheirRests, AddressesHaveNoRests};

/// The longest word of a filter is its key, and of two as long the first is.
#[tactic(auto, using(crate::proofs::Computed::each_number_is_a_key))]
pub fn each_number_is_a_key()
    ensures { EachNumberIsAKey }
{}

/// A request meets the rules that share a word with it.
#[tactic(auto, using(crate::proofs::Computed::numbers_share_the_last_label))]
pub fn numbers_share_the_last_label()
    ensures { NumbersShareTheLastLabel }
{}

/// A word beside a star is no token, nor is one at an end without an anchor.
#[tactic(auto, using(crate::proofs::Computed::words_beside_stars_are_no_tokens))]
pub fn words_beside_stars_are_no_tokens()
    ensures { WordsBesideStarsAreNoTokens }
{}

/// Words of most URLs are no tokens.
#[tactic(auto, using(crate::proofs::Computed::common_words_are_no_tokens))]
pub fn common_words_are_no_tokens()
    ensures { CommonWordsAreNoTokens }
{}

/// A host is asked for by itself and by what follows each of its dots.
#[tactic(auto, using(crate::proofs::Computed::hosts_are_asked_by_their_rests))]
pub fn hosts_are_asked_by_their_rests()
    ensures { HostsAreAskedByTheirRests }
{}

/// An address is asked for by itself alone.
#[tactic(auto, using(crate::proofs::Computed::addresses_have_no_rests))]
pub fn addresses_have_no_rests()
    ensures { AddressesHaveNoRests }
{}
