//! Worked examples of the definitions. Each is stated in `specs/` and computed from the definitions by the
//! prover; the functions do nothing, and nothing stands on them.
#![tactic(auto)]

ghost use Rattle.spec_examples.specs.Redirects.{GroupsArePutIn, OtherBackslashesAreRefused};
ghost use Rattle.spec_examples.specs.Redirects.{FirstMatchGivesWay, KeysAreRemoved};
ghost use Rattle.spec_examples.specs.Redirects.{PairsReplaceInTurn, UpgradesKeepThePort};
ghost use Rattle.spec_examples.specs.Parties.{AddressesHaveNoSubdomains, SuffixesAndOneLabelMore};
ghost use Rattle.spec_examples.specs.Parties.{RulesOfALineEach, PartiesByTheirDomains};
ghost use Rattle.spec_examples.specs.Methods.{SocketsHaveNoMethods};
ghost use Rattle.spec_examples.specs.Changes.{ChangesOfADirectionAreBounded};

/// `\0` to `\9` are groups, of which those that took no part are empty; `\\` is a backslash.
#[tactic(auto, using(crate::proofs::Computed::groups_are_put_in))]
pub fn groups_are_put_in()
    ensures { GroupsArePutIn }
{}

/// A backslash before another byte, at the end, or before a group that the pattern does not have.
#[tactic(auto, using(crate::proofs::Computed::other_backslashes_are_refused))]
pub fn other_backslashes_are_refused()
    ensures { OtherBackslashesAreRefused }
{}

/// The match alone gives way.
#[tactic(auto, using(crate::proofs::Computed::first_match_gives_way))]
pub fn first_match_gives_way()
    ensures { FirstMatchGivesWay }
{}

/// Pieces of the query go by their keys, decoded.
#[tactic(auto, using(crate::proofs::Computed::keys_are_removed))]
pub fn keys_are_removed()
    ensures { KeysAreRemoved }
{}

/// The first piece of a key gives way to the first pair of it, and pairs that are left over come last.
#[tactic(auto, using(crate::proofs::Computed::pairs_replace_in_turn))]
pub fn pairs_replace_in_turn()
    ensures { PairsReplaceInTurn }
{}

/// `http` and `ftp` become `https`, and nothing else does.
#[tactic(auto, using(crate::proofs::Computed::upgrades_keep_the_port))]
pub fn upgrades_keep_the_port()
    ensures { UpgradesKeepThePort }
{}

/// An entry covers an address only where it equals it.
#[tactic(auto, using(crate::proofs::Computed::addresses_have_no_subdomains))]
pub fn addresses_have_no_subdomains()
    ensures { AddressesHaveNoSubdomains }
{}

/// A rule, a wildcard, an exception, and a host that no rule matches.
#[tactic(auto, using(crate::proofs::Computed::suffixes_and_one_label_more))]
pub fn suffixes_and_one_label_more()
    ensures { SuffixesAndOneLabelMore }
{}

/// Comments and what follows white space are no rules; an exception has two labels at least.
#[tactic(auto, using(crate::proofs::Computed::rules_of_a_line_each))]
pub fn rules_of_a_line_each()
    ensures { RulesOfALineEach }
{}

/// Hosts of one registrable domain are one party, and addresses only where they are equal.
#[tactic(auto, using(crate::proofs::Computed::parties_by_their_domains))]
pub fn parties_by_their_domains()
    ensures { PartiesByTheirDomains }
{}

/// On `ws` no list of methods holds, and no excluded one keeps a rule from holding.
#[tactic(auto, using(crate::proofs::Computed::sockets_have_no_methods))]
pub fn sockets_have_no_methods()
    ensures { SocketsHaveNoMethods }
{}

/// 128 changes of a direction take effect; those of the other direction count apart.
#[tactic(auto, using(crate::proofs::Computed::changes_of_a_direction_are_bounded))]
pub fn changes_of_a_direction_are_bounded()
    ensures { ChangesOfADirectionAreBounded }
{}
