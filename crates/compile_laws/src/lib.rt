//! What is known of the rules of a filter list: laws over the definitions of `compile_spec`, `list_spec` and
//! `rule_spec`. The functions do nothing; each has a law as its contract.
//!
//! The laws stand in `specs/Laws.antt`.
#![tactic(auto)]

ghost use Rattle.compile_laws.specs.Laws.{GroupsGiveRules, ListsGiveRules, ListsBlockWhatTheySay};
ghost use Rattle.compile_laws.specs.Laws.{RulesAreCounted, ReportIsWhole, RulesHoldByTheirLines};
ghost use Rattle.compile_laws.specs.Laws.{LinesHoldByTheirRules, RulesDoAsTheirLines};
ghost use Rattle.compile_laws.specs.Laws.{RulesNameTheirLines};

/// The rules of filters that stand as one keep what every rule keeps.
pub fn groups_give_rules()
    ensures { GroupsGiveRules }
{}

/// The rules of a list keep what every rule keeps.
pub fn lists_give_rules()
    ensures { ListsGiveRules }
{}

/// The ids of the rules of a list count from 1.
pub fn rules_are_counted()
    ensures { RulesAreCounted }
{}

/// The report names each line that gives nothing, with its reason, and no other.
pub fn report_is_whole()
    ensures { ReportIsWhole }
{}

/// Where a rule of a list holds on a part, a line that it comes from is a supported filter that matches there.
pub fn rules_hold_by_their_lines()
    ensures { RulesHoldByTheirLines }
{}

/// Where a supported filter fits a request, one of the rules that come from its line holds on the request.
pub fn lines_hold_by_their_rules()
    ensures { LinesHoldByTheirRules }
{}

/// Rules that block come from blocking filters, and rules that allow from exceptions.
pub fn rules_do_as_their_lines()
    ensures { RulesDoAsTheirLines }
{}

/// A rule that several lines give has a list of hosts, each of which is the plain domain of one of these lines, and has
/// the domain of each of them.
pub fn rules_name_their_lines()
    ensures { RulesNameTheirLines }
{}

/// A list blocks what it says: where its extension is the only one, the scan blocks a request exactly where a
/// blocking filter fits it, no exception fits it and no exception for pages matches its page.
pub fn lists_block_what_they_say()
    ensures { ListsBlockWhatTheySay }
{}
