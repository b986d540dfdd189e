//! Into which rules a filter list is compiled, and which of its lines are reported.
//!
//! The definitions stand in `specs/`: `Initiators` for the domains of a filter, `Alike` for filters that stand as one,
//! `Compiled` for the rules, `Report` for the lines that give none, `Installed` for the list as an extension.
#![tactic(auto)]

mod examples;
mod reported;

pub use examples::{
    alike_filters_stand_as_one, exceptions_stand_with_exceptions, hosts_ascend_and_stand_once,
    initiators_are_a_set, nested_domains_stand_alone, no_type_gives_no_rule,
    one_rule_where_nothing_is_nested, other_patterns_stand_alone, page_alone_gives_no_allow,
    report_of_a_list, rules_of_a_list,
};
pub use reported::Reported;
