// The rule of a filter.
ghost use Rattle.std.specs.Prelude.{◌≡◌, IfOk, IfSome, option_map};
ghost use Rattle.rule_spec.specs.IsRule.{IsRule, AreDomains};
ghost use Rattle.abp_parse.specs.Seen.{filter_seen, pattern_seen};
ghost use Rattle.compile_spec.specs.Compiled as spec;
ghost use Rattle.abp_compile.specs.Seen.{rule_with};

use crate::effects::Effect;
use crate::initiators::{Initiators, set_of};
use abp_parse::{FilterLine, FilterPattern};
use dnr_base::{Items, MethodSet, NoMemory, Text};
use dnr_rules::{ConditionParts, RareParts, Rule, RuleParts};
use domain_set::DomainSet;
use std::alloc::Global;
use url_filter::Pattern;

// The rule with this effect of a filter, for these hosts and initiators.
pub(crate) fn rule_of(
    alloc: Global,
    id: u32,
    filter: &FilterLine,
    hosts: Option<DomainSet>,
    effect: Effect,
    initiators: Initiators,
) -> Result<Rule, NoMemory>
    requires { IsRule (rule_with id (filter_seen filter.now) hosts effect initiators) }
    ensures { IfOk result (λ rule. rule ≡ rule_with id (filter_seen filter.now) hosts effect initiators) }
{
    let (url_filter, regex_filter) = filters_of(alloc, &filter.pattern)?;
    let rare = RareParts {
        regex_filter,
        not_initiators: initiators.not_among,
        not_hosts: DomainSet::empty(),
        tabs: None,
        not_tabs: Items::build(Vec::new(alloc)),
        header_tests: None,
        not_header_tests: Items::build(Vec::new(alloc)),
    };
    let rare = rare.boxed(alloc)?;
    Ok(Rule::build(RuleParts {
        id,
        priority: effect.priority(),
        condition: ConditionParts {
            url_filter,
            case_sensitive: filter.match_case,
            initiators: initiators.among,
            hosts,
            third_party: filter.third_party,
            kinds: effect.kinds(filter),
            methods: None,
            not_methods: MethodSet::empty(),
            rare,
        },
        action: effect.action(),
    }))
}

// A set of the same hosts.
pub(crate) fn hosts_of(
    alloc: Global,
    hosts: &Option<Vec<Text>>,
) -> Result<Option<DomainSet>, NoMemory>
    requires { IfSome hosts.now (λ hosts. AreDomains hosts.items) }
    ensures { IfOk result (λ set. set ≡ option_map (λ hosts. hosts.items) hosts.now) }
{
    match hosts {
        Some(hosts) => Ok(Some(set_of(alloc, hosts.as_slice())?)),
        None => Ok(None),
    }
}

// The hosts as a set, of which none is copied.
pub(crate) fn into_hosts(
    alloc: Global,
    hosts: Option<Vec<Text>>,
) -> Result<Option<DomainSet>, NoMemory>
    requires { IfSome hosts (λ hosts. AreDomains hosts.items) }
    ensures { IfOk result (λ set. set ≡ option_map (λ hosts. hosts.items) hosts) }
{
    match hosts {
        Some(hosts) => Ok(Some(DomainSet::of_entries(alloc, hosts)?)),
        None => Ok(None),
    }
}

// Copies of the `urlFilter` or the `regexFilter` of a pattern.
fn filters_of(
    alloc: Global,
    pattern: &FilterPattern,
) -> Result<(Option<Pattern>, Option<Text>), NoMemory>
    ensures url { IfOk result (λ filters. filters.0 ≡ spec.url_filter_of (pattern_seen pattern.now)) }
    ensures regex { IfOk result (λ filters. filters.1 ≡ spec.regex_filter_of (pattern_seen pattern.now)) }
{
    match pattern {
        FilterPattern::All => Ok((None, None)),
        FilterPattern::Plain(pattern) => Ok((Some(pattern.copy(alloc)?), None)),
        FilterPattern::Regex(text) => Ok((None, Some(text.copy(alloc)?))),
    }
}
