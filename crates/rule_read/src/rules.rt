ghost use Rattle.std.specs.Prelude.{◌≡◌, ◌≤◌, ◌++◌, [], ◌∷◌, ℕ, List, min, length, map, false};
ghost use Rattle.std.specs.Prelude.{codes, Ok, Err, OnOk, OnErr, IfOk, IfErr, IfSome, option_map};
ghost use Rattle.serde_json.specs.View.{view, items_view};
ghost use Rattle.serde_json.specs.Find.{as_array};
ghost use Rattle.dnr_base.specs.Faults.{Rose};
ghost use Rattle.json_spec.specs.ReadRule as spec;
ghost use Rattle.json_spec.specs.ReadRule.{rule_in, fields_at, IsRuleAtPattern};
ghost use Rattle.std.specs.Prelude.{unwrap_or};
ghost use Rattle.std.specs.Option.{option_copied};
ghost use Rattle.dnr_base.specs.MethodSet.{methods_of};
ghost use Rattle.dnr_spec.specs.HeaderTests.{in_lower_case};
ghost use Rattle.dnr_rules.specs.Seen.{condition_seen};
ghost use Rattle.json_spec.specs.MayRefuse.{MayRefuse};
ghost use Rattle.regex_host.specs.Asked.{AsksFor};
ghost use Rattle.rule_fields.specs.Seen.{fields_seen};
ghost use Rattle.rule_read.specs.Seen.{lists_seen};
ghost use Rattle.rule_read.specs.Asking.{asked_by, asked_of, asked_of_all, AsksOrNot, AsksNext};
ghost use Rattle.rule_read.specs.Reading.{is_taken, Taken, TakenStay, MayStop, ReadsNext, StopsAt};
ghost use Rattle.rule_read.specs.Calm.{IsCalmBy};

use crate::conditions::{
    DomainLists, Filters, kinds_in, read_domain_lists, read_filters, test_lists, test_tabs,
};
use crate::frames::test_frames;
use crate::numbers::{Numbers, id_of, read_numbers};
use crate::response_tests::{Tests, read_tests};
use crate::taken_ids::TakenIds;
use action_read::read_action;
use dnr_base::{Items, MethodSet, NoMemory};
use dnr_rules::{ConditionParts, PlacedRefusal, RareParts, Rule, RuleKind, RuleParts, RuleRefusal};
use regex_host::RegexHost;
use rule_fields::{Fields, read_fields};
use rule_laws::rules_keep_their_form;
use serde_json::Value;
use std::alloc::Global;

/// Reads a rule: Chrome's reference of declarativeNetRequest, `Rule`. Letters of domains, of a transform's host
/// and of names of headers are read in lower case. An entry of a list of types, methods or tabs counts once.
/// Keys that are not known are ignored.
///
/// # Errors
///
/// The first refusal in the order of `RuleRefusal`; a rule alone is no `DuplicateId`. Or, where it comes:
///
/// - `HostFault`: the host failed at the pattern of the regexFilter, and its count of faults rose in this call.
/// - `NoMemory`: memory ran out.
#[tactic(auto, using(crate::proofs::ReadLists::rule_alone, crate::proofs::ReadLists::refused_alone))]
pub fn read_rule<H: RegexHost>(
    alloc: Global,
    value: &Value,
    kind: RuleKind,
    host: &mut H,
) -> Result<Rule, RuleRefusal>
    ensures ok { IfOk result (λ rule. spec.read_rule kind (view value.now) ≡ Ok rule) }
    ensures refused { IfErr result (MayRefuse (spec.read_rule kind (view value.now))
        (Rose (H.faults host.old) (H.faults host.new)
        × IsRuleAtPattern (λ id. false) (view value.now))) }
    ensures asked { IfOk result (λ rule.
        AsksFor H.asks host.old (asked_of rule.condition) host.new) }
    ensures tried { AsksOrNot H.asks host.old (asked_by (fields_at (view value.now))) host.new }
    ensures calm { OnOk result (H.faults host.new ≡ H.faults host.old) }
    ensures quiet { IfErr result (IsCalmBy (H.faults host.old) (H.faults host.new)) }
    ensures later { H.faults host.old ≤ H.faults host.new }
{
    let taken = TakenIds::new(alloc);
    read_among(alloc, value, kind, &taken, host)
}

// Reads a rule whose id is not one of those that are taken.
fn read_among<H: RegexHost>(
    alloc: Global,
    value: &Value,
    kind: RuleKind,
    taken: &TakenIds,
    host: &mut H,
) -> Result<Rule, RuleRefusal>
    ensures ok { IfOk result (λ rule.
        rule_in kind (is_taken taken.now) (view value.now) ≡ Ok rule) }
    ensures refused { IfErr result
        (MayRefuse (rule_in kind (is_taken taken.now) (view value.now))
        (Rose (H.faults host.old) (H.faults host.new)
        × IsRuleAtPattern (is_taken taken.now) (view value.now))) }
    ensures asked { IfOk result (λ rule.
        AsksFor H.asks host.old (asked_of rule.condition) host.new) }
    ensures tried { AsksOrNot H.asks host.old (asked_by (fields_at (view value.now))) host.new }
    ensures calm { OnOk result (H.faults host.new ≡ H.faults host.old) }
    ensures quiet { IfErr result (IsCalmBy (H.faults host.old) (H.faults host.new)) }
    ensures later { H.faults host.old ≤ H.faults host.new }
{
    let numbers = read_numbers(value, taken)?;
    let fields = read_fields(alloc, numbers.condition)?;
    let filters = read_filters(alloc, &fields, host)?;
    let lists = read_domain_lists(alloc, &fields)?;
    test_lists(&fields)?;
    let action = value.get("action");
    test_frames(action, &fields)?;
    let tests = read_tests(alloc, &fields)?;
    test_tabs(kind, &fields)?;
    let action = read_action(alloc, action, filters.groups)?;
    let condition = condition_of(alloc, fields, filters, lists, tests)?;
    rules_keep_their_form();
    Ok(Rule::build(RuleParts {
        id: numbers.id,
        priority: numbers.priority,
        condition,
        action,
    }))
}

// The condition of what was read.
fn condition_of(
    alloc: Global,
    fields: Fields<'_>,
    filters: Filters,
    lists: DomainLists,
    tests: Tests,
) -> Result<ConditionParts, NoMemory>
    requires url_filter { filters.url_filter ≡ option_copied fields.url_filter }
    requires regex_filter { filters.regex_filter ≡ option_copied fields.regex_filter }
    requires tests { tests.header_tests ≡ option_map (map in_lower_case) fields.header_tests }
    requires not_tests { tests.not_header_tests
        ≡ map in_lower_case (unwrap_or fields.not_header_tests []) }
    ensures { IfOk result (λ condition. condition_seen condition
        ≡ spec.condition_of (fields_seen fields.entry) (lists_seen lists)) }
{
    let Filters {
        url_filter,
        regex_filter,
        groups: _,
    } = filters;
    let rare = RareParts {
        regex_filter,
        not_initiators: lists.not_initiators,
        not_hosts: lists.not_hosts,
        tabs: fields.tabs,
        not_tabs: tabs_or_none(alloc, fields.not_tabs),
        header_tests: tests.header_tests,
        not_header_tests: tests.not_header_tests,
    };
    let rare = rare.boxed(alloc)?;
    Ok(ConditionParts {
        url_filter,
        case_sensitive: fields.case_sensitive.unwrap_or(false),
        initiators: lists.initiators,
        hosts: lists.hosts,
        third_party: fields.third_party,
        kinds: kinds_in(fields.kinds, fields.not_kinds),
        methods: fields.methods,
        not_methods: methods_or_none(fields.not_methods),
        rare,
    })
}

fn methods_or_none(methods: Option<MethodSet>) -> MethodSet
    ensures { methods_of result ≡ unwrap_or (option_map methods_of methods) [] }
{
    match methods {
        Some(methods) => methods,
        None => MethodSet::empty(),
    }
}

fn tabs_or_none(alloc: Global, tabs: Option<Items<i32>>) -> Items<i32>
    ensures { result ≡ unwrap_or tabs [] }
{
    match tabs {
        Some(tabs) => tabs,
        None => Items::build(Vec::new(alloc)),
    }
}

/// Reads a list of rules, of which each has an id of its own.
///
/// # Errors
///
/// The first rule of the list that is refused, with its place and its id; the second rule of an id is
/// `DuplicateId`. A value that is no list is `NotObject` at place 0. `HostFault` and `NoMemory` stop the reading
/// where they come.
#[tactic(auto, unfolding(json_spec::specs::ReadRule::read_rules))]
pub fn read_rules<H: RegexHost>(
    alloc: Global,
    value: &Value,
    kind: RuleKind,
    host: &mut H,
) -> Result<Vec<Rule>, PlacedRefusal>
    ensures ok { IfOk result (λ rules. spec.read_rules kind (view value.now) ≡ Ok rules.items) }
    ensures refused { IfErr result (MayStop kind (as_array (view value.now))
        (Rose (H.faults host.old) (H.faults host.new))) }
    ensures asked { IfOk result (λ rules.
        AsksFor H.asks host.old (asked_of_all rules.items) host.new) }
    ensures calm { OnOk result (H.faults host.new ≡ H.faults host.old) }
    ensures quiet { IfErr result (λ refusal.
        IsCalmBy (H.faults host.old) (H.faults host.new) refusal.cause) }
    ensures later { H.faults host.old ≤ H.faults host.new }
{
    match value.as_array() {
        Some(values) => read_list(alloc, values, kind, host),
        None => Err(PlacedRefusal {
            place: 0,
            id: None,
            cause: RuleRefusal::NotObject,
            set: None,
        }),
    }
}

#[tactic(auto, using(crate::proofs::ReadLists::list_begins, crate::proofs::ReadLists::none_taken, crate::proofs::ReadLists::list_goes, crate::proofs::ReadLists::list_stops, crate::proofs::ReadLists::list_ends))]
fn read_list<H: RegexHost>(
    alloc: Global,
    values: &[Value],
    kind: RuleKind,
    host: &mut H,
) -> Result<Vec<Rule>, PlacedRefusal>
    ensures ok { IfOk result (λ rules. spec.read_from kind [] (items_view values.now) ≡ Ok rules.items) }
    ensures refused { IfErr result (MayStop kind (Some (items_view values.now))
        (Rose (H.faults host.old) (H.faults host.new))) }
    ensures asked { IfOk result (λ rules.
        AsksFor H.asks host.old (asked_of_all rules.items) host.new) }
    ensures calm { OnOk result (H.faults host.new ≡ H.faults host.old) }
    ensures quiet { IfErr result (λ refusal.
        IsCalmBy (H.faults host.old) (H.faults host.new) refusal.cause) }
    ensures later { H.faults host.old ≤ H.faults host.new }
{
    let mut taken = TakenIds::new(alloc);
    let mut rules = Vec::new(alloc);
    for value in values {
        read_next(alloc, value, kind, host, &mut taken, &mut rules)?;
    }
    Ok(rules)
}

/// Reads the next rule of a list, behind the rules that were read, whose ids are taken.
///
/// # Errors
///
/// The refusal of the rule, with its place behind the others and its id. `rules` is then as it was; at `NoMemory`
/// `taken` may have the id of the rule besides.
#[tactic(auto, using(crate::proofs::ReadLists::id_more, crate::proofs::ReadLists::reads_next, crate::proofs::ReadLists::stops_at))]
pub fn read_next<H: RegexHost>(
    alloc: Global,
    value: &Value,
    kind: RuleKind,
    host: &mut H,
    taken: &mut TakenIds,
    rules: &mut Vec<Rule>,
) -> Result<(), PlacedRefusal>
    requires { Taken taken.old rules.old.items }
    ensures taken { OnOk result (Taken taken.new rules.new.items) }
    ensures read { OnOk result (ReadsNext kind (view value.now) rules.old.items rules.new.items) }
    ensures refused { IfErr result (StopsAt kind (view value.now) rules.old.items
        (Rose (H.faults host.old) (H.faults host.new))) }
    ensures kept { OnErr result (rules.new.items ≡ rules.old.items) }
    ensures ids { IfErr result (λ refusal.
        TakenStay taken.old taken.new refusal.cause) }
    ensures asked { OnOk result
        (AsksNext H.asks host.old host.new rules.old.items rules.new.items) }
    ensures calm { OnOk result (H.faults host.new ≡ H.faults host.old) }
    ensures quiet { IfErr result (λ refusal.
        IsCalmBy (H.faults host.old) (H.faults host.new) refusal.cause) }
    ensures later { H.faults host.old ≤ H.faults host.new }
{
    let rule = match read_among(alloc, value, kind, taken, host) {
        Ok(rule) => rule,
        Err(cause) => return Err(placed(rules.len(), value, cause)),
    };
    if taken.insert(rule.id()).is_err() || rules.push(rule).is_err() {
        return Err(placed(rules.len(), value, RuleRefusal::NoMemory));
    }
    Ok(())
}

// The refusal of the rule at this place.
fn placed(place: usize, value: &Value, cause: RuleRefusal) -> PlacedRefusal
    ensures { result ≡ spec.placed place (view value.now) cause }
{
    PlacedRefusal {
        place: u32::try_from(place).unwrap_or(u32::MAX),
        id: id_of(value),
        cause,
        set: None,
    }
}
