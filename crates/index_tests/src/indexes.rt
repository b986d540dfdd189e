//! Which rules are found for a request.
ghost use Rattle.std.specs.Prelude.{◌≡◌, ◌<◌, None, [], length, Ok, IfSome};
ghost use Rattle.dnr_spec.specs.UrlFilter.{pattern_of};
ghost use Rattle.rule_spec.specs.IsRule.{AreDomains, IsCondition};
ghost use Rattle.dnr_rules.specs.Seen.{condition_seen, rare_seen};

use dnr_base::{Kind, KindSet, Method, Part, Text, View};
use dnr_rules::{Action, ConditionParts, Rule, RuleParts};
use domain_set::DomainSet;
use rule_index::Index;
use std::alloc::Global;
use std::test::Fail;
use url_filter::Pattern;
use url_view::parse;

#[tactic(auto, using(crate::proofs::Tested::read_again))]
fn filter(alloc: Global, text: &str) -> Option<Pattern>
    ensures { IfSome result (λ filter. pattern_of filter ≡ Ok filter) }
{
    Pattern::read(alloc, text).ok()
}

// The set of a domain that stands in it twice.
fn domain(alloc: Global, entry: &str) -> Option<DomainSet>
    ensures some { IfSome result (λ set. 0 < length set) }
    ensures domains { IfSome result AreDomains }
{
    let first = Text::build(String::from_str(alloc, entry).ok()?);
    let list = [first.copy(alloc).ok()?, first];
    let set = DomainSet::read(alloc, list.as_slice()).ok()?;
    if set.entries().is_empty() {
        return None;
    }
    Some(set)
}

// A condition that holds on all types but `main_frame`.
#[tactic(auto, using(crate::proofs::Tested::plain_is))]
fn condition() -> ConditionParts
    ensures whole { IsCondition (condition_seen result) }
    ensures url_filter { result.url_filter ≡ None }
    ensures regex_filter { (rare_seen result.rare).regex_filter ≡ None }
{
    ConditionParts::of_kinds(KindSet::all_but_main_frame())
}

fn block(condition: ConditionParts) -> Rule
    requires { IsCondition (condition_seen condition) }
{
    let action = Action::Block;
    Rule::build(RuleParts {
        id: 1,
        priority: 1,
        condition,
        action,
    })
}

fn on_filter(alloc: Global, text: &str) -> Option<Rule> {
    let mut condition = condition();
    condition.url_filter = Some(filter(alloc, text)?);
    Some(block(condition))
}

fn on_domain(alloc: Global, entry: &str) -> Option<Rule> {
    let mut condition = condition();
    condition.hosts = Some(domain(alloc, entry)?);
    Some(block(condition))
}

fn from_domain(alloc: Global, entry: &str) -> Option<Rule> {
    let mut condition = condition();
    condition.initiators = Some(domain(alloc, entry)?);
    Some(block(condition))
}

fn view(alloc: Global, text: &str) -> Option<View> {
    parse(alloc, text).ok()
}

fn part<'a>(view: &'a View, initiator: Option<&'a Text>) -> Part<'a> {
    Part {
        view,
        initiator,
        kind: Kind::Script,
        method: Method::Get,
        tab: -1,
        response_headers: None,
    }
}

#[test]
fn rules_are_found_by_their_words(rt: HostRuntime) -> Result<(), Fail> {
    let mut rules = Vec::new(rt.alloc());
    for text in ["*ads", "/Ads/", "||h12.test^", "|http://www.x1.com/"] {
        rules.push(on_filter(rt.alloc(), text).ok_or(text)?)?;
    }
    let index = Index::build(rt.alloc(), rules.as_slice())
        .ok()
        .ok_or("an index")?;
    let rows = [
        ("http://a.com/Ads/", Some(1)),
        ("http://h12345.test/x", Some(2)),
        ("https://www.x1.com/", Some(3)),
        ("http://www.com/adsx", None),
    ];
    for (url, place) in rows {
        let view = view(rt.alloc(), url).ok_or(url)?;
        let part = part(&view, None);
        let mut walk = index.candidates(&part);
        assert!(rt; walk.next() == Some(0), "the rule without a word at {url}");
        assert!(rt; walk.next() == place, "a rule at {url}");
        assert!(rt; walk.next() == None, "no more at {url}");
    }
    Ok(())
}

#[test]
fn rules_are_found_by_their_domains_once(rt: HostRuntime) -> Result<(), Fail> {
    let mut rules = Vec::new(rt.alloc());
    rules.push(on_domain(rt.alloc(), "B.com").ok_or("a rule")?)?;
    rules.push(from_domain(rt.alloc(), "c.com").ok_or("a rule")?)?;
    let index = Index::build(rt.alloc(), rules.as_slice())
        .ok()
        .ok_or("an index")?;
    let view = view(rt.alloc(), "http://a.b.com/").ok_or("a view")?;
    let host = Text::build(String::from_str(rt.alloc(), "x.c.com")?);
    let part = part(&view, Some(&host));
    let mut walk = index.candidates(&part);
    assert!(rt; walk.next() == Some(0));
    assert!(rt; walk.next() == Some(1));
    assert!(rt; walk.next() == None);
    Ok(())
}
