// The rules of hosts.
ghost use Rattle.std.specs.Prelude.{◌≡◌, Ok, Some, IfOk, IsTrue};
ghost use Rattle.dnr_base.specs.Kind.{default_kinds};
ghost use Rattle.dnr_base.specs.declared.redirect.Redirect.TheVariants as redirect;
ghost use Rattle.dnr_rules.specs.Seen.{action_seen, condition_seen};
ghost use Rattle.dnr_spec.specs.UrlFilter.{pattern_of};
ghost use Rattle.rule_spec.specs.IsRule.{IsAction, IsCondition, is_number};
ghost use Rattle.rule_spec.specs.Redirects.{is_redirect_url};
ghost use Rattle.rule_spec.specs.Rule.{Condition, plain_condition};
ghost use Rattle.session_spec.specs.Sample as spec;

use dnr_base::{KindSet, NoMemory, Redirect, Text};
use dnr_rules::{Action, ConditionParts, Rule, RuleParts};
use std::alloc::Global;
use url::Url;
use url_filter::Pattern;

// The most bytes of a URL that a rule leads to.
const MAX_URL: usize = 65_536;

// The rule of this id for a host, with this priority.
pub(crate) fn rule_of(
    alloc: Global,
    id: u32,
    host: u32,
    priority: u32,
    choice: u32,
) -> Result<Rule, NoMemory>
    requires id { IsTrue (is_number id) }
    requires priority { IsTrue (is_number priority) }
    ensures { IfOk result (λ rule. rule ≡ spec.rule_of id host priority choice) }
{
    let condition = condition_for(alloc, host)?;
    let action = action_of(alloc, choice, host)?;
    Ok(Rule::build(RuleParts {
        id,
        priority,
        condition,
        action,
    }))
}

#[tactic(auto, using(crate::proofs::Kept::with_filter))]
fn condition_for(alloc: Global, host: u32) -> Result<ConditionParts, NoMemory>
    ensures value { IfOk result (λ parts. condition_seen parts
        ≡ record (plain_condition default_kinds) { url_filter = Some (spec.filter_text host) }) }
    ensures kept { IfOk result (λ parts. IsCondition (condition_seen parts)) }
{
    let mut condition = ConditionParts::of_kinds(KindSet::all_but_main_frame());
    condition.url_filter = Some(filter_for(alloc, host)?);
    Ok(condition)
}

// No host makes it a text that is no filter.
#[tactic(auto, using(crate::proofs::Kept::read_as_it_is))]
fn filter_for(alloc: Global, host: u32) -> Result<Pattern, NoMemory>
    ensures value { IfOk result (λ filter. filter ≡ spec.filter_text host) }
    ensures read { IfOk result (λ filter. pattern_of filter ≡ Ok filter) }
{
    let text = format!(in alloc; "||h{host}.example^")?;
    match Pattern::read(alloc, text.as_str()) {
        Ok(filter) => Ok(filter),
        Err(_) => Err(NoMemory),
    }
}

fn action_of(alloc: Global, choice: u32, host: u32) -> Result<Action, NoMemory>
    ensures value { IfOk result (λ action. action_seen action ≡ spec.action_of choice host) }
    ensures kept { IfOk result (λ action. (condition : Condition) → IsAction condition (action_seen action)) }
{
    match choice {
        0 | 1 => Ok(Action::Block),
        2 => Ok(Action::Allow),
        _ => {
            let redirect = redirect_for(alloc, host)?;
            Ok(Action::Redirect(Box::new(alloc, redirect)?))
        }
    }
}

// No host makes it a text that is no URL.
fn redirect_for(alloc: Global, host: u32) -> Result<Redirect, NoMemory>
    ensures value { IfOk result (λ target. target ≡ redirect.Url (spec.target_text host)) }
    ensures allowed { IfOk result (λ _. IsTrue (is_redirect_url (spec.target_text host))) }
{
    let text = format!(in alloc; "https://r{host}.example/")?;
    if is_target(alloc, text.as_str()) {
        Ok(Redirect::Url(Text::build(text)))
    } else {
        Err(NoMemory)
    }
}

// Whether a rule may lead to the URL; where memory runs out it is not told.
fn is_target(alloc: Global, text: &str) -> bool
    ensures { IsTrue result → IsTrue (is_redirect_url text.now) }
{
    if text.len() > MAX_URL {
        return false;
    }
    match Url::parse(alloc, text) {
        Ok(url) => url.scheme() != "javascript",
        Err(_) => false,
    }
}
