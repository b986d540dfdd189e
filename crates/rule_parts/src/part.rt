// The parts of a rule as JSON.
ghost use Rattle.std.specs.Prelude.{◌≡◌};
ghost use Rattle.serde_json.specs.View.{view};
ghost use Rattle.rule_parts.specs.Parts.{wanted_at, item_of, member_of, rule_member, condition_member, header_test_member, action_member, redirect_member, transform_member, query_transform_member, query_pair_member, header_change_member, accepts_at, has_text};

use json_fields::{Shape, Wanted};
use serde_json::Value;

/// A part of a rule, as a form: what is read there, and the parts that it holds.
#[derive(Clone, Copy, Debug, PartialEq, Eq, Drop)]
pub enum RulePart {
    /// A rule.
    Rule,
    /// Its condition.
    Condition,
    /// Tests of response headers.
    HeaderTests,
    /// One of them.
    HeaderTest,
    /// The action of a rule.
    Action,
    /// Where it redirects to.
    Redirect,
    /// How it changes the URL.
    Transform,
    /// How it changes the query.
    QueryTransform,
    /// The parameters of the query that are set.
    QueryPairs,
    /// One of them.
    QueryPair,
    /// Changes of headers.
    HeaderChanges,
    /// One of them.
    HeaderChange,
    /// A list of texts.
    Texts,
    /// A text.
    Text,
    /// A list of numbers.
    Numbers,
    /// A number.
    Number,
    /// A truth value.
    Truth,
    /// Any value: what counts is that it is there.
    Presence,
}

impl Shape for RulePart {
    ghost wants = { wanted_at };

    ghost item_shape = { item_of };

    ghost member_shape = { member_of };

    ghost accepts = { accepts_at };

    fn wanted(self) -> Wanted {
        match self {
            RulePart::Rule
            | RulePart::Condition
            | RulePart::HeaderTest
            | RulePart::Action
            | RulePart::Redirect
            | RulePart::Transform
            | RulePart::QueryTransform
            | RulePart::QueryPair
            | RulePart::HeaderChange => Wanted::Object,
            RulePart::HeaderTests
            | RulePart::QueryPairs
            | RulePart::HeaderChanges
            | RulePart::Texts
            | RulePart::Numbers => Wanted::List,
            RulePart::Text => Wanted::Text,
            RulePart::Number => Wanted::Number,
            RulePart::Truth => Wanted::Truth,
            RulePart::Presence => Wanted::Nothing,
        }
    }

    fn of_items(self) -> RulePart {
        match self {
            RulePart::HeaderTests => RulePart::HeaderTest,
            RulePart::QueryPairs => RulePart::QueryPair,
            RulePart::HeaderChanges => RulePart::HeaderChange,
            RulePart::Texts => RulePart::Text,
            RulePart::Numbers => RulePart::Number,
            _ => RulePart::Presence,
        }
    }

    fn of_member(self, name: &str) -> Option<RulePart> {
        match self {
            RulePart::Rule => rule_member(name),
            RulePart::Condition => condition_member(name),
            RulePart::HeaderTest => header_test_member(name),
            RulePart::Action => action_member(name),
            RulePart::Redirect => redirect_member(name),
            RulePart::Transform => transform_member(name),
            RulePart::QueryTransform => query_transform_member(name),
            RulePart::QueryPair => query_pair_member(name),
            RulePart::HeaderChange => header_change_member(name),
            _ => None,
        }
    }

    // What lacks a text that must be there is refused, whatever else it holds.
    fn accepts(self, kept: &Value) -> bool {
        match self {
            RulePart::HeaderTest => has_text(kept, "header"),
            RulePart::HeaderChange => has_text(kept, "header") && has_text(kept, "operation"),
            RulePart::QueryPair => has_text(kept, "key") && has_text(kept, "value"),
            _ => true,
        }
    }
}

// Whether a text stands at the key.
fn has_text(object: &Value, key: &str) -> bool
    ensures { result ≡ has_text key.now (view object.now) }
{
    object.get(key).and_then(Value::as_str).is_some()
}

fn rule_member(name: &str) -> Option<RulePart>
    ensures { result ≡ rule_member name.now }
{
    match name {
        "id" => Some(RulePart::Number),
        "priority" => Some(RulePart::Number),
        "condition" => Some(RulePart::Condition),
        "action" => Some(RulePart::Action),
        _ => None,
    }
}

fn condition_member(name: &str) -> Option<RulePart>
    ensures { result ≡ condition_member name.now }
{
    match name {
        "topDomains" => Some(RulePart::Presence),
        "excludedTopDomains" => Some(RulePart::Presence),
        "urlFilter" => Some(RulePart::Text),
        "regexFilter" => Some(RulePart::Text),
        "isUrlFilterCaseSensitive" => Some(RulePart::Truth),
        "initiatorDomains" => Some(RulePart::Texts),
        "excludedInitiatorDomains" => Some(RulePart::Texts),
        "domains" => Some(RulePart::Texts),
        "excludedDomains" => Some(RulePart::Texts),
        "requestDomains" => Some(RulePart::Texts),
        "excludedRequestDomains" => Some(RulePart::Texts),
        "domainType" => Some(RulePart::Text),
        "resourceTypes" => Some(RulePart::Texts),
        "excludedResourceTypes" => Some(RulePart::Texts),
        "requestMethods" => Some(RulePart::Texts),
        "excludedRequestMethods" => Some(RulePart::Texts),
        "tabIds" => Some(RulePart::Numbers),
        "excludedTabIds" => Some(RulePart::Numbers),
        "responseHeaders" => Some(RulePart::HeaderTests),
        "excludedResponseHeaders" => Some(RulePart::HeaderTests),
        _ => None,
    }
}

fn header_test_member(name: &str) -> Option<RulePart>
    ensures { result ≡ header_test_member name.now }
{
    match name {
        "header" => Some(RulePart::Text),
        "values" => Some(RulePart::Texts),
        "excludedValues" => Some(RulePart::Texts),
        _ => None,
    }
}

fn action_member(name: &str) -> Option<RulePart>
    ensures { result ≡ action_member name.now }
{
    match name {
        "type" => Some(RulePart::Text),
        "redirect" => Some(RulePart::Redirect),
        "requestHeaders" => Some(RulePart::HeaderChanges),
        "responseHeaders" => Some(RulePart::HeaderChanges),
        _ => None,
    }
}

fn redirect_member(name: &str) -> Option<RulePart>
    ensures { result ≡ redirect_member name.now }
{
    match name {
        "extensionPath" => Some(RulePart::Text),
        "transform" => Some(RulePart::Transform),
        "url" => Some(RulePart::Text),
        "regexSubstitution" => Some(RulePart::Text),
        _ => None,
    }
}

fn transform_member(name: &str) -> Option<RulePart>
    ensures { result ≡ transform_member name.now }
{
    match name {
        "scheme" => Some(RulePart::Text),
        "host" => Some(RulePart::Text),
        "port" => Some(RulePart::Text),
        "path" => Some(RulePart::Text),
        "query" => Some(RulePart::Text),
        "queryTransform" => Some(RulePart::QueryTransform),
        "fragment" => Some(RulePart::Text),
        "username" => Some(RulePart::Text),
        "password" => Some(RulePart::Text),
        _ => None,
    }
}

fn query_transform_member(name: &str) -> Option<RulePart>
    ensures { result ≡ query_transform_member name.now }
{
    match name {
        "removeParams" => Some(RulePart::Texts),
        "addOrReplaceParams" => Some(RulePart::QueryPairs),
        _ => None,
    }
}

fn query_pair_member(name: &str) -> Option<RulePart>
    ensures { result ≡ query_pair_member name.now }
{
    match name {
        "key" => Some(RulePart::Text),
        "value" => Some(RulePart::Text),
        "replaceOnly" => Some(RulePart::Truth),
        _ => None,
    }
}

fn header_change_member(name: &str) -> Option<RulePart>
    ensures { result ≡ header_change_member name.now }
{
    match name {
        "header" => Some(RulePart::Text),
        "operation" => Some(RulePart::Text),
        "value" => Some(RulePart::Text),
        _ => None,
    }
}
