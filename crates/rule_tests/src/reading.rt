//! Rules as Chrome's reference of declarativeNetRequest writes them: what is read of them, and written again.
use action_read::read_action;
use dnr_base::{Direction, Kind, Method, Operation};
use dnr_rules::{Action, Condition, Rule, RuleKind, RuleRefusal};
use header_actions::HeaderOp;
use json_spec::{as_kind, as_method, as_tab, read_tree};
use regex_host::{ListHost, PackHost, RegexHost};
use rule_fields::read_fields;
use rule_read::{read_rule, read_rules};
use rule_write::write_rules;
use serde_json::Value;
use std::alloc::Global;
use std::test::Fail;

// Compiles where threads may share values of the type.
fn is_shared<T: Send + Sync>() {}

#[test]
fn threads_share_rules() {
    is_shared::<Rule>();
    is_shared::<Condition>();
    is_shared::<Action>();
}

#[test]
fn a_rule_is_small(rt: HostRuntime) {
    assert!(rt; size_of::<Action>() == 16);
    assert!(rt; size_of::<Rule>() == 136);
}

fn value(alloc: Global, text: &str) -> Result<Value, Fail> {
    Ok(read_tree(alloc, text.as_bytes())?.ok_or("no JSON")?)
}

// A session rule with every list of a condition.
const WHOLE: &str =
    r#"{"action":{"type":"block"},"condition":{"domainType":"thirdParty","excludedInitiatorDomains":["n.test"],"excludedRequestDomains":["m.test"],"excludedRequestMethods":["post"],"excludedTabIds":[-1,7],"initiatorDomains":["a.test","b.test"],"isUrlFilterCaseSensitive":true,"requestDomains":["c.test"],"requestMethods":["get"],"resourceTypes":["script"],"tabIds":[9],"urlFilter":"||x^"},"id":2,"priority":3}"#;

fn whole(alloc: Global) -> Result<Rule, Fail> {
    let mut host = PackHost::new(alloc)?;
    let read = read_rule(alloc, &value(alloc, WHOLE)?, RuleKind::Session, &mut host);
    Ok(read.ok().ok_or("refused")?)
}

#[test]
fn a_rule_is_written_as_it_was_read(rt: HostRuntime) -> Result<(), Fail> {
    let rules = [whole(rt.alloc())?.copy(rt.alloc())?];
    let text = write_rules(rt.alloc(), rules.as_slice())?;
    let inner = text.strip_prefix(b"[").ok_or("no list")?;
    assert!(rt; inner.strip_suffix(b"]") == Some(WHOLE.as_bytes()));
    Ok(())
}

// Whether these are the fields of that rule.
fn is_whole(condition: &Condition) -> bool {
    condition.kinds().contains(Kind::Script)
        && condition
            .methods()
            .is_some_and(|methods| methods.contains(Method::Get))
        && condition.not_methods().contains(Method::Post)
        && condition
            .url_filter()
            .is_some_and(|filter| filter.text() == "||x^")
        && condition
            .initiators()
            .is_some_and(|list| list.covers("a.test"))
        && condition.hosts().is_some_and(|list| list.covers("c.test"))
}

// Whether what few rules give is as in that rule.
fn is_rare(condition: &Condition) -> bool {
    condition.not_initiators().covers("n.test")
        && condition.not_hosts().covers("m.test")
        && condition
            .tabs()
            .is_some_and(|tabs| tabs.as_slice() == [9].as_slice())
        && condition.not_tabs() == [-1, 7].as_slice()
}

#[test]
fn a_rule_lends_its_fields(rt: HostRuntime) -> Result<(), Fail> {
    let rule = whole(rt.alloc())?;
    assert!(rt; rule.id() == 2 && rule.priority() == 3);
    assert!(rt; !rule.uses_regex() && !rule.is_unsafe());
    assert!(rt; is_whole(rule.condition()) && is_rare(rule.condition()));
    assert!(rt; rule.condition().case_sensitive());
    assert!(rt; rule.condition().third_party() == Some(true));
    Ok(())
}

// The second pattern of a list is one at which the host fails.
#[test]
fn the_first_refused_rule_of_a_list_is_named(rt: HostRuntime) -> Result<(), Fail> {
    let text =
        r#"[{"id":1,"condition":{"regexFilter":"a"},"action":{"type":"allow"}},{"id":2,"condition":{"regexFilter":"b"},"action":{"type":"block"}}]"#;
    let list = value(rt.alloc(), text)?;
    let below = PackHost::new(rt.alloc())?;
    let mut host = ListHost::new(rt.alloc(), below, vec![in rt.alloc(); 2]?);
    let refusal = read_rules(rt.alloc(), &list, RuleKind::Static, &mut host).err();
    let refusal = refusal.ok_or("read")?;
    assert!(rt; refusal.place == 1 && refusal.id == Some(2));
    assert!(rt; refusal.cause == RuleRefusal::HostFault && host.faults() == 1);
    assert!(rt; read_rules(rt.alloc(), &list, RuleKind::Static, &mut host)?.len() == 2);
    Ok(())
}

#[test]
fn fields_are_read_as_written(rt: HostRuntime) -> Result<(), Fail> {
    let condition = value(rt.alloc(), r#"{"urlFilter":"||*","tabIds":[7,-1,7]}"#)?;
    let fields = read_fields(rt.alloc(), &condition).ok().ok_or("refused")?;
    assert!(rt; fields.url_filter == Some("||*") && fields.kinds.is_none());
    assert!(rt; fields.tabs.ok_or("no tabs")?.as_slice() == [7, -1].as_slice());
    Ok(())
}

#[test]
fn values_stand_for_types_methods_and_tabs(rt: HostRuntime) -> Result<(), Fail> {
    assert!(rt; as_kind(&value(rt.alloc(), r#""font""#)?) == Some(Kind::Font));
    assert!(rt; as_method(&value(rt.alloc(), r#""put""#)?) == Some(Method::Put));
    assert!(rt; as_tab(&value(rt.alloc(), "-1")?) == Some(-1));
    Ok(())
}

const CHANGES: &str =
    r#"{"type":"modifyHeaders","requestHeaders":[{"header":"Cookie","operation":"append","value":"2"}],"responseHeaders":[{"header":"X-B","operation":"remove"}]}"#;

#[test]
fn changes_of_headers_are_unsafe(rt: HostRuntime) -> Result<(), Fail> {
    let text = value(rt.alloc(), CHANGES)?;
    let action = read_action(rt.alloc(), Some(&text), None)?.copy(rt.alloc())?;
    assert!(rt; action.is_unsafe() && !Action::Block.is_unsafe());
    let Action::ModifyHeaders(changes) = &action else {
        return Err(Fail::new("another action"));
    };
    let mut names = changes.request.as_slice().iter().map(HeaderOp::name);
    assert!(rt; names.eq(["cookie"].iter().copied()));
    assert!(rt;
        changes
            .response
            .as_slice()
            .iter()
            .all(|op| op.value().is_none())
    );
    assert!(rt; read_action(rt.alloc(), None, None).is_err());
    Ok(())
}

#[test]
fn changes_are_put_together(rt: HostRuntime) -> Result<(), Fail> {
    let op = HeaderOp::read(rt.alloc(), Direction::Request, "a", Operation::Remove, None)?;
    let request = dnr_base::Items::build(vec![in rt.alloc(); op]?);
    let response = dnr_base::Items::build(Vec::new(rt.alloc()));
    let action = Action::modify_headers(rt.alloc(), request, response)?;
    assert!(rt; action.is_unsafe());
    Ok(())
}
