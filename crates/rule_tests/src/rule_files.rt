//! Rules files: lists of rules by Chrome's reference, and texts that are no JSON by RFC 8259.
use regex_host::PackHost;
use rule_read::{PlacedRefusal, RuleKind, RuleRefusal};
use rules_file::{FileRefusal, read_rules_file};
use std::alloc::Global;
use std::string::String;
use std::test::Fail;

fn told(refusal: &PlacedRefusal) -> &'static str {
    match (refusal.place, refusal.cause) {
        (0, RuleRefusal::NotObject) => "no object at 0",
        (0, RuleRefusal::BadId) => "bad id at 0",
        (1, RuleRefusal::DuplicateId) => "second of its id at 1",
        (2, RuleRefusal::BadPriority) => "bad priority at 2",
        _ => "another refusal",
    }
}

// What becomes of a file with this text.
fn outcome(alloc: Global, text: &str) -> &'static str {
    let Ok(mut host) = PackHost::new(alloc) else {
        return "no host";
    };
    match read_rules_file(alloc, text.as_bytes(), RuleKind::Dynamic, &mut host) {
        Ok(rules) => match rules.len() {
            0 => "no rule",
            2 => "two rules",
            _ => "another count",
        },
        Err(FileRefusal::BadJson) => "no JSON",
        Err(FileRefusal::BadRules(refusal)) => told(&refusal),
    }
}

#[test]
fn files_are_read_or_refused(rt: HostRuntime) -> Result<(), Fail> {
    let rows = r#"no rule | []
no JSON | [
no JSON | [}
no JSON | [] 1
no JSON | [{"id":0}] {}
no JSON | [{"id":0},{"id":1]
no JSON | [{"id":0},1e999]
no object at 0 | {"id":1}
no object at 0 | [[],5]
bad id at 0 | [{"id":0},5]
two rules | [{"id":1,"condition":{},"action":{"type":"block"}},{"id":2,"condition":{},"action":{"type":"allow"}}]
second of its id at 1 | [{"id":1,"condition":{},"action":{"type":"block"}},{"id":1}]
bad priority at 2 | [{"id":1,"condition":{},"action":{"type":"block"}},{"id":2,"condition":{},"action":{"type":"block"}},{"id":3,"priority":0}]"#;
    for row in rows.lines() {
        let (expected, text) = row.split_once(" | ").ok_or("no row")?;
        assert!(rt; outcome(rt.alloc(), text) == expected, "{text}");
    }
    Ok(())
}

// As many lists, one in the other.
fn nested(alloc: Global, depth: usize) -> Result<String, Fail> {
    let mut text = String::new(alloc);
    for _ in 0..depth {
        text.push('[')?;
    }
    for _ in 0..depth {
        text.push(']')?;
    }
    Ok(text)
}

#[test]
fn a_text_nests_at_most_127_deep(rt: HostRuntime) -> Result<(), Fail> {
    let alloc = rt.alloc();
    let deepest = nested(alloc, 127)?;
    let deeper = nested(alloc, 128)?;
    assert_eq!(rt; outcome(alloc, deepest.as_str()), "no object at 0");
    assert_eq!(rt; outcome(alloc, deeper.as_str()), "no JSON");
    Ok(())
}
