//! Lists by Adblock Plus, "How to write filters", and the rules that stand for them. A `;` stands for the end of a line.
use abp_compile::{CompileRefusal, Reason, Report, Reported, compile};
use dnr_base::{NoMemory, Text};
use dnr_rules::{Action, Rule};
use regex_host::{ListHost, PackHost};
use std::alloc::{AllocError, Global};
use std::test::Fail;

fn told_action(action: &Action) -> &'static str {
    match action {
        Action::Block => "block",
        Action::Allow => "allow",
        Action::AllowAllRequests => "exempt",
        _ => "another action",
    }
}

fn push_domains(told: &mut String, domains: &[Text]) -> Result<(), AllocError> {
    for domain in domains {
        told.push_str(" ")?;
        told.push_str(domain.as_str())?;
    }
    Ok(())
}

// The rule, and the lines that it comes from.
fn push_rule(
    alloc: Global,
    told: &mut String,
    rule: &Rule,
    lines: &[u32],
) -> Result<(), AllocError> {
    let condition = rule.condition();
    let head = format!(in alloc;
        "{}.{} {}",
        rule.id(),
        rule.priority(),
        told_action(rule.action())
    )?;
    told.push_str(head.as_str())?;
    if let Some(filter) = condition.url_filter() {
        told.push_str(" ")?;
        told.push_str(filter.text())?;
    }
    if let Some(filter) = condition.regex_filter() {
        told.push_str(" regex ")?;
        told.push_str(filter.as_str())?;
    }
    if condition.case_sensitive() {
        told.push_str(" case")?;
    }
    if let Some(domains) = condition.hosts() {
        told.push_str(" at")?;
        push_domains(told, domains.entries())?;
    }
    if let Some(domains) = condition.initiators() {
        told.push_str(" for")?;
        push_domains(told, domains.entries())?;
    }
    told.push_str(" but")?;
    push_domains(told, condition.not_initiators().entries())?;
    for line in lines {
        told.push_str(format!(in alloc; " @{line}")?.as_str())?;
    }
    told.push_str(", ")
}

fn told_reason(reason: &Reason) -> &'static str {
    match reason {
        Reason::ElementHiding => "hiding",
        Reason::UnknownOption(_) => "unknown",
        Reason::OptionValue(_) => "value",
        Reason::BadRegex => "regex",
        _ => "another reason",
    }
}

fn push_report(alloc: Global, told: &mut String, lines: &[Reported]) -> Result<(), AllocError> {
    for one in lines {
        let line = format!(in alloc; "{} {}, ", one.line, told_reason(&one.reason))?;
        told.push_str(line.as_str())?;
    }
    Ok(())
}

fn told(alloc: Global, rules: &[Rule], report: &Report) -> Result<String, AllocError> {
    let mut told = String::new(alloc);
    for (rule, lines) in rules.iter().zip(report.origins.iter()) {
        push_rule(alloc, &mut told, rule, lines.as_slice())?;
    }
    push_report(alloc, &mut told, report.lines.as_slice())?;
    Ok(told)
}

fn host(alloc: Global, failing: u64) -> Result<ListHost<PackHost>, NoMemory> {
    let failing = vec![in alloc; failing]?;
    Ok(ListHost::new(alloc, PackHost::new(alloc)?, failing))
}

// What becomes of a list, where the call of this number to the host fails.
fn outcome(alloc: Global, row: &str, failing: u64) -> Result<String, Fail> {
    let mut host = host(alloc, failing)?;
    let text = row.replace(alloc, ";", "\n")?;
    if text.len() > 1000 {
        return Ok(String::from_str(alloc, "a long row")?);
    }
    match compile(alloc, text.as_bytes(), &mut host) {
        Ok((rules, report)) => Ok(told(alloc, rules.as_slice(), &report)?),
        Err(CompileRefusal::TooManyRules(count)) => Ok(format!(in alloc; "{count} rules")?),
        Err(CompileRefusal::HostFault(line)) => Ok(format!(in alloc; "fault at {line}")?),
        Err(CompileRefusal::NoMemory) => Ok(String::from_str(alloc, "no memory")?),
    }
}

// Each row is a list, an arrow, and its rules and reported lines.
#[test]
fn lists_are_compiled(rt: HostRuntime) -> Result<(), Fail> {
    let rows =
        r"[Adblock Plus 2.0];! Title: t;a.com##.ad;@@||a.com^$document;||pop.com^$popup;/banner[0-9]+\.gif/ -> 1.3 exempt ||a.com^ but @4, 2.1 block regex banner[0-9]+\.gif but @6, 3 hiding, 5 unknown, 
||ads.com^$third-party,domain=b.com|~c.b.com|d.c.b.com -> 1.1 block ||ads.com^ for b.com but c.b.com @1, 2.1 block ||ads.com^ for d.c.b.com but @1, 
x$domain=d.c.b.com|~c.b.com|~e.d.c.b.com|f.e.d.c.b.com -> 1.1 block x for d.c.b.com but e.d.c.b.com @1, 2.1 block x for f.e.d.c.b.com but @1, 
x$domain=b.com|~c.b.com|a.com|B.com -> 1.1 block x for b.com a.com but c.b.com @1, 
||a.com^$image,~image -> 
x$script=1 -> 1 value, 
/(/ -> 1 regex, 
@@||a.com^$document,script;||B.com^$match-case -> 1.2 allow ||a.com^ but @1, 2.3 exempt ||a.com^ but @1, 3.1 block ||B.com^ case but @2, 
||b.org^;x;||a.com^$match-case;||1.2^;||b.org^$~image -> 1.1 block at a.com b.org but @1 @3, 2.1 block x but @2, 3.1 block ||1.2^ but @4, 4.1 block ||b.org^ but @5, ";
    for row in rows.lines() {
        let (list, expected) = row.split_once(" -> ").ok_or("no row")?;
        let outcome = outcome(rt.alloc(), list, 0)?;
        assert!(rt; outcome.as_str() == expected, "{list}: {outcome}");
    }
    Ok(())
}

#[test]
fn a_host_that_fails_is_named_by_its_line(rt: HostRuntime) -> Result<(), Fail> {
    let alloc = rt.alloc();
    let list = "/a/;b;/c/";
    assert_eq!(rt; outcome(alloc, list, 1)?.as_str(), "fault at 1");
    assert_eq!(rt; outcome(alloc, list, 2)?.as_str(), "fault at 3");
    assert_eq!(rt;
        outcome(alloc, list, 3)?.as_str(),
        "1.1 block regex a but @1, 2.1 block b but @2, 3.1 block regex c but @3, "
    );
    Ok(())
}
