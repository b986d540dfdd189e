//! Lines as docs/FORMATS.md shows them.
use compile_spec::Reported;
use dnr_base::{Items, RuleName, Text, Verb};
use dnr_spec::{SuffixRefusal, ViewRefusal};
use explain_report::{
    Explanation, Reply, Verdict, Why, WhyRule, quoted_text, write_bad, write_bad_json,
    write_bad_manifest, write_count, write_explain, write_fault, write_install_refusal,
    write_list_fault, write_refused_rule, write_reply, write_suffix_refusal, write_too_many_rules,
    write_unsupported, write_verdict,
};
use line_spec::{CommandPath, LineFault};
use list_spec::Reason;
use load_spec::ManifestPath;
use rule_spec::{Outcome, PlacedRefusal, RuleRefusal};
use std::alloc::Global;
use std::test::Fail;
use update_spec::Refusal;

fn rule(alloc: Global) -> Result<RuleName, Fail> {
    Ok(RuleName {
        ext: Text::build(String::from_str(alloc, "local")?),
        set: Text::build(String::from_str(alloc, "rules")?),
        id: 7,
    })
}

#[test]
fn a_request_has_one_line(rt: HostRuntime) -> Result<(), Fail> {
    let alloc = rt.alloc();
    let verdict = Verdict {
        outcome: Outcome::Allow,
        rule: Some(rule(alloc)?),
        target: None,
        ops: Items::build(Vec::new(alloc)),
        request_headers: None,
        response_headers: Some(Items::build(Vec::new(alloc))),
    };
    let mut lines = String::new(alloc);
    write_verdict(alloc, 3, 0, &verdict, &mut lines)?;
    write_fault(alloc, 4, 0, &rule(alloc)?, &mut lines)?;
    write_bad(alloc, 5, &LineFault::BadJson, &mut lines)?;
    let url = LineFault::BadUrl(CommandPath::Url, ViewRefusal::BadHost);
    write_bad(alloc, 6, &url, &mut lines)?;
    let want =
        "{\"line\":3,\"generation\":0,\"verdict\":\"allow\",\"rule\":[\"local\",\"rules\",7],\"responseHeaders\":[]}\n{\"line\":4,\"generation\":0,\"fault\":\"pattern-host\",\"rule\":[\"local\",\"rules\",7]}\n{\"line\":5,\"bad\":\"json\"}\n{\"line\":6,\"bad\":\"url\",\"path\":\"url\",\"why\":\"bad-host\"}\n";
    assert_eq!(rt; lines.as_str(), want);
    Ok(())
}

#[test]
fn an_explanation_lists_extensions(rt: HostRuntime) -> Result<(), Fail> {
    let alloc = rt.alloc();
    let mut why = Vec::new(alloc);
    why.push(Why {
        ext: Text::build(String::from_str(alloc, "b")?),
        winner: None,
    })?;
    why.push(Why {
        ext: Text::build(String::from_str(alloc, "local")?),
        winner: Some(WhyRule {
            rule: rule(alloc)?,
            verb: Verb::AllowAllRequests,
            priority: 3,
            frame: Some(0),
            lines: Items::build(vec![in alloc; 2_u32, 9]?),
        }),
    })?;
    let explanation = Explanation {
        verdict: Verdict {
            outcome: Outcome::Allow,
            rule: Some(rule(alloc)?),
            target: None,
            ops: Items::build(Vec::new(alloc)),
            request_headers: None,
            response_headers: None,
        },
        why: Items::build(why),
    };
    let mut lines = String::new(alloc);
    write_explain(alloc, 1, 2, &explanation, &mut lines)?;
    let want =
        "{\"line\":1,\"generation\":2,\"verdict\":\"allow\",\"rule\":[\"local\",\"rules\",7],\"why\":[{\"extension\":\"b\",\"rule\":null},{\"extension\":\"local\",\"rule\":[\"local\",\"rules\",7],\"action\":\"allowAllRequests\",\"priority\":3,\"frame\":0,\"lines\":[2,9]}]}\n";
    assert_eq!(rt; lines.as_str(), want);
    Ok(())
}

#[test]
fn a_reply_says_what_became_of_an_update(rt: HostRuntime) -> Result<(), Fail> {
    let alloc = rt.alloc();
    let name = Text::build(String::from_str(alloc, "q")?);
    let set = Text::build(String::from_str(alloc, "s")?);
    let refusal = PlacedRefusal {
        place: 1,
        id: Some(7),
        cause: RuleRefusal::DuplicateId,
        set: Some(set),
    };
    let mut lines = String::new(alloc);
    write_reply(alloc, 1, &Reply::Accepted(1), &mut lines)?;
    write_reply(alloc, 2, &Reply::Sync(1), &mut lines)?;
    write_reply(
        alloc,
        3,
        &Reply::Refused(Refusal::NoExtension(name)),
        &mut lines,
    )?;
    write_reply(
        alloc,
        4,
        &Reply::Refused(Refusal::NoStaticRule(-5)),
        &mut lines,
    )?;
    write_reply(alloc, 5, &Reply::BatchRule(2, refusal), &mut lines)?;
    write_reply(
        alloc,
        6,
        &Reply::BatchRefused(1, Refusal::DuplicateId(1)),
        &mut lines,
    )?;
    let want =
        "{\"line\":1,\"accepted\":1}\n{\"line\":2,\"sync\":1}\n{\"line\":3,\"refused\":\"no-extension\",\"extension\":\"q\"}\n{\"line\":4,\"refused\":\"no-static-rule\",\"id\":-5}\n{\"line\":5,\"refused\":\"duplicate-id\",\"place\":1,\"id\":7,\"ruleset\":\"s\",\"update\":2}\n{\"line\":6,\"refused\":\"duplicate-id\",\"id\":1,\"update\":1}\n";
    assert_eq!(rt; lines.as_str(), want);
    Ok(())
}

#[test]
fn a_refused_file_says_why(rt: HostRuntime) -> Result<(), Fail> {
    let alloc = rt.alloc();
    let mut lines = String::new(alloc);
    write_bad_json(alloc, "a\"b.json", &mut lines)?;
    write_bad_manifest(alloc, "m.json", ManifestPath::RuleResources, &mut lines)?;
    write_suffix_refusal(alloc, "p.dat", SuffixRefusal::BadRule(3), &mut lines)?;
    write_too_many_rules(alloc, "l.txt", 330_001, &mut lines)?;
    write_list_fault(alloc, "l.txt", 9, &mut lines)?;
    let want =
        "{\"file\":\"a\\\"b.json\",\"refused\":\"bad-json\"}\n{\"file\":\"m.json\",\"refused\":\"bad-manifest\",\"path\":\"rule_resources\"}\n{\"file\":\"p.dat\",\"refused\":\"bad-suffix\",\"line\":3}\n{\"file\":\"l.txt\",\"refused\":\"too-many-rules\",\"count\":330001}\n{\"file\":\"l.txt\",\"refused\":\"pattern-host\",\"line\":9}\n";
    assert_eq!(rt; lines.as_str(), want);
    Ok(())
}

#[test]
fn a_refused_rule_has_its_place(rt: HostRuntime) -> Result<(), Fail> {
    let refusal = PlacedRefusal {
        place: 1,
        id: None,
        cause: RuleRefusal::BadId,
        set: None,
    };
    let mut lines = String::new(rt.alloc());
    write_refused_rule(rt.alloc(), "r.json", &refusal, &mut lines)?;
    write_install_refusal(rt.alloc(), "shop", &Refusal::EnabledLimit(51), &mut lines)?;
    let want =
        "{\"file\":\"r.json\",\"refused\":\"bad-id\",\"place\":1,\"id\":null}\n{\"extension\":\"shop\",\"refused\":\"enabled-limit\",\"count\":51}\n";
    assert_eq!(rt; lines.as_str(), want);
    Ok(())
}

#[test]
fn a_report_names_lines(rt: HostRuntime) -> Result<(), Fail> {
    let hides = Reported {
        line: 3,
        reason: Reason::ElementHiding,
    };
    let mut lines = String::new(rt.alloc());
    write_unsupported(rt.alloc(), &hides, &mut lines)?;
    write_count(rt.alloc(), 4, &mut lines)?;
    let want = "{\"line\":3,\"unsupported\":\"element-hiding\"}\n{\"rules\":4}\n";
    assert_eq!(rt; lines.as_str(), want);
    assert!(rt; quoted_text(rt.alloc(), "a\"b")?.as_str() == "\"a\\\"b\"");
    Ok(())
}
