//! Pattern hosts and their faults, substitutions, and where redirects lead.
use dnr_base::{Copied, NoMemory, Redirect, Span, Text};
use dnr_spec::SubstitutionRefusal;
use redirect_transform::{target, upgraded};
use regex_host::{HostRefusal, ListHost, PackHost, RegexHost, Substitution};
use std::alloc::Global;
use std::test::Fail;
use url_view::parse;

const NOWHERE: [Option<Span>; 10] = [None; 10];

// Bigger than `regex` builds: a million times `a`.
const TOO_BIG: &str = "(((a{100}){100}){100})";

// What a substitution makes of the first match, if there is one.
fn replaced<H: RegexHost>(alloc: Global, host: &mut H, pattern: &str, text: &str) -> Option<Text> {
    let groups = host.check(pattern, false).ok()?;
    let read = Substitution::read(alloc, r"\1\0", groups).ok()?;
    let substitution = read.copied(alloc).ok()?;
    let mut spans = NOWHERE;
    if !host.find(pattern, false, text, &mut spans).ok()? || !text.is_ascii() {
        return None;
    }
    substitution.expand(alloc, text, &spans).ok()
}

#[test]
fn a_match_makes_a_text(rt: HostRuntime) -> Result<(), Fail> {
    let mut host = PackHost::new(rt.alloc())?;
    let text = replaced(rt.alloc(), &mut host, "a(b)?", "cab").ok_or("no match")?;
    assert!(rt; text.as_str() == "bab");
    let refusal = Substitution::read(rt.alloc(), r"\1", 0).err();
    assert!(rt; refusal == Some(SubstitutionRefusal::BadSubstitution));
    Ok(())
}

// A pattern that `regex` refuses for its size is a fault; one that is none is not.
#[test]
fn a_pattern_too_big_is_a_fault(rt: HostRuntime) -> Result<(), Fail> {
    let mut host = PackHost::with_room(rt.alloc(), 1)?;
    assert!(rt; host.check(TOO_BIG, false) == Err(HostRefusal::HostFault));
    assert!(rt; host.find(TOO_BIG, false, "a", &mut NOWHERE) == Err(HostRefusal::HostFault));
    assert!(rt; host.check("(", false) == Err(HostRefusal::NoPattern));
    assert!(rt; host.find("x", false, "x", &mut NOWHERE) == Ok(true));
    assert!(rt; host.faults() == 2);
    Ok(())
}

// A built pattern is kept for texts of one case alone.
#[test]
fn what_is_kept_decides_nothing(rt: HostRuntime) -> Result<(), Fail> {
    let mut host = PackHost::with_room(rt.alloc(), 2)?;
    for _ in 0..2 {
        assert!(rt; host.find("a", true, "A", &mut NOWHERE) == Ok(true));
        assert!(rt; host.find("a", false, "A", &mut NOWHERE) == Ok(false));
        assert!(rt; host.find("b", true, "a", &mut NOWHERE) == Ok(false));
    }
    Ok(())
}

#[test]
fn listed_calls_fail(rt: HostRuntime) -> Result<(), Fail> {
    let below = PackHost::new(rt.alloc())?;
    let mut host = ListHost::new(rt.alloc(), below, vec![in rt.alloc(); 2]?);
    assert!(rt; host.check("(y)", true) == Ok(1));
    assert!(rt; host.find("x", false, "x", &mut NOWHERE) == Err(HostRefusal::HostFault));
    assert!(rt; host.find("x", false, "x", &mut NOWHERE) == Ok(true));
    assert!(rt; host.check(TOO_BIG, false) == Err(HostRefusal::HostFault));
    assert!(rt; host.faults() == 2, "a fault of the host below counts too");
    assert!(rt;
        host.asked
            .iter()
            .map(Text::as_str)
            .eq(["(y)", "x", "x", TOO_BIG].iter().copied())
    );
    Ok(())
}

#[test]
fn a_page_of_an_extension_is_a_target(rt: HostRuntime) -> Result<(), Fail> {
    let view = parse(rt.alloc(), "http://a.com/")?;
    let path = Text::build(String::from_str(rt.alloc(), "/x.html?y")?);
    let redirect = Redirect::ExtensionPath(path);
    let to = target(rt.alloc(), &redirect, "abc", &view, &NOWHERE)?.ok_or("no target")?;
    assert!(rt; to.as_str() == "chrome-extension://abc/x.html?y");
    let to = upgraded(rt.alloc(), &view)?.ok_or("no upgrade")?;
    assert!(rt; to.as_str() == "https://a.com/");
    Ok(())
}

// A text of the most bytes that a URL may have, of one letter.
fn longest_text(alloc: Global) -> Result<String, NoMemory> {
    let mut text = String::new(alloc);
    for _ in 0..65_536 {
        text.push('a')?;
    }
    Ok(text)
}

#[test]
fn a_text_at_the_limit_is_searched(rt: HostRuntime) -> Result<(), Fail> {
    let mut host = PackHost::new(rt.alloc())?;
    let text = longest_text(rt.alloc())?;
    assert!(rt; host.find("b", false, text.as_str(), &mut NOWHERE) == Ok(false));
    assert!(rt; host.faults() == 0);
    Ok(())
}
