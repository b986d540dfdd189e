//! Domains, suffixes and parties.
use dnr_base::{Copied, NoMemory, Text};
use dnr_spec::{DomainRefusal, SuffixRefusal, is_ip_host, split_first_label, split_last_label};
use domain_set::{DomainSet, is_domain};
use std::alloc::Global;
use std::test::Fail;
use suffix_list::{SuffixList, third_party};

fn texts(alloc: Global, words: &str) -> Result<Vec<Text>, NoMemory> {
    let mut list = Vec::new(alloc);
    for word in words.split(' ') {
        list.push(Text::build(String::from_str(alloc, word)?))?;
    }
    Ok(list)
}

#[test]
fn a_list_and_its_copy_cover_subdomains(rt: HostRuntime) -> Result<(), Fail> {
    let list = texts(rt.alloc(), "B.com a.COM")?;
    let read = DomainSet::read(rt.alloc(), &list).ok().ok_or("refused")?;
    let set = read.copied(rt.alloc())?;
    assert!(rt; set.covers("x.a.com") && !set.covers("xa.com") && set.entries().len() == 2);
    assert!(rt; !DomainSet::empty().covers("a.com"));
    let bad = texts(rt.alloc(), "a.com a..b")?;
    let refusal = DomainSet::read(rt.alloc(), &bad).err();
    assert!(rt; refusal == Some(DomainRefusal::BadDomain(1)));
    Ok(())
}

// A table is kept of so many.
#[test]
fn a_long_list_covers_the_same(rt: HostRuntime) -> Result<(), Fail> {
    let list = texts(
        rt.alloc(),
        "0.t 1.t 2.t 3.t 4.t 5.t 6.t 7.t 8.t 9.t a.com 3.4",
    )?;
    let set = DomainSet::read(rt.alloc(), &list).ok().ok_or("refused")?;
    assert!(rt; set.covers("x.a.com") && set.covers("a.com") && set.covers("x.7.t"));
    assert!(rt; !set.covers("xa.com") && !set.covers("1.2.3.4"));
    Ok(())
}

#[test]
fn hosts_are_cut_at_dots(rt: HostRuntime) {
    assert!(rt; is_domain(b"a_b-c.x") && !is_domain(b"a..b"));
    assert!(rt; is_ip_host("1.2.3.4") && !is_ip_host("4a.com"));
    assert!(rt; split_first_label("a.b.c") == ("a", Some("b.c")));
    assert!(rt; split_last_label("a.b.c") == (Some("a.b"), "c"));
}

#[test]
fn a_suffix_list_tells_parties(rt: HostRuntime) -> Result<(), Fail> {
    let list = SuffixList::read(rt.alloc(), b"com\nuk\nco.uk")
        .ok()
        .ok_or("refused")?;
    assert!(rt; list.registrable("x.a.co.uk") == Some("a.co.uk"));
    assert!(rt; third_party(&list, "a.co.uk", Some("b.co.uk")));
    assert!(rt; !third_party(&list, "x.a.co.uk", Some("y.a.co.uk")));
    assert!(rt; third_party(&list, "a.com", None));
    let refusal = SuffixList::read(rt.alloc(), b"com\na..b").err();
    assert!(rt; refusal == Some(SuffixRefusal::BadRule(2)));
    Ok(())
}
