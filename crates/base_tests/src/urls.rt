//! URLs and filters.
use dnr_base::{Scheme, Span};
use dnr_spec::{PatternRefusal, ViewRefusal};
use std::test::Fail;
use url_filter::Pattern;
use url_view::{find_plain, parse};

#[test]
fn a_view_is_the_standards(rt: HostRuntime) -> Result<(), Fail> {
    let view = parse(rt.alloc(), " HTTP://A.b:80/x/../y?q#f#g")?;
    assert!(rt; view.full() == "http://a.b/y?q#f#g" && view.text() == "http://a.b/y?q");
    assert!(rt; view.scheme() == Scheme::Http && view.host() == "a.b");
    assert!(rt; parse(rt.alloc(), "data:x").err() == Some(ViewRefusal::BadScheme));
    Ok(())
}

// A URL that is found is not parsed. No clause says that any is.
#[test]
fn a_serialized_url_is_plain(rt: HostRuntime) -> Result<(), Fail> {
    let whole = find_plain(b"http://a-b.c/x/y.z?q#f").ok_or("not found")?;
    assert!(rt; whole.rooted && whole.scheme == Scheme::Http && whole.cut == 20);
    assert!(rt; whole.host == Span { start: 7, end: 12 });
    let origin = find_plain(b"https://a.b").ok_or("not found")?;
    assert!(rt; !origin.rooted && origin.scheme == Scheme::Https && origin.cut == 12);
    assert!(rt; origin.host == Span { start: 8, end: 11 });
    for other in [
        "http://a.b/x/../y",
        "http://a.b/x/%2e/y",
        "http://A.b/",
        "http://1.2.3.4/",
        "http://a.b:81/",
        "http://u@a.b/",
    ] {
        assert!(rt; find_plain(other.as_bytes()).is_none());
    }
    Ok(())
}

#[test]
fn a_filter_and_its_copy_fit(rt: HostRuntime) -> Result<(), Fail> {
    let read = Pattern::read(rt.alloc(), "||x.ORG^").ok().ok_or("refused")?;
    let pattern = read.copy(rt.alloc())?;
    assert!(rt; pattern.text() == "||x.ORG^");
    let view = parse(rt.alloc(), "http://a.x.org/")?;
    assert!(rt; pattern.matches(view.text(), view.host_span(), true));
    assert!(rt; !pattern.matches(view.text(), view.host_span(), false));
    assert!(rt; Pattern::read(rt.alloc(), "||*x").err() == Some(PatternRefusal::AnchorStar));
    Ok(())
}
