//! Which URLs a pattern fits, and which hosts it covers.
ghost use Rattle.std.specs.Prelude.{◌≡◌, IfOk};

use dnr_base::{Copied, Scheme, Span, Text, View};
use match_patterns::{MatchPattern, NoMemory};
use std::alloc::{AllocError, Global};
use std::test::Fail;

fn text(alloc: Global, text: &str) -> Result<Text, AllocError>
    ensures { IfOk result (λ copy. copy ≡ text.now) }
{
    Ok(Text::build(String::from_str(alloc, text)?))
}

// `http://u@x.org:80/a?b#c`, of which `/a?b` stands behind the authority and before the fragment.
fn view(alloc: Global) -> Result<View, Fail> {
    let full = text(alloc, "http://u@x.org:80/a?b#c")?;
    let host = Span { start: 9, end: 14 };
    Ok(View::build(full, 21, Scheme::Http, host))
}

fn copy_of<T: Copied>(alloc: Global, value: &T) -> Result<T, NoMemory> {
    value.copied(alloc)
}

fn is_send<T: Send>(_: &T) {}

fn is_sync<T: Sync>(_: &T) {}

#[test]
fn a_pattern_fits_urls(rt: HostRuntime) -> Result<(), Fail> {
    let rows = [
        ("<all_urls>", true),
        ("*://*/*", true),
        ("http://x.org/a?b", true),
        ("*://*.org/*?*", true),
        ("https://*/*", false),
        ("http://x.org/a", false),
        ("http://x.org/A?b", false),
        ("http://*.a.x.org/*", false),
        ("http://x.org", false),
        ("x.org/*", false),
    ];
    let view = view(rt.alloc())?;
    for (pattern, fits) in rows {
        let read = MatchPattern::read(rt.alloc(), pattern)?;
        let copy = copy_of(rt.alloc(), &read)?;
        assert_eq!(rt; copy.fits(&view), fits, "{}", copy.text());
        is_send(&copy);
        is_sync(&copy);
    }
    Ok(())
}

#[test]
fn a_pattern_covers_hosts(rt: HostRuntime) -> Result<(), Fail> {
    let rows = [
        ("<all_urls>", "a.com", true),
        ("*://*/*", "a.com", true),
        ("ftp://A.com/x", "a.com", true),
        ("ftp://a.com/x", "b.a.com", false),
        ("ftp://*.a.com/x", "b.a.com", true),
        ("ftp://*.a.com/x", "ba.com", false),
        ("a.com", "a.com", false),
    ];
    for (pattern, host, covers) in rows {
        let read = MatchPattern::read(rt.alloc(), pattern)?;
        assert_eq!(rt; read.covers(host), covers, "{pattern} and {host}");
    }
    Ok(())
}
