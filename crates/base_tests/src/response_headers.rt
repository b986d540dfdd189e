//! Which texts are patterns, what they fit, and which tests hold on which headers.
use dnr_base::{Copied, Header, Items, NoMemory, Text};
use header_tests::{HeaderTest, ValuePattern, ValueRefusal, some_holds};
use std::alloc::{AllocError, Global};
use std::test::Fail;

fn text(alloc: Global, text: &str) -> Result<Text, AllocError> {
    Ok(Text::build(String::from_str(alloc, text)?))
}

fn patterns(alloc: Global, rows: &[&str]) -> Option<Items<ValuePattern>> {
    let mut list = Vec::new(alloc);
    for row in rows {
        list.push(ValuePattern::read(alloc, row).ok()?).ok()?;
    }
    Some(Items::build(list))
}

fn header(alloc: Global, name: &str, value: &str) -> Result<Header, AllocError> {
    Ok(Header {
        name: text(alloc, name)?,
        value: text(alloc, value)?,
    })
}

fn copy_of<T: Copied>(alloc: Global, value: &T) -> Result<T, NoMemory> {
    value.copied(alloc)
}

fn is_send<T: Send>(_: &T) {}

fn is_sync<T: Sync>(_: &T) {}

#[test]
fn a_pattern_fits_a_whole_value(rt: HostRuntime) -> Result<(), Fail> {
    let rows = [
        ("text/*", "TEXT/html", true),
        ("text/*", "image/png", false),
        ("*x?", "text/x", true),
        ("*x?", "text/xyz", false),
        (r"a\*b", "a*b", true),
        (r"a\*b", "axb", false),
        (r"\\", r"\", true),
    ];
    for (pattern, value, fits) in rows {
        let pattern = ValuePattern::read(rt.alloc(), pattern).ok();
        let pattern = copy_of(rt.alloc(), &pattern.ok_or("a pattern")?)?;
        assert_eq!(rt; pattern.fits(value), fits, "{} on {value}", pattern.text());
        is_send(&pattern);
        is_sync(&pattern);
    }
    for row in [r"a\b", r"a\", "é"] {
        let refusal = ValuePattern::read(rt.alloc(), row).err();
        assert_eq!(rt; refusal, Some(ValueRefusal::BadValuePattern), "{row}");
    }
    Ok(())
}

#[test]
fn a_test_holds_on_a_value_that_is_not_excluded(rt: HostRuntime) -> Result<(), Fail> {
    let alloc = rt.alloc();
    let test = HeaderTest {
        name: text(alloc, "content-type")?,
        values: patterns(alloc, ["text/*"].as_slice()),
        excluded: patterns(alloc, ["*x?"].as_slice()).ok_or("a pattern")?,
    };
    let tests = [copy_of(alloc, &test)?];
    let rows = [
        ("content-type", "text/x", false),
        ("content-type", "text/xyz", true),
        ("content-type", "image/png", false),
        ("x-type", "text/xyz", false),
    ];
    for (name, value, holds) in rows {
        let headers = [header(alloc, name, value)?];
        assert_eq!(rt; test.holds(headers.as_slice()), holds, "{name}: {value}");
        assert_eq!(rt; some_holds(tests.as_slice(), headers.as_slice()), holds);
    }
    is_send(&test);
    is_sync(&test);
    Ok(())
}
