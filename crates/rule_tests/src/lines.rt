//! Lines of filter lists.
use abp_parse::{FilterLine, FilterPattern, Line, Reason, parse_line};
use dnr_base::Kind;
use list_spec::OptionName;
use std::test::Fail;

// Compiles where threads may share values of the type.
fn is_shared<T: Send + Sync>() {}

fn is_as_written(filter: &FilterLine) -> bool {
    let pattern = match &filter.pattern {
        FilterPattern::Plain(pattern) => pattern.text(),
        _ => "",
    };
    pattern == "||b.c^"
        && filter.exception
        && filter.third_party == Some(false)
        && filter.kinds.contains(Kind::Image)
        && filter.domains.as_slice().iter().all(|entry| entry.excluded)
}

#[test]
fn a_filter_is_read_as_written(rt: HostRuntime) -> Result<(), Fail> {
    is_shared::<Line>();
    let line = b"@@||b.c^$image,~third-party,domain=~d.e";
    let Ok(Line::Filter(filter)) = parse_line(rt.alloc(), line) else {
        return Err(Fail::new("no filter"));
    };
    assert!(rt; is_as_written(&filter));
    let hiding = parse_line(rt.alloc(), b"a.com##.ad");
    assert!(rt; matches!(&hiding, Ok(Line::Unsupported(Reason::ElementHiding))));
    assert!(rt; OptionName::named(b"Match-Case").map(OptionName::text) == Some("match-case"));
    Ok(())
}
