// What is printed of a rule that is refused.
ghost use Rattle.std.specs.Prelude.{◌≡◌, ◌++◌, codes, decimal, OnOk, string_bytes};
ghost use Rattle.session_spec.specs.Refusals as spec;
ghost use Rattle.explain_report.specs.Detail.{detail_seen};

use crate::text::push_text_field;
use dnr_base::{NoMemory, Text};
use dnr_spec::{HeaderRefusal, PatternRefusal};
use rule_spec::{HeaderCause, PlacedRefusal, RulePath, RuleRefusal};
use std::alloc::Global;

// Appends the code of a refused rule of a list, and its fields.
pub(crate) fn push_rule_fields(
    alloc: Global,
    refusal: &PlacedRefusal,
    into: &mut String,
) -> Result<(), NoMemory>
    ensures { OnOk result (string_bytes into.new ≡ string_bytes into.old ++ spec.rule_fields refusal.now) }
{
    push_place(rule_code(refusal.cause), refusal.place, into)?;
    push_id(refusal.id, into)?;
    push_detail(detail_of(refusal.cause), into)?;
    push_ruleset(alloc, &refusal.set, into)
}

// Appends the ruleset that the list belongs to, where several are read at once.
fn push_ruleset(alloc: Global, set: &Option<Text>, into: &mut String) -> Result<(), NoMemory>
    ensures { OnOk result (string_bytes into.new ≡ string_bytes into.old ++ spec.ruleset_field set.now) }
{
    let Some(id) = set else {
        return Ok(());
    };
    push_text_field(alloc, ",\"ruleset\":", id.as_str(), into)
}

fn push_place(code: &str, place: u32, into: &mut String) -> Result<(), NoMemory>
    ensures { OnOk result (string_bytes into.new
        ≡ string_bytes into.old ++ codes "\"" ++ code.now ++ codes "\",\"place\":" ++ decimal place ++ codes ",\"id\":") }
{
    write!(into, "\"{code}\",\"place\":{place},\"id\":")?;
    Ok(())
}

fn push_id(id: Option<u32>, into: &mut String) -> Result<(), NoMemory>
    ensures { OnOk result (string_bytes into.new ≡ string_bytes into.old ++ spec.id_text id) }
{
    match id {
        Some(id) => write!(into, "{id}")?,
        None => into.push_str("null")?,
    }
    Ok(())
}

// What a refusal adds to its code.
enum Detail {
    Nothing,
    Path(RulePath),
    Why(&'static str),
}

fn push_detail(detail: Detail, into: &mut String) -> Result<(), NoMemory>
    ensures { OnOk result (string_bytes into.new ≡ string_bytes into.old ++ spec.detail_field (detail_seen detail)) }
{
    match detail {
        Detail::Nothing => Ok(()),
        Detail::Path(path) => push_path(path.name(), into),
        Detail::Why(why) => push_why(why, into),
    }
}

fn push_path(path: &str, into: &mut String) -> Result<(), NoMemory>
    ensures { OnOk result (string_bytes into.new ≡ string_bytes into.old ++ codes ",\"path\":\"" ++ path.now ++ codes "\"") }
{
    write!(into, ",\"path\":\"{path}\"")?;
    Ok(())
}

fn push_why(why: &str, into: &mut String) -> Result<(), NoMemory>
    ensures { OnOk result (string_bytes into.new ≡ string_bytes into.old ++ codes ",\"why\":\"" ++ why.now ++ codes "\"") }
{
    write!(into, ",\"why\":\"{why}\"")?;
    Ok(())
}

fn detail_of(refusal: RuleRefusal) -> Detail
    ensures { detail_seen result ≡ spec.detail_of refusal }
{
    match refusal {
        RuleRefusal::BadField(path)
        | RuleRefusal::BadDomain(path)
        | RuleRefusal::EmptyList(path)
        | RuleRefusal::BadHeaderTest(path) => Detail::Path(path),
        RuleRefusal::BadUrlFilter(refusal) => Detail::Why(pattern_why(refusal)),
        RuleRefusal::BadHeader(cause) => Detail::Why(header_why(cause)),
        _ => Detail::Nothing,
    }
}

fn rule_code(refusal: RuleRefusal) -> &'static str
    ensures { result.now ≡ spec.rule_code refusal }
{
    match refusal {
        RuleRefusal::NotObject => "not-object",
        RuleRefusal::BadId => "bad-id",
        RuleRefusal::DuplicateId => "duplicate-id",
        RuleRefusal::BadPriority => "bad-priority",
        RuleRefusal::BadField(_) => "bad-field",
        RuleRefusal::BothFilters => "both-filters",
        RuleRefusal::BadUrlFilter(_) => "bad-url-filter",
        RuleRefusal::BadRegex => "bad-regex",
        RuleRefusal::BadDomain(_) => "bad-domain",
        RuleRefusal::EmptyList(_) => "empty-list",
        RuleRefusal::BothTypeLists => "both-type-lists",
        RuleRefusal::AllowAllTypes => "allow-all-types",
        RuleRefusal::BadHeaderTest(_) => "bad-header-test",
        RuleRefusal::TabsNotSession => "tabs-not-session",
        RuleRefusal::BadAction => "bad-action",
        RuleRefusal::BadRedirect => "bad-redirect",
        RuleRefusal::BadTransform => "bad-transform",
        RuleRefusal::BadHeader(_) => "bad-header",
        RuleRefusal::HostFault => "pattern-host",
        RuleRefusal::NoMemory => "no-memory",
    }
}

fn pattern_why(refusal: PatternRefusal) -> &'static str
    ensures { result.now ≡ spec.pattern_why refusal }
{
    match refusal {
        PatternRefusal::Empty => "empty",
        PatternRefusal::TooLong => "too-long",
        PatternRefusal::AnchorStar => "anchor-star",
        PatternRefusal::NotAscii => "not-ascii",
        PatternRefusal::NoMemory => "no-memory",
    }
}

fn header_why(cause: HeaderCause) -> &'static str
    ensures { result.now ≡ spec.header_why cause }
{
    match cause {
        HeaderCause::NoHeaders => "no-headers",
        HeaderCause::BadShape => "bad-shape",
        HeaderCause::Op(refusal) => op_why(refusal),
    }
}

fn op_why(refusal: HeaderRefusal) -> &'static str
    ensures { result.now ≡ spec.op_why refusal }
{
    match refusal {
        HeaderRefusal::BadName => "bad-name",
        HeaderRefusal::BadValue => "bad-value",
        HeaderRefusal::ValueMissing => "value-missing",
        HeaderRefusal::ValueGiven => "value-given",
        HeaderRefusal::AppendNotAllowed => "append-not-allowed",
        HeaderRefusal::NoMemory => "no-memory",
    }
}
