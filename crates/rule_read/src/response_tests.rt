ghost use Rattle.std.specs.Prelude.{◌≡◌, ◌==◌, [], false, Ok, None, OnOk, IfOk, IfErr, map};
ghost use Rattle.std.specs.Prelude.{length, option_map, unwrap_or};
ghost use Rattle.std.specs.List.{list_any};
ghost use Rattle.std.specs.Option.{option_map_or};
ghost use Rattle.dnr_spec.specs.HeaderTests.{in_lower_case};
ghost use Rattle.json_spec.specs.ReadRule.{header_test, header_tests_in, lists_no_value};
ghost use Rattle.json_spec.specs.MayRefuse.{IsRefused, RefusesTest};
ghost use Rattle.rule_fields.specs.Seen.{fields_seen};
ghost use Rattle.rule_read.specs.Tests.{kept_patterns, kept_values, kept_test, kept_tests};

use dnr_base::{Items, NoMemory, Text};
use dnr_spec::ValueRefusal;
use header_actions::is_name;
use header_tests::{HeaderTest, ValuePattern};
use rule_fields::{Fields, TestFields};
use rule_spec::{RulePath, RuleRefusal};
use std::alloc::Global;

// The tests of response headers of a condition.
#[derive(Drop)]
pub(crate) struct Tests {
    pub header_tests: Option<Items<HeaderTest>>,
    pub not_header_tests: Items<HeaderTest>,
}

// Reads the tests, and refuses a list with one whose name or pattern is none.
#[tactic(auto, unfolding(json_spec::specs::ReadRule::header_tests_in))]
pub(crate) fn read_tests(alloc: Global, fields: &Fields<'_>) -> Result<Tests, RuleRefusal>
    ensures ok { OnOk result (header_tests_in (fields_seen fields.now) ≡ Ok tt) }
    ensures tests { IfOk result (λ tests.
        tests.header_tests ≡ option_map (map in_lower_case) fields.now.header_tests) }
    ensures not_tests { IfOk result (λ tests.
        tests.not_header_tests ≡ map in_lower_case (unwrap_or fields.now.not_header_tests [])) }
    ensures refused { IfErr result (IsRefused (header_tests_in (fields_seen fields.now))) }
{
    let header_tests = read_list(alloc, RulePath::ResponseHeaders, &fields.header_tests)?;
    let not_header_tests = read_list(
        alloc,
        RulePath::ExcludedResponseHeaders,
        &fields.not_header_tests,
    )?;
    Ok(Tests {
        header_tests,
        not_header_tests: match not_header_tests {
            Some(tests) => tests,
            None => Items::build(Vec::new(alloc)),
        },
    })
}

fn read_list(
    alloc: Global,
    field: RulePath,
    tests: &Option<Items<TestFields>>,
) -> Result<Option<Items<HeaderTest>>, RuleRefusal>
    ensures passes { OnOk result (header_test field tests.now ≡ None) }
    ensures tests { IfOk result (λ read. read ≡ option_map (map in_lower_case) tests.now) }
    ensures refused { IfErr result (RefusesTest (header_test field tests.now) ⊥) }
{
    let Some(tests) = tests else {
        return Ok(None);
    };
    match tests_in(alloc, tests.as_slice())? {
        Some(read) => Ok(Some(read)),
        None => Err(RuleRefusal::BadHeaderTest(field)),
    }
}

fn tests_in(alloc: Global, tests: &[TestFields]) -> Result<Option<Items<HeaderTest>>, NoMemory>
    ensures { IfOk result (λ read. read ≡ kept_tests tests.now) }
{
    let mut read = Vec::with_capacity(alloc, tests.len())?;
    for test in tests {
        let Some(test) = test_in(alloc, test)? else {
            return Ok(None);
        };
        read.push(test)?;
    }
    Ok(Some(Items::build(read)))
}

fn test_in(alloc: Global, test: &TestFields) -> Result<Option<HeaderTest>, NoMemory>
    ensures { IfOk result (λ read. read ≡ kept_test test.now) }
{
    if !is_name(test.name.as_str()) {
        return Ok(None);
    }
    let Some(values) = values_in(alloc, &test.values)? else {
        return Ok(None);
    };
    let Some(excluded) = patterns_in(alloc, test.excluded.as_slice())? else {
        return Ok(None);
    };
    let name = Text::build(test.name.as_str().to_ascii_lowercase(alloc)?);
    Ok(Some(HeaderTest {
        name,
        values,
        excluded,
    }))
}

// Patterns that may be absent.
fn values_in(
    alloc: Global,
    texts: &Option<Items<Text>>,
) -> Result<Option<Option<Items<ValuePattern>>>, NoMemory>
    ensures { IfOk result (λ values. values ≡ kept_values texts.now) }
{
    let Some(texts) = texts else {
        return Ok(Some(None));
    };
    match patterns_in(alloc, texts.as_slice())? {
        Some(patterns) => Ok(Some(Some(patterns))),
        None => Ok(None),
    }
}

fn patterns_in(alloc: Global, texts: &[Text]) -> Result<Option<Items<ValuePattern>>, NoMemory>
    ensures { IfOk result (λ patterns. patterns ≡ kept_patterns texts.now) }
{
    let mut patterns = Vec::with_capacity(alloc, texts.len())?;
    for text in texts {
        match ValuePattern::read(alloc, text.as_str()) {
            Ok(pattern) => patterns.push(pattern)?,
            Err(ValueRefusal::BadValuePattern) => return Ok(None),
            Err(ValueRefusal::NoMemory) => return Err(NoMemory),
        }
    }
    Ok(Some(Items::build(patterns)))
}

// Whether a list of tests is given and empty.
pub(crate) fn has_no_test(tests: &Option<Items<TestFields>>) -> bool
    ensures { result ≡ option_map_or (λ list. length list == 0) tests.now false }
{
    match tests {
        Some(tests) => tests.as_slice().is_empty(),
        None => false,
    }
}

// Whether one of the tests, if they are given, lists values, and none.
pub(crate) fn has_no_value(tests: &Option<Items<TestFields>>) -> bool
    ensures { result ≡ option_map_or (list_any lists_no_value) tests.now false }
{
    match tests {
        Some(tests) => some_lists_none(tests.as_slice()),
        None => false,
    }
}

fn some_lists_none(tests: &[TestFields]) -> bool
    ensures { result ≡ list_any lists_no_value tests.now }
{
    tests.iter().any(|test| lists_none(&test.values))
}

// Whether values are listed, and none.
fn lists_none(values: &Option<Items<Text>>) -> bool
    ensures { result ≡ option_map_or (λ list. length list == 0) values.now false }
{
    match values {
        Some(values) => values.as_slice().is_empty(),
        None => false,
    }
}
