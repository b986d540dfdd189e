// Tests of response headers, whose patterns keep their order and their repeats.
ghost use Rattle.std.specs.Prelude.{◌≡◌, IfOk, map, option_map};
ghost use Rattle.std.specs.Option.{option_copied};
ghost use Rattle.serde_json.specs.Data.{string};
ghost use Rattle.serde_json.specs.View.{view};
ghost use Rattle.json_spec.specs.Written.{written_list, test_written};

use crate::fields::{put, put_text, unless_empty};
use dnr_base::{Items, NoMemory};
use dnr_rules::{HeaderTest, ValuePattern};
use serde_json::{Map, Value};
use std::alloc::Global;

pub(crate) fn given_tests(
    alloc: Global,
    tests: Option<&Items<HeaderTest>>,
) -> Result<Option<Value>, NoMemory>
    ensures { IfOk result (λ value. option_map view value ≡ option_map (written_list test_written)
        (option_copied tests.entry)) }
{
    match tests {
        Some(tests) => Ok(Some(Value::Array(test_values(alloc, tests.as_slice())?))),
        None => Ok(None),
    }
}

pub(crate) fn test_values(alloc: Global, tests: &[HeaderTest]) -> Result<Vec<Value>, NoMemory>
    ensures { IfOk result (λ values. map view values.items ≡ map test_written tests.now) }
{
    let mut values = Vec::with_capacity(alloc, tests.len())?;
    for test in tests {
        values.push(test_value(alloc, test)?)?;
    }
    Ok(values)
}

fn test_value(alloc: Global, test: &HeaderTest) -> Result<Value, NoMemory>
    ensures { IfOk result (λ value. view value ≡ test_written test.now) }
{
    let mut members = Map::new(alloc);
    put_text(alloc, &mut members, "header", Some(test.name.as_str()))?;
    let values = given_patterns(alloc, &test.values)?;
    put(alloc, &mut members, "values", values)?;
    let excluded = pattern_values(alloc, test.excluded.as_slice())?;
    put(
        alloc,
        &mut members,
        "excludedValues",
        unless_empty(excluded),
    )?;
    Ok(Value::Object(members))
}

fn given_patterns(
    alloc: Global,
    patterns: &Option<Items<ValuePattern>>,
) -> Result<Option<Value>, NoMemory>
    ensures { IfOk result (λ value. option_map view value ≡ option_map (written_list string) patterns.now) }
{
    match patterns {
        Some(patterns) => Ok(Some(Value::Array(pattern_values(alloc, patterns.as_slice())?))),
        None => Ok(None),
    }
}

fn pattern_values(alloc: Global, patterns: &[ValuePattern]) -> Result<Vec<Value>, NoMemory>
    ensures { IfOk result (λ values. map view values.items ≡ map string patterns.now) }
{
    let mut values = Vec::with_capacity(alloc, patterns.len())?;
    for pattern in patterns {
        values.push(Value::try_from_str(alloc, pattern.text())?)?;
    }
    Ok(values)
}
