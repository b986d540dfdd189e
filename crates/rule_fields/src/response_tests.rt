ghost use Rattle.std.specs.Prelude.{◌≡◌, IfOk};
ghost use Rattle.serde_json.specs.View.{view, items_view};
ghost use Rattle.dnr_spec.specs.HeaderTests.{HeaderTest};
ghost use Rattle.json_spec.specs.RuleFields as form;
ghost use Rattle.rule_fields.specs.Given.{data_in};

use crate::forms::as_texts;
use dnr_base::{Items, NoMemory, Text};
use serde_json::Value;
use std::alloc::Global;
use std::marker::Model;

/// A test of response headers as it stands in the file: Chrome's reference, `HeaderInfo`. Its name and its patterns
/// are texts of any form.
#[derive(Drop)]
pub struct TestFields {
    /// The header's name, in the case of the file.
    pub name: Text,
    /// The patterns of which its values must fit some.
    pub values: Option<Items<Text>>,
    /// The patterns that none of its values may fit.
    pub excluded: Items<Text>,
}

impl Model for TestFields {
    ghost Value = { HeaderTest };

    ghost view = { λ t. record { name = t.name; values = t.values; excluded = t.excluded } };
}

// The tests of a list.
pub(crate) fn as_header_tests(
    alloc: Global,
    value: &Value,
) -> Result<Option<Items<TestFields>>, NoMemory>
    ensures { IfOk result (λ tests. tests ≡ form.as_header_tests (view value.now)) }
{
    match value.as_array() {
        Some(values) => tests_in(alloc, values),
        None => Ok(None),
    }
}

fn tests_in(alloc: Global, values: &[Value]) -> Result<Option<Items<TestFields>>, NoMemory>
    ensures { IfOk result (λ tests. tests ≡ form.each form.as_header_test (items_view values.now)) }
{
    let mut tests = Vec::with_capacity(alloc, values.len())?;
    for value in values {
        let Some(test) = as_header_test(alloc, value)? else {
            return Ok(None);
        };
        tests.push(test)?;
    }
    Ok(Some(Items::build(tests)))
}

fn as_header_test(alloc: Global, value: &Value) -> Result<Option<TestFields>, NoMemory>
    ensures { IfOk result (λ test. test ≡ form.as_header_test (view value.now)) }
{
    let Some(name) = value.get("header").and_then(Value::as_str) else {
        return Ok(None);
    };
    let Some(values) = texts_given(alloc, value.get("values"))? else {
        return Ok(None);
    };
    let Some(excluded) = texts_given(alloc, value.get("excludedValues"))? else {
        return Ok(None);
    };
    Ok(Some(TestFields {
        name: Text::build(String::from_str(alloc, name)?),
        values,
        excluded: match excluded {
            Some(excluded) => excluded,
            None => Items::build(Vec::new(alloc)),
        },
    }))
}

// A list of texts that may be absent.
fn texts_given(
    alloc: Global,
    value: Option<&Value>,
) -> Result<Option<Option<Items<Text>>>, NoMemory>
    ensures { IfOk result (λ texts. texts ≡ form.texts_given (data_in value.entry)) }
{
    let Some(value) = value else {
        return Ok(Some(None));
    };
    match as_texts(alloc, value)? {
        Some(texts) => Ok(Some(Some(texts))),
        None => Ok(None),
    }
}
