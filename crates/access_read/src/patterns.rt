ghost use Rattle.std.specs.Prelude.{◌≡◌, IfOk};
ghost use Rattle.serde_json.specs.Find.{as_str};
ghost use Rattle.serde_json.specs.View.{view, items_view};
ghost use Rattle.json_spec.specs.RuleFields as form;

use dnr_base::{Items, NoMemory};
use match_patterns::MatchPattern;
use serde_json::Value;
use std::alloc::Global;

/// The match patterns of a list of texts. Another value, and a list of which an item is no text, has none.
///
/// `NoMemory`: memory ran out.
pub fn patterns_in(alloc: Global, list: &Value) -> Result<Option<Items<MatchPattern>>, NoMemory>
    ensures { IfOk result (λ patterns. patterns ≡ form.as_texts (view list.now)) }
{
    match list.as_array() {
        Some(values) => each_pattern(alloc, values),
        None => Ok(None),
    }
}

fn each_pattern(alloc: Global, values: &[Value]) -> Result<Option<Items<MatchPattern>>, NoMemory>
    ensures { IfOk result (λ patterns. patterns ≡ form.each as_str (items_view values.now)) }
{
    let mut patterns = Vec::with_capacity(alloc, values.len())?;
    for value in values {
        let Some(text) = value.as_str() else {
            return Ok(None);
        };
        let pattern = MatchPattern::read(alloc, text)?;
        patterns.push(pattern)?;
    }
    Ok(Some(Items::build(patterns)))
}
