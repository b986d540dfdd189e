//! Rules as JSON, of which only what has its form is kept.
//!
//! A rule is read of a tree, but its bytes may hold anything. So its element of a list is read by its tokens: each
//! part has a form, and a value of another form, however large, is passed over, with null in its place, since the
//! rule is refused just so. What is kept costs no more than a rule of its texts.
#![tactic(auto)]

mod part;

ghost use Rattle.std.specs.Prelude.{◌≡◌, ◌<◌, Err, OnOk, IfOk, length, None, Some};
ghost use Rattle.serde_json.specs.Data.{Data};
ghost use Rattle.serde_json.specs.View.{view};
ghost use Rattle.json_fields.specs.Last.{value_at};
ghost use Rattle.rule_parts.specs.ReadsAs.{ReadsAs};

use json::Reader;
use json_fields::{Fault, next_shaped};
pub use part::RulePart;
use serde_json::Value;
use std::alloc::Global;

/// The next value of the tokens, with arrays and objects nested no deeper than `depth`: what is kept of it reads as a
/// rule as the whole does.
///
/// # Errors
///
/// - `BadJson`: the tokens are no value.
/// - `NoMemory`: memory ran out.
pub fn next_rule(alloc: Global, reader: &mut Reader<'_>, depth: usize) -> Result<Value, Fault>
    ensures read { IfOk result (λ kept. (d : Data) × (value_at depth reader.old ≡ Some (d, reader.new))
        × ReadsAs (view kept) d) }
    ensures shorter { OnOk result (length reader.new < length reader.old) }
    ensures bad { result ≡ Err Fault.BadJson → value_at depth reader.old ≡ None }
{
    next_shaped(alloc, reader, depth, RulePart::Rule)
}
