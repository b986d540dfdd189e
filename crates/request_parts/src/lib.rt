//! The frames and the headers of a request as JSON, of which only what has its form is kept.
//!
//! They are read of trees, but the bytes of a line may hold anything. So the line is read by its tokens: each part has
//! a form, and a value of another form, however large, is passed over, with a value in its place that is refused just
//! so. A list of more items than a request may have is refused too, so nothing of it is kept either. What is kept costs
//! no more than frames and headers of its texts.
#![tactic(auto)]

mod part;

ghost use Rattle.std.specs.Prelude.{◌≡◌, ◌<◌, Err, OnOk, IfOk, length, None, Some};
ghost use Rattle.serde_json.specs.Data.{Data};
ghost use Rattle.serde_json.specs.View.{view};
ghost use Rattle.json_fields.specs.Last.{value_at};
ghost use Rattle.request_parts.specs.SaysAs.{SaysAs};

use json::Reader;
use json_fields::{Fault, next_shaped};
use part::RequestPart;
use serde_json::Value;
use std::alloc::Global;

/// The next value of the tokens, with arrays and objects nested no deeper than `depth`: of a line, what is kept of its
/// frames and headers says the same of a request as the whole does.
///
/// # Errors
///
/// - `BadJson`: the tokens are no value.
/// - `NoMemory`: memory ran out.
pub fn next_request_parts(
    alloc: Global,
    reader: &mut Reader<'_>,
    depth: usize,
) -> Result<Value, Fault>
    ensures read { IfOk result (λ kept. (d : Data) × (value_at depth reader.old ≡ Some (d, reader.new))
        × SaysAs (view kept) d) }
    ensures shorter { OnOk result (length reader.new < length reader.old) }
    ensures bad { result ≡ Err Fault.BadJson → value_at depth reader.old ≡ None }
{
    next_shaped(alloc, reader, depth, RequestPart::Line)
}
