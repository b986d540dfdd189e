// The frames and the headers of a request, which are read of its line once more. A value of another form is passed
// over without memory.
ghost use Rattle.std.specs.Prelude.{◌≡◌, Err, IfOk, None, Some, is_some, length};
ghost use Rattle.serde_json.specs.Data.{Data};
ghost use Rattle.serde_json.specs.Read.{read};
ghost use Rattle.serde_json.specs.View.{view};
ghost use Rattle.json_spec.specs.Json.{tree_of};
ghost use Rattle.json_fields.specs.Fields.{value_in};
ghost use Rattle.request_parts.specs.SaysAs.{SaysAs};
ghost use Rattle.script_read.specs.Fields.{AreFieldsOf, has_parts};

use crate::fields::field_at;
use dnr_base::NoMemory;
use json::{Reader, Scratch};
use json_fields::{Fault, Field};
use line_spec::CommandPath;
use request_parts::next_request_parts;
use serde_json::Value;
use std::alloc::Global;
use std::str;

// What is kept of the frames and the headers of a line with these fields.
pub(crate) fn parts_in(
    alloc: Global,
    bytes: &[u8],
    spare: &mut Scratch,
    fields: &[Field<'static, '_>],
) -> Result<Value, NoMemory>
    requires all { length fields.now ≡ 9 }
    requires given { AreFieldsOf bytes.now fields.now }
    ensures { IfOk result (λ parts. (d : Data) × (tree_of bytes.now ≡ Some d) × SaysAs (view parts) d) }
{
    if !has_parts(fields) {
        return Ok(Value::Null);
    }
    match read_parts(alloc, bytes, spare) {
        Ok(parts) => Ok(parts),
        Err(Fault::NoMemory) => Err(NoMemory),
        Err(Fault::BadJson) => unreachable!("the line is an object"),
    }
}

// Whether one of them is given.
fn has_parts(fields: &[Field<'static, '_>]) -> bool
    requires { length fields.now ≡ 9 }
    ensures { result ≡ has_parts fields.now }
{
    is_given(field_at(fields, CommandPath::Frames))
        || is_given(field_at(fields, CommandPath::RequestHeaders))
        || is_given(field_at(fields, CommandPath::ResponseHeaders))
}

fn is_given(field: &Field<'_, '_>) -> bool
    ensures { result ≡ is_some (value_in field.now) }
{
    field.held.is_some()
}

fn read_parts(alloc: Global, bytes: &[u8], scratch: &mut Scratch) -> Result<Value, Fault>
    ensures ok { IfOk result (λ kept. (d : Data) × (tree_of bytes.now ≡ Some d) × SaysAs (view kept) d) }
    ensures bad { result ≡ Err Fault.BadJson → tree_of bytes.now ≡ None }
{
    match str::from_utf8(bytes) {
        Ok(text) => text_parts(alloc, text, scratch),
        Err(_) => Err(Fault::BadJson),
    }
}

fn text_parts(alloc: Global, text: &str, scratch: &mut Scratch) -> Result<Value, Fault>
    ensures ok { IfOk result (λ kept. (d : Data) × (read text.now ≡ Some d) × SaysAs (view kept) d) }
    ensures bad { result ≡ Err Fault.BadJson → read text.now ≡ None }
{
    let Ok(mut reader) = Reader::new(text, scratch) else {
        return Err(Fault::NoMemory);
    };
    let kept = next_request_parts(alloc, &mut reader, 127)?;
    if reader.next().is_some() {
        return Err(Fault::BadJson);
    }
    Ok(kept)
}
