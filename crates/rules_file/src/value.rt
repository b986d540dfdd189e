// The values of a text, one after another.
ghost use Rattle.std.specs.Prelude.{◌≡◌, ◌<◌, Err, OnOk, OnErr, IfOk, length, None, Some};
ghost use Rattle.std.specs.Str.{IsUtf8};
ghost use Rattle.serde_json.specs.Data.{Data};
ghost use Rattle.serde_json.specs.View.{view};
ghost use Rattle.serde_json.specs.Read.{read};
ghost use Rattle.rule_parts.specs.ReadsAs.{ReadsAs};
ghost use Rattle.rules_file.specs.Reading.{value_in, HasValue};

use json::{Invalid, Reader};
use json_fields::Fault;
use rule_parts::next_rule;
use serde_json::Value;
use std::alloc::Global;

// The next element of a list, with that alone of which a rule is read.
pub(crate) fn next_element(
    alloc: Global,
    reader: &mut Reader<'_>,
    depth: usize,
) -> Result<Value, Fault>
    ensures read { IfOk result (λ kept. (d : Data) × HasValue depth reader.old d reader.new × ReadsAs (view kept) d) }
    ensures shorter { OnOk result (length reader.new < length reader.old) }
    ensures bad { result ≡ Err Fault.BadJson → value_in depth reader.old ≡ None }
{
    next_rule(alloc, reader, depth)
}

// Passes over the next element of a list.
pub(crate) fn pass_element(reader: &mut Reader<'_>, depth: usize) -> Result<(), Invalid>
    ensures passed { OnOk result ((d : Data) × HasValue depth reader.old d reader.new) }
    ensures shorter { OnOk result (length reader.new < length reader.old) }
    ensures bad { OnErr result (value_in depth reader.old ≡ None) }
{
    match json_fields::pass_value(reader, depth) {
        Ok(()) => Ok(()),
        Err(fault) => Err(fault),
    }
}

// The value of a whole text.
pub(crate) fn read_value(alloc: Global, text: &[u8]) -> Result<Value, Fault>
    requires { IsUtf8 text.now }
    ensures read { IfOk result (λ v. read text.now ≡ Some (view v)) }
    ensures bad { result ≡ Err Fault.BadJson → read text.now ≡ None }
{
    match Value::from_slice(alloc, text) {
        Ok(value) => Ok(value),
        Err(error) => {
            if error.is_memory() {
                Err(Fault::NoMemory)
            } else {
                Err(Fault::BadJson)
            }
        }
    }
}
