// The fields of an object.
ghost use Rattle.std.specs.Prelude.{◌≡◌, ◌<◌, length, map, Some, None, Err, IfOk, OnOk};
ghost use Rattle.std.specs.List.{All};
ghost use Rattle.json.specs.Json.{value, members};
ghost use Rattle.serde_json.specs.Data.{Data, Members, no_members};
ghost use Rattle.serde_json.specs.Read.{of_json, of_members, converted, read};
ghost use Rattle.json_spec.specs.Json.{tree_of};
ghost use Rattle.json_fields.specs.Fields.{Holds, AreApart, IsEmpty, IsPut, key_of, Gives};

use crate::field::{Field, place_of};
use crate::held::next_held;
use crate::number::read_number;
use crate::passed::{pass_items, pass_value};
use crate::tree::Fault;
use json::{Reader, Scratch, Token};
use std::alloc::Global;
use std::str;

/// What a value is.
#[derive(Clone, Copy, Debug, PartialEq, Eq, Drop)]
pub enum Form {
    /// An object, whose members the fields hold.
    Object,
    /// Another value.
    Other,
}

/// Reads the fields of an object that stands alone in a text. Where the text is another value the fields hold
/// nothing that says anything. The scratch is the reader's, and may be kept from one text to the next.
///
/// # Errors
///
/// - `BadJson`: the bytes are no JSON: RFC 8259, in UTF-8, of a nesting of at most 127, each number in range.
/// - `NoMemory`: memory ran out.
pub fn read_fields<'a>(
    alloc: Global,
    bytes: &'a [u8],
    scratch: &'a mut Scratch,
    fields: &mut [Field<'_, 'a>],
) -> Result<Form, Fault>
    requires empty { All IsEmpty fields.old }
    requires apart { AreApart fields.old }
    ensures ok { IfOk result (λ form. (d : Data) × (tree_of bytes.now ≡ Some d) × Gives form fields.new d) }
    ensures keys { map key_of fields.new ≡ map key_of fields.old }
    ensures bad { result ≡ Err Fault.BadJson → tree_of bytes.now ≡ None }
{
    match str::from_utf8(bytes) {
        Ok(text) => text_fields(alloc, text, scratch, fields),
        Err(_) => Err(Fault::BadJson),
    }
}

/// The same of a text.
pub fn text_fields<'a>(
    alloc: Global,
    text: &'a str,
    scratch: &'a mut Scratch,
    fields: &mut [Field<'_, 'a>],
) -> Result<Form, Fault>
    requires empty { All IsEmpty fields.old }
    requires apart { AreApart fields.old }
    ensures ok { IfOk result (λ form. (d : Data) × (read text.now ≡ Some d) × Gives form fields.new d) }
    ensures keys { map key_of fields.new ≡ map key_of fields.old }
    ensures bad { result ≡ Err Fault.BadJson → read text.now ≡ None }
{
    let Ok(mut reader) = Reader::new(text, scratch) else {
        return Err(Fault::NoMemory);
    };
    let form = next_fields(alloc, &mut reader, 127, fields)?;
    if reader.next().is_some() {
        return Err(Fault::BadJson);
    }
    Ok(form)
}

// The next value of the tokens, with arrays and objects nested no deeper than `depth`. Where it is an object the
// fields are filled.
fn next_fields<'a>(
    alloc: Global,
    reader: &mut Reader<'a>,
    depth: usize,
    fields: &mut [Field<'_, 'a>],
) -> Result<Form, Fault>
    requires empty { All IsEmpty fields.old }
    requires apart { AreApart fields.old }
    ensures ok { IfOk result (λ form. (d : Data) × (converted of_json (value depth reader.old) ≡ Some (d, reader.new))
        × Gives form fields.new d) }
    ensures keys { map key_of fields.new ≡ map key_of fields.old }
    ensures shorter { OnOk result (length reader.new < length reader.old) }
    ensures bad { result ≡ Err Fault.BadJson → converted of_json (value depth reader.old) ≡ None }
{
    let token = reader.next().ok_or(Fault::BadJson)?;
    match token {
        Token::String(_text) => Ok(Form::Other),
        Token::Bool(_truth) => Ok(Form::Other),
        Token::Null => Ok(Form::Other),
        Token::Number(text) => match read_number(text) {
            Some(_number) => Ok(Form::Other),
            None => Err(Fault::BadJson),
        },
        Token::EndObject | Token::EndArray | Token::Key(_) | Token::Bad => Err(Fault::BadJson),
        Token::BeginArray => {
            if depth == 0 {
                return Err(Fault::BadJson);
            }
            pass_items(reader, depth - 1)?;
            Ok(Form::Other)
        }
        Token::BeginObject => {
            if depth == 0 {
                return Err(Fault::BadJson);
            }
            fill_fields(alloc, reader, depth - 1, fields)?;
            Ok(Form::Object)
        }
    }
}

// The members of the object whose brace was read.
fn fill_fields<'a>(
    alloc: Global,
    reader: &mut Reader<'a>,
    depth: usize,
    fields: &mut [Field<'_, 'a>],
) -> Result<(), Fault>
    requires empty { All IsEmpty fields.old }
    requires apart { AreApart fields.old }
    ensures ok { OnOk result ((ms : Members)
        × (converted (λ ms. of_members ms no_members) (members (value depth) (length reader.old) reader.old) ≡ Some
        (ms, reader.new)) × Holds fields.new ms) }
    ensures keys { map key_of fields.new ≡ map key_of fields.old }
    ensures shorter { OnOk result (length reader.new < length reader.old) }
    ensures bad { result ≡ Err Fault.BadJson → converted (λ ms. of_members ms no_members)
        (members (value depth) (length reader.old) reader.old) ≡ None }
{
    'members: while let Some(name) = reader.next_key()? {
        next_field(alloc, reader, depth, name, fields)?;
    }
    Ok(())
}

// The value of one member.
fn next_field<'a>(
    alloc: Global,
    reader: &mut Reader<'a>,
    depth: usize,
    name: &str,
    fields: &mut [Field<'_, 'a>],
) -> Result<(), Fault>
    requires apart { AreApart fields.old }
    ensures ok { OnOk result ((d : Data) × (converted of_json (value depth reader.old) ≡ Some (d, reader.new))
        × IsPut name.now d fields.old fields.new) }
    ensures keys { map key_of fields.new ≡ map key_of fields.old }
    ensures shorter { OnOk result (length reader.new < length reader.old) }
    ensures bad { result ≡ Err Fault.BadJson → converted of_json (value depth reader.old) ≡ None }
{
    match place_of(fields, name) {
        Some(at) => {
            let held = next_held(alloc, reader, depth, fields[at].keeps)?;
            fields[at].held = Some(held);
            Ok(())
        }
        None => {
            pass_value(reader, depth)?;
            Ok(())
        }
    }
}
