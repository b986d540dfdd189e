// The value at a key.
ghost use Rattle.std.specs.Prelude.{◌≡◌, ◌<◌, length, Some, None, Err, IfOk, OnOk};
ghost use Rattle.json.specs.Json.{value, items, members};
ghost use Rattle.serde_json.specs.Data.{Data, Items, Members, no_members, array, object};
ghost use Rattle.serde_json.specs.Read.{of_json, of_items, of_members, converted};
ghost use Rattle.json_fields.specs.Held.{Shows};

use crate::number::read_number;
use crate::passed::{pass_items, pass_members};
use crate::tree::{Fault, next_items, next_members};
use json::{Reader, Token};
use serde_json::{Map, Number, Value};
use std::alloc::Global;

/// A value that stands at a key. A text is borrowed from where it was read.
#[derive(Drop)]
pub enum Held<'a> {
    /// The value null.
    Null,
    /// A truth value.
    Bool(bool),
    /// A number.
    Number(Number),
    /// A text.
    Text(&'a str),
    /// A list, without items where they are not kept.
    List(Vec<Value>),
    /// An object, without members where they are not kept.
    Object(Map<String, Value>),
}

// The next value. What stands in the brackets of a list or an object is kept where this is asked for.
pub(crate) fn next_held<'a>(
    alloc: Global,
    reader: &mut Reader<'a>,
    depth: usize,
    keeps: bool,
) -> Result<Held<'a>, Fault>
    ensures ok { IfOk result (λ held. (d : Data) × (converted of_json (value depth reader.old) ≡ Some (d, reader.new))
        × Shows keeps held d) }
    ensures shorter { OnOk result (length reader.new < length reader.old) }
    ensures bad { result ≡ Err Fault.BadJson → converted of_json (value depth reader.old) ≡ None }
{
    let token = reader.next().ok_or(Fault::BadJson)?;
    match token {
        Token::String(text) => Ok(Held::Text(text)),
        Token::Number(text) => match read_number(text) {
            Some(number) => Ok(Held::Number(number)),
            None => Err(Fault::BadJson),
        },
        Token::Bool(b) => Ok(Held::Bool(b)),
        Token::Null => Ok(Held::Null),
        Token::EndObject | Token::EndArray | Token::Key(_) | Token::Bad => Err(Fault::BadJson),
        Token::BeginArray => {
            if depth == 0 {
                return Err(Fault::BadJson);
            }
            list_held(alloc, reader, depth - 1, keeps)
        }
        Token::BeginObject => {
            if depth == 0 {
                return Err(Fault::BadJson);
            }
            object_held(alloc, reader, depth - 1, keeps)
        }
    }
}

// The list whose bracket was read.
fn list_held<'a>(
    alloc: Global,
    reader: &mut Reader<'a>,
    depth: usize,
    keeps: bool,
) -> Result<Held<'a>, Fault>
    ensures ok { IfOk result (λ held. (ds : Items)
        × (converted of_items (items (value depth) (length reader.old) reader.old) ≡ Some (ds, reader.new))
        × Shows keeps held (array ds)) }
    ensures shorter { OnOk result (length reader.new < length reader.old) }
    ensures bad { result ≡ Err Fault.BadJson → converted of_items (items (value depth) (length reader.old) reader.old)
        ≡ None }
{
    if keeps {
        Ok(Held::List(next_items(alloc, reader, depth)?))
    } else {
        pass_items(reader, depth)?;
        Ok(Held::List(Vec::new(alloc)))
    }
}

// The object whose brace was read.
fn object_held<'a>(
    alloc: Global,
    reader: &mut Reader<'a>,
    depth: usize,
    keeps: bool,
) -> Result<Held<'a>, Fault>
    ensures ok { IfOk result (λ held. (ms : Members)
        × (converted (λ ms. of_members ms no_members) (members (value depth) (length reader.old) reader.old) ≡ Some
        (ms, reader.new)) × Shows keeps held (object ms)) }
    ensures shorter { OnOk result (length reader.new < length reader.old) }
    ensures bad { result ≡ Err Fault.BadJson → converted (λ ms. of_members ms no_members)
        (members (value depth) (length reader.old) reader.old) ≡ None }
{
    if keeps {
        Ok(Held::Object(next_members(alloc, reader, depth)?))
    } else {
        pass_members(reader, depth)?;
        Ok(Held::Object(Map::new(alloc)))
    }
}
