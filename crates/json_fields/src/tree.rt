// The next value, as a tree.
ghost use Rattle.std.specs.Prelude.{◌≡◌, ◌<◌, length, Some, None, Err, IfOk, OnOk};
ghost use Rattle.json.specs.Json.{value, items, members};
ghost use Rattle.serde_json.specs.Data.{no_members};
ghost use Rattle.serde_json.specs.Read.{of_json, of_items, of_members, converted};
ghost use Rattle.serde_json.specs.View.{view, items_view, members_view};

use crate::number::read_number;
use json::{Invalid, Reader, Token};
use serde_json::{Map, Value};
use std::alloc::{AllocError, AllocFailed, Global};

/// Why a text gives no value.
#[derive(Clone, Copy, Debug, PartialEq, Eq, Drop)]
pub enum Fault {
    /// It is no JSON.
    BadJson,
    /// Memory ran out.
    NoMemory,
}

impl From<AllocError> for Fault {
    ghost use Rattle.json_fields.specs.declared.tree.Fault.TheVariants.{NoMemory};

    ghost from_gives = { λ _ e. e ≡ NoMemory };

    fn from(_: AllocError) -> Fault {
        Fault::NoMemory
    }
}

impl<T: Drop> From<AllocFailed<T>> for Fault {
    ghost use Rattle.json_fields.specs.declared.tree.Fault.TheVariants.{NoMemory};

    ghost from_gives = { λ _ e. e ≡ NoMemory };

    fn from(_: AllocFailed<T>) -> Fault {
        Fault::NoMemory
    }
}

impl From<Invalid> for Fault {
    ghost use Rattle.json_fields.specs.declared.tree.Fault.TheVariants.{BadJson};

    ghost from_gives = { λ _ e. e ≡ BadJson };

    fn from(_: Invalid) -> Fault {
        Fault::BadJson
    }
}

/// The next value of the tokens, as `serde_json` reads it, with arrays and objects nested no deeper than `depth`.
#[cycle(read)]
pub fn next_value(alloc: Global, reader: &mut Reader<'_>, depth: usize) -> Result<Value, Fault>
    ensures ok { IfOk result (λ v. converted of_json (value depth reader.old) ≡ Some (view v, reader.new)) }
    ensures shorter { OnOk result (length reader.new < length reader.old) }
    ensures bad { result ≡ Err Fault.BadJson → converted of_json (value depth reader.old) ≡ None }
{
    let token = reader.next().ok_or(Fault::BadJson)?;
    match token {
        Token::String(text) => Ok(Value::String(String::from_str(alloc, text)?)),
        Token::Number(text) => match read_number(text) {
            Some(number) => Ok(Value::Number(number)),
            None => Err(Fault::BadJson),
        },
        Token::Bool(b) => Ok(Value::Bool(b)),
        Token::Null => Ok(Value::Null),
        Token::EndObject | Token::EndArray | Token::Key(_) | Token::Bad => Err(Fault::BadJson),
        Token::BeginArray => {
            if depth == 0 {
                return Err(Fault::BadJson);
            }
            Ok(Value::Array(next_items(alloc, reader, depth - 1)?))
        }
        Token::BeginObject => {
            if depth == 0 {
                return Err(Fault::BadJson);
            }
            Ok(Value::Object(next_members(alloc, reader, depth - 1)?))
        }
    }
}

#[cycle(read)]
pub(crate) fn next_items(
    alloc: Global,
    reader: &mut Reader<'_>,
    depth: usize,
) -> Result<Vec<Value>, Fault>
    ensures ok { IfOk result (λ v. converted of_items (items (value depth) (length reader.old) reader.old) ≡ Some
        (items_view v.items, reader.new)) }
    ensures shorter { OnOk result (length reader.new < length reader.old) }
    ensures bad { result ≡ Err Fault.BadJson → converted of_items (items (value depth) (length reader.old) reader.old)
        ≡ None }
{
    let mut found = Vec::new(alloc);
    'items: while !reader.take_end_array() {
        let item = next_value(alloc, reader, depth)?;
        found.push(item)?;
    }
    Ok(found)
}

#[cycle(read)]
pub(crate) fn next_members(
    alloc: Global,
    reader: &mut Reader<'_>,
    depth: usize,
) -> Result<Map<String, Value>, Fault>
    ensures ok { IfOk result (λ m. converted (λ ms. of_members ms no_members)
        (members (value depth) (length reader.old) reader.old) ≡ Some (members_view m.entries, reader.new)) }
    ensures shorter { OnOk result (length reader.new < length reader.old) }
    ensures bad { result ≡ Err Fault.BadJson → converted (λ ms. of_members ms no_members)
        (members (value depth) (length reader.old) reader.old) ≡ None }
{
    let mut found = Map::new(alloc);
    'members: while let Some(name) = reader.next_key()? {
        let key = String::from_str(alloc, name)?;
        let member = next_value(alloc, reader, depth)?;
        drop(found.insert(key, member)?);
    }
    Ok(found)
}
