// An object that is read by its members.
ghost use Rattle.std.specs.Prelude.{◌≡◌, ◌<◌, length, None, Err, IfOk, OnOk};
ghost use Rattle.json_fields.specs.Last.{OpensObject, value_at};

use crate::number::read_number;
use crate::passed::pass_items;
use crate::tree::Fault;
use json::{Reader, Token};

/// Takes the brace that opens an object, whose members come next. Any other value is passed over.
///
/// # Errors
///
/// - `BadJson`: the tokens are no value, or one that is nested deeper than `depth`.
pub fn open_object(reader: &mut Reader<'_>, depth: usize) -> Result<bool, Fault>
    ensures ok { IfOk result (OpensObject depth reader.old reader.new) }
    ensures shorter { OnOk result (length reader.new < length reader.old) }
    ensures bad { result ≡ Err Fault.BadJson → value_at depth reader.old ≡ None }
{
    let token = reader.next().ok_or(Fault::BadJson)?;
    match token {
        Token::String(_text) => Ok(false),
        Token::Bool(_truth) => Ok(false),
        Token::Null => Ok(false),
        Token::Number(text) => match read_number(text) {
            Some(_number) => Ok(false),
            None => Err(Fault::BadJson),
        },
        Token::EndObject | Token::EndArray | Token::Key(_) | Token::Bad => Err(Fault::BadJson),
        Token::BeginObject => {
            if depth == 0 {
                return Err(Fault::BadJson);
            }
            Ok(true)
        }
        Token::BeginArray => {
            if depth == 0 {
                return Err(Fault::BadJson);
            }
            pass_items(reader, depth - 1)?;
            Ok(false)
        }
    }
}
