// Passing over a value.
ghost use Rattle.std.specs.Prelude.{◌≡◌, ◌<◌, length, Some, None, OnOk, MatchResult};
ghost use Rattle.json_fields.specs.Behind.{behind_value, behind_items, behind_members};

use crate::number::is_in_range;
use json::{Invalid, Reader, Token};

/// Passes over the next value and keeps nothing of it. It is refused exactly where `serde_json` gives no value, also
/// for a number that is out of its range.
#[cycle(pass)]
pub fn pass_value(reader: &mut Reader<'_>, depth: usize) -> Result<(), Invalid>
    ensures value { MatchResult result (λ _. behind_value depth reader.old ≡ Some reader.new)
        (λ _. behind_value depth reader.old ≡ None) }
    ensures shorter { OnOk result (length reader.new < length reader.old) }
{
    let token = reader.next().ok_or(Invalid)?;
    match token {
        Token::String(_) | Token::Bool(_) | Token::Null => Ok(()),
        Token::Number(text) => if is_in_range(text) {
            Ok(())
        } else {
            Err(Invalid)
        },
        Token::EndObject | Token::EndArray | Token::Key(_) | Token::Bad => Err(Invalid),
        Token::BeginArray => if depth == 0 {
            Err(Invalid)
        } else {
            pass_items(reader, depth - 1)
        },
        Token::BeginObject => if depth == 0 {
            Err(Invalid)
        } else {
            pass_members(reader, depth - 1)
        },
    }
}

/// Passes over the items of a list up to the bracket that closes it.
#[cycle(pass)]
pub fn pass_items(reader: &mut Reader<'_>, depth: usize) -> Result<(), Invalid>
    ensures value { MatchResult result (λ _. behind_items depth reader.old ≡ Some reader.new)
        (λ _. behind_items depth reader.old ≡ None) }
    ensures shorter { OnOk result (length reader.new < length reader.old) }
{
    'items: while !reader.take_end_array() {
        pass_value(reader, depth)?;
    }
    Ok(())
}

#[cycle(pass)]
pub(crate) fn pass_members(reader: &mut Reader<'_>, depth: usize) -> Result<(), Invalid>
    ensures value { MatchResult result (λ _. behind_members depth reader.old ≡ Some reader.new)
        (λ _. behind_members depth reader.old ≡ None) }
    ensures shorter { OnOk result (length reader.new < length reader.old) }
{
    'members: while let Some(_) = reader.next_key()? {
        pass_value(reader, depth)?;
    }
    Ok(())
}
