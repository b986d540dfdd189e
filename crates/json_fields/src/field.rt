// What is asked for of an object.
ghost use Rattle.std.specs.Prelude.{◌≡◌, ◌≢◌, ◌<◌, length, slice_index_or, MatchOption, option_map, option_and_then};
ghost use Rattle.std.specs.List.{All};
ghost use Rattle.json_fields.specs.declared.field.Field.{Field as SpecField};

use crate::held::Held;
use serde_json::Value;

/// A key that is asked for, and what stands at it.
#[derive(Drop)]
pub struct Field<'k, 'a> {
    /// The key.
    pub name: &'k str,
    /// Whether what stands in the brackets of a list or an object is kept, and not passed over.
    pub keeps: bool,
    /// The value at the key, if there is one.
    pub held: Option<Held<'a>>,
}

impl<'k, 'a> Field<'k, 'a> {
    ghost use Rattle.serde_json.specs.Find.{as_array, as_i64, as_number, as_str};
    ghost use Rattle.serde_json.specs.View.{items_view};
    ghost use Rattle.json_fields.specs.Fields.{value_in};

    /// The text at the key, if a text stands there.
    pub fn text(&self) -> Option<&'a str>
        ensures { option_map (λ s. s.now) result ≡ option_and_then as_str (value_in self.now) }
    {
        match &self.held {
            Some(Held::Text(text)) => Some(*text),
            _ => None,
        }
    }

    /// The whole number at the key, if one of 64 bits stands there.
    pub fn whole_number(&self) -> Option<i64>
        ensures { result ≡ option_and_then as_i64 (option_and_then as_number (value_in self.now)) }
    {
        match &self.held {
            Some(Held::Number(number)) => number.as_i64(),
            _ => None,
        }
    }

    /// The items of the list at the key, if a list stands there: none where they are not kept.
    pub fn list(&self) -> Option<&[Value]>
        ensures { option_map (λ s. items_view s.now) result ≡ option_and_then as_array (value_in self.now) }
    {
        match &self.held {
            Some(Held::List(values)) => Some(values.as_slice()),
            _ => None,
        }
    }
}

// The place of the key.
pub(crate) fn place_of(fields: &[Field<'_, '_>], name: &str) -> Option<usize>
    ensures { MatchOption result (All (λ field. field.name.now ≢ name.now) fields.now)
        (λ i. (i < length fields.now) × ((d : SpecField) → (slice_index_or fields.now i d).name.now ≡ name.now)) }
{
    let mut at = 0;
    while at < fields.len() {
        if fields[at].name == name {
            return Some(at);
        }
        at += 1;
    }
    None
}
