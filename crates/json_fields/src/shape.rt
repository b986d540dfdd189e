// Values of which only what has a form is kept.
ghost use Rattle.std.specs.Prelude.{◌≡◌, ◌<◌, List, ℕ, Bool, Option, length, Some, None, Err, IfOk, OnOk};
ghost use Rattle.json.specs.Json.{items, members, value};
ghost use Rattle.serde_json.specs.Data.{Data, Items, Members, no_members, put};
ghost use Rattle.serde_json.specs.Read.{of_items, of_members, converted};
ghost use Rattle.serde_json.specs.View.{view, items_view, members_view, number_view};
ghost use Rattle.json_fields.specs.declared.shape.Wanted.{Wanted as SpecWanted};
ghost use Rattle.json_fields.specs.Last.{value_at};
ghost use Rattle.json_fields.specs.Shapes.{Kept, KeptItems, KeptList, KeptMembers, KeptObject, KeepsMember, KeptFew, has_few, stand_in, kept_number, kept_text, kept_truth, kept_if};

use crate::number::read_number;
use crate::passed::{pass_items, pass_members, pass_value};
use crate::tree::Fault;
use json::{Reader, Token};
use serde_json::{Map, Number, Value};
use std::alloc::Global;

/// Which values are kept. Null stands in the place of any other, but for texts beside which null says something.
#[derive(Clone, Copy, Debug, PartialEq, Eq, Drop)]
pub enum Wanted {
    /// None: what counts is that one is there.
    Nothing,
    /// Texts.
    Text,
    /// Texts, and null. The value false stands in the place of any other.
    TextOrNull,
    /// Truth values.
    Truth,
    /// Numbers.
    Number,
    /// Lists, up to the first item that is not kept.
    List,
    /// Lists of at most so many items, with each of them or what stands in its place.
    Few(usize),
    /// Objects, with their members at some keys, where the form accepts these.
    Object,
}

/// A form of values.
pub trait Shape: Copy {
    /// Which values have the form.
    ghost wants: { Self → SpecWanted };

    /// The form of the items of a list.
    ghost item_shape: { Self → Self };

    /// The form of the member at a key of an object. None: it is not kept.
    ghost member_shape: { Self → List ℕ → Option Self };

    /// An object is kept where it is accepted with those members that are kept of it, and null in its place where not.
    ghost accepts: { Self → Data → Bool };

    /// Which values have the form.
    fn wanted(self) -> Wanted
        ensures { result ≡ wants self };

    /// The form of the items of a list.
    fn of_items(self) -> Self
        ensures { result ≡ item_shape self };

    /// The form of the member at a key of an object. `None`: it is not kept.
    fn of_member(self, name: &str) -> Option<Self>
        ensures { result ≡ member_shape self name.now };

    /// Whether an object is kept, of which this would be kept.
    fn accepts(self, kept: &Value) -> bool
        ensures { result ≡ accepts self (view kept.now) };
}

/// The next value of the tokens, with arrays and objects nested no deeper than `depth`. What has another form is
/// passed over without memory, and what stands in its place is kept.
///
/// # Errors
///
/// - `BadJson`: the tokens are no value.
/// - `NoMemory`: memory ran out.
#[cycle(shape)]
pub fn next_shaped<S: Shape>(
    alloc: Global,
    reader: &mut Reader<'_>,
    depth: usize,
    shape: S,
) -> Result<Value, Fault>
    ensures ok { IfOk result (λ kept. (d : Data) × (value_at depth reader.old ≡ Some (d, reader.new))
        × Kept S.wants S.item_shape S.member_shape S.accepts depth shape d (view kept)) }
    ensures shorter { OnOk result (length reader.new < length reader.old) }
    ensures bad { result ≡ Err Fault.BadJson → value_at depth reader.old ≡ None }
{
    let token = reader.next().ok_or(Fault::BadJson)?;
    match token {
        Token::String(text) => text_kept(alloc, text, shape.wanted()),
        Token::Number(text) => match read_number(text) {
            Some(number) => Ok(number_kept(number, shape.wanted())),
            None => Err(Fault::BadJson),
        },
        Token::Bool(truth) => Ok(truth_kept(truth, shape.wanted())),
        Token::Null => Ok(Value::Null),
        Token::EndObject | Token::EndArray | Token::Key(_) | Token::Bad => Err(Fault::BadJson),
        Token::BeginArray => {
            if depth == 0 {
                return Err(Fault::BadJson);
            }
            list_kept(alloc, reader, depth - 1, shape)
        }
        Token::BeginObject => {
            if depth == 0 {
                return Err(Fault::BadJson);
            }
            object_kept(alloc, reader, depth - 1, shape)
        }
    }
}

fn text_kept(alloc: Global, text: &str, wanted: Wanted) -> Result<Value, Fault>
    ensures ok { IfOk result (λ kept. view kept ≡ kept_text wanted text.now) }
    ensures bad { result ≡ Err Fault.BadJson → ⊥ }
{
    match wanted {
        Wanted::Text | Wanted::TextOrNull => Ok(Value::String(String::from_str(alloc, text)?)),
        other => Ok(stand_in(other)),
    }
}

// What stands in the place of a value that is not kept.
fn stand_in(wanted: Wanted) -> Value
    ensures { view result ≡ stand_in wanted }
{
    match wanted {
        Wanted::TextOrNull => Value::Bool(false),
        _ => Value::Null,
    }
}

fn number_kept(number: Number, wanted: Wanted) -> Value
    ensures { view result ≡ kept_number wanted (number_view number) }
{
    match wanted {
        Wanted::Number => Value::Number(number),
        other => stand_in(other),
    }
}

fn truth_kept(truth: bool, wanted: Wanted) -> Value
    ensures { view result ≡ kept_truth wanted truth }
{
    match wanted {
        Wanted::Truth => Value::Bool(truth),
        other => stand_in(other),
    }
}

// The list whose bracket was read.
#[cycle(shape)]
fn list_kept<S: Shape>(
    alloc: Global,
    reader: &mut Reader<'_>,
    depth: usize,
    shape: S,
) -> Result<Value, Fault>
    ensures ok { IfOk result (λ kept. (ds : Items)
        × (converted of_items (items (value depth) (length reader.old) reader.old) ≡ Some (ds, reader.new))
        × KeptList (Kept S.wants S.item_shape S.member_shape S.accepts depth (S.item_shape shape)) (S.wants shape) ds
        (view kept)) }
    ensures shorter { OnOk result (length reader.new < length reader.old) }
    ensures bad { result ≡ Err Fault.BadJson → converted of_items (items (value depth) (length reader.old) reader.old)
        ≡ None }
{
    match shape.wanted() {
        Wanted::List => {
            let found = items_kept(alloc, reader, depth, shape.of_items())?;
            Ok(Value::Array(found))
        }
        Wanted::Few(most) => few_kept(alloc, reader, depth, most, shape.of_items()),
        other => {
            pass_items(reader, depth)?;
            Ok(stand_in(other))
        }
    }
}

#[cycle(shape)]
fn items_kept<S: Shape>(
    alloc: Global,
    reader: &mut Reader<'_>,
    depth: usize,
    shape: S,
) -> Result<Vec<Value>, Fault>
    ensures ok { IfOk result (λ kept. (ds : Items)
        × (converted of_items (items (value depth) (length reader.old) reader.old) ≡ Some (ds, reader.new))
        × KeptItems (Kept S.wants S.item_shape S.member_shape S.accepts depth shape) ds (items_view kept.items)) }
    ensures shorter { OnOk result (length reader.new < length reader.old) }
    ensures bad { result ≡ Err Fault.BadJson → converted of_items (items (value depth) (length reader.old) reader.old)
        ≡ None }
{
    let mut found = Vec::new(alloc);
    'items: while !reader.take_end_array() {
        let item = next_shaped(alloc, reader, depth, shape)?;
        let is_last = item.is_null();
        found.push(item)?;
        if is_last {
            pass_items(reader, depth)?;
            return Ok(found);
        }
    }
    Ok(found)
}

// The list whose bracket was read, if it has at most so many items.
#[cycle(shape)]
fn few_kept<S: Shape>(
    alloc: Global,
    reader: &mut Reader<'_>,
    depth: usize,
    most: usize,
    shape: S,
) -> Result<Value, Fault>
    ensures ok { IfOk result (λ kept. (ds : Items)
        × (converted of_items (items (value depth) (length reader.old) reader.old) ≡ Some (ds, reader.new))
        × KeptFew (Kept S.wants S.item_shape S.member_shape S.accepts depth shape) (has_few most ds) ds (view kept)) }
    ensures shorter { OnOk result (length reader.new < length reader.old) }
    ensures bad { result ≡ Err Fault.BadJson → converted of_items (items (value depth) (length reader.old) reader.old)
        ≡ None }
{
    let mut found = Vec::new(alloc);
    'items: while !reader.take_end_array() {
        if found.len() == most {
            pass_value(reader, depth)?;
            pass_items(reader, depth)?;
            return Ok(Value::Null);
        }
        let item = next_shaped(alloc, reader, depth, shape)?;
        found.push(item)?;
    }
    Ok(Value::Array(found))
}

// The object whose brace was read.
#[cycle(shape)]
fn object_kept<S: Shape>(
    alloc: Global,
    reader: &mut Reader<'_>,
    depth: usize,
    shape: S,
) -> Result<Value, Fault>
    ensures ok { IfOk result (λ kept. (ms : Members)
        × (converted (λ ms. of_members ms no_members) (members (value depth) (length reader.old) reader.old) ≡ Some
        (ms, reader.new)) × KeptObject (Kept S.wants S.item_shape S.member_shape S.accepts depth)
        (S.member_shape shape) (S.accepts shape) (S.wants shape) ms (view kept)) }
    ensures shorter { OnOk result (length reader.new < length reader.old) }
    ensures bad { result ≡ Err Fault.BadJson → converted (λ ms. of_members ms no_members)
        (members (value depth) (length reader.old) reader.old) ≡ None }
{
    match shape.wanted() {
        Wanted::Object => {
            let found = members_kept(alloc, reader, depth, shape)?;
            Ok(if_accepted(Value::Object(found), shape))
        }
        other => {
            pass_members(reader, depth)?;
            Ok(stand_in(other))
        }
    }
}

fn if_accepted<S: Shape>(kept: Value, shape: S) -> Value
    ensures { view result ≡ kept_if (S.accepts shape (view kept)) (view kept) }
{
    if shape.accepts(&kept) {
        kept
    } else {
        Value::Null
    }
}

#[cycle(shape)]
fn members_kept<S: Shape>(
    alloc: Global,
    reader: &mut Reader<'_>,
    depth: usize,
    shape: S,
) -> Result<Map<String, Value>, Fault>
    ensures ok { IfOk result (λ kept. (ms : Members)
        × (converted (λ ms. of_members ms no_members) (members (value depth) (length reader.old) reader.old) ≡ Some
        (ms, reader.new)) × KeptMembers (Kept S.wants S.item_shape S.member_shape S.accepts depth)
        (S.member_shape shape) ms (members_view kept.entries)) }
    ensures shorter { OnOk result (length reader.new < length reader.old) }
    ensures bad { result ≡ Err Fault.BadJson → converted (λ ms. of_members ms no_members)
        (members (value depth) (length reader.old) reader.old) ≡ None }
{
    let mut kept = Map::new(alloc);
    'members: while let Some(name) = reader.next_key()? {
        keep_member(alloc, reader, depth, name, shape, &mut kept)?;
    }
    Ok(kept)
}

// The value of one member.
#[cycle(shape)]
fn keep_member<S: Shape>(
    alloc: Global,
    reader: &mut Reader<'_>,
    depth: usize,
    name: &str,
    shape: S,
    kept: &mut Map<String, Value>,
) -> Result<(), Fault>
    ensures ok { OnOk result ((d : Data) × (value_at depth reader.old ≡ Some (d, reader.new))
        × KeepsMember (Kept S.wants S.item_shape S.member_shape S.accepts depth) (S.member_shape shape) name.now d
        (members_view kept.old.entries) (members_view kept.new.entries)) }
    ensures shorter { OnOk result (length reader.new < length reader.old) }
    ensures bad { result ≡ Err Fault.BadJson → value_at depth reader.old ≡ None }
{
    match shape.of_member(name) {
        Some(member_shape) => {
            let member = next_shaped(alloc, reader, depth, member_shape)?;
            put_member(alloc, name, member, kept)
        }
        None => {
            pass_value(reader, depth)?;
            Ok(())
        }
    }
}

fn put_member(
    alloc: Global,
    name: &str,
    member: Value,
    kept: &mut Map<String, Value>,
) -> Result<(), Fault>
    ensures ok { OnOk result (members_view kept.new.entries ≡ put name.now (view member)
        (members_view kept.old.entries)) }
    ensures bad { result ≡ Err Fault.BadJson → ⊥ }
{
    let key = String::from_str(alloc, name)?;
    drop(kept.insert(key, member)?);
    Ok(())
}
