// The list of updates of a batch.
ghost use Rattle.std.specs.Prelude.{◌≡◌, ◌<◌, Err, OnOk, IfOk, length, None, Some, codes};
ghost use Rattle.std.specs.Str.{bytes_eq};
ghost use Rattle.json.specs.Json.{items, value};
ghost use Rattle.serde_json.specs.Data.{Data, Items, Members, object};
ghost use Rattle.serde_json.specs.Find.{as_array};
ghost use Rattle.serde_json.specs.Read.{of_items, converted};
ghost use Rattle.json_fields.specs.Last.{value_at, members_in};
ghost use Rattle.update_parts.specs.Batch.{items_kept, HoldsList, HoldsBatch, HoldsMore};

use crate::part::UpdatePart;
use json::Reader;
use json_fields::{Fault, next_shaped, open_list, open_object, pass_items, pass_value};
use serde_json::Value;
use std::alloc::Global;

/// The most updates of a batch.
pub const MAX_BATCH: usize = 256;

/// The next value of the tokens, with arrays and objects nested no deeper than `depth`: the updates of the batch that
/// it is, where it has a list of no more than 256. What is kept of each reads as the whole does.
///
/// # Errors
///
/// - `BadJson`: the tokens are no value.
/// - `NoMemory`: memory ran out.
pub fn next_batch(
    alloc: Global,
    reader: &mut Reader<'_>,
    depth: usize,
) -> Result<Option<Vec<Value>>, Fault>
    ensures read { IfOk result (λ kept. (d : Data) × (value_at depth reader.old ≡ Some (d, reader.new))
        × HoldsBatch (items_kept kept) d) }
    ensures shorter { OnOk result (length reader.new < length reader.old) }
    ensures bad { result ≡ Err Fault.BadJson → value_at depth reader.old ≡ None }
{
    if open_object(reader, depth)? {
        updates_of(alloc, reader, depth - 1)
    } else {
        Ok(None)
    }
}

// The updates of the object whose brace was read.
fn updates_of(
    alloc: Global,
    reader: &mut Reader<'_>,
    depth: usize,
) -> Result<Option<Vec<Value>>, Fault>
    ensures read { IfOk result (λ kept. (ms : Members) × (members_in depth reader.old ≡ Some (ms, reader.new))
        × HoldsBatch (items_kept kept) (object ms)) }
    ensures shorter { OnOk result (length reader.new < length reader.old) }
    ensures bad { result ≡ Err Fault.BadJson → members_in depth reader.old ≡ None }
{
    let mut kept = None;
    'members: while let Some(name) = reader.next_key()? {
        kept = with_member(alloc, reader, depth, name, kept)?;
    }
    Ok(kept)
}

// The updates with one member more, of which the last list counts.
fn with_member(
    alloc: Global,
    reader: &mut Reader<'_>,
    depth: usize,
    name: &str,
    before: Option<Vec<Value>>,
) -> Result<Option<Vec<Value>>, Fault>
    ensures read { IfOk result (λ kept. (d : Data) × (value_at depth reader.old ≡ Some (d, reader.new))
        × HoldsMore name.now d (items_kept before) (items_kept kept)) }
    ensures shorter { OnOk result (length reader.new < length reader.old) }
    ensures bad { result ≡ Err Fault.BadJson → value_at depth reader.old ≡ None }
{
    if is_list_name(name) {
        next_updates(alloc, reader, depth)
    } else {
        pass_value(reader, depth)?;
        Ok(before)
    }
}

fn is_list_name(name: &str) -> bool
    ensures { result ≡ bytes_eq name.now (codes "updates") }
{
    name == "updates"
}

// The updates of the list that the next value is.
fn next_updates(
    alloc: Global,
    reader: &mut Reader<'_>,
    depth: usize,
) -> Result<Option<Vec<Value>>, Fault>
    ensures read { IfOk result (λ kept. (d : Data) × (value_at depth reader.old ≡ Some (d, reader.new))
        × HoldsList (items_kept kept) (as_array d)) }
    ensures shorter { OnOk result (length reader.new < length reader.old) }
    ensures bad { result ≡ Err Fault.BadJson → value_at depth reader.old ≡ None }
{
    if open_list(reader, depth)? {
        few_updates(alloc, reader, depth - 1)
    } else {
        Ok(None)
    }
}

// The updates of the list whose bracket was read. Of a list that is too long none is kept.
fn few_updates(
    alloc: Global,
    reader: &mut Reader<'_>,
    depth: usize,
) -> Result<Option<Vec<Value>>, Fault>
    ensures read { IfOk result (λ kept. (ds : Items)
        × (converted of_items (items (value depth) (length reader.old) reader.old) ≡ Some (ds, reader.new))
        × HoldsList (items_kept kept) (Some ds)) }
    ensures shorter { OnOk result (length reader.new < length reader.old) }
    ensures bad { result ≡ Err Fault.BadJson → converted of_items (items (value depth) (length reader.old) reader.old)
        ≡ None }
{
    let mut kept = Vec::new(alloc);
    'items: while !reader.take_end_array() {
        if kept.len() == MAX_BATCH {
            pass_value(reader, depth)?;
            pass_items(reader, depth)?;
            return Ok(None);
        }
        let update = next_shaped(alloc, reader, depth, UpdatePart::Element)?;
        kept.push(update)?;
    }
    Ok(Some(kept))
}
