// The texts of a long list, looked up by their order.
ghost use Rattle.std.specs.Prelude.{◌≡◌, ◌<◌, ◌^◌, IfOk, OnOk, length};
ghost use Rattle.std.specs.List.{range_with_len};
ghost use Rattle.std.specs.List.Sorted.{IsPermutation};
ghost use Rattle.domain_set.specs.Table as spec;
ghost use Rattle.domain_set.specs.Table.{Ascend, IsOrder};
ghost use Rattle.domain_set.specs.Rests.{some_rest, covers_by};

use dnr_base::{NoMemory, Text};
use dnr_spec::is_ip_host;
use std::alloc::Global;

// The bytes of the entry at a place, and none at no place.
fn text_at(entries: &[Text], place: u32) -> &[u8]
    ensures { result.now ≡ spec.text_at entries.now place }
{
    match entries.get(place as usize) {
        Some(text) => text.as_str().as_bytes(),
        None => &[],
    }
}

// The places of the entries in the ascending order of their texts.
pub(crate) fn order_of(alloc: Global, entries: &[Text]) -> Result<Vec<u32>, NoMemory>
    ensures { IfOk result (λ order. IsOrder entries.now order.items) }
{
    let mut order = places_of(alloc, entries.len())?;
    sort(entries, &mut order)?;
    Ok(order)
}

// So many places from 0. No list has more than a `u32` counts.
fn places_of(alloc: Global, count: usize) -> Result<Vec<u32>, NoMemory>
    ensures { IfOk result (λ places. places.items ≡ range_with_len 0 count) }
{
    let Ok(count) = u32::try_from(count) else {
        return Err(NoMemory);
    };
    let mut places = Vec::with_capacity(alloc, count as usize)?;
    for place in 0..count {
        places.push(place)?;
    }
    Ok(places)
}

fn sort(entries: &[Text], places: &mut Vec<u32>) -> Result<(), NoMemory>
    ensures moved { IsPermutation places.old.items places.new.items }
    ensures sorted { OnOk result (Ascend entries.now places.new.items) }
{
    places.sort_by(|place, other| text_at(entries, *place).cmp(text_at(entries, *other)))?;
    Ok(())
}

fn has_text(entries: &[Text], order: &[u32], text: &str) -> bool
    requires { IsOrder entries.now order.now }
    ensures { result ≡ spec.has_text entries.now text.now }
{
    let text = text.as_bytes();
    order
        .binary_search_by(|place| text_at(entries, *place).cmp(text))
        .is_ok()
}

// Whether the list has what follows a dot of the host: one look-up for each dot.
fn has_rest(entries: &[Text], order: &[u32], host: &str) -> bool
    requires { IsOrder entries.now order.now }
    ensures { result ≡ some_rest (spec.has_text entries.now) host.now }
{
    let mut rest = host;
    while let Some((_, behind)) = rest.split_once('.') {
        if has_text(entries, order, behind) {
            return true;
        }
        rest = behind;
    }
    false
}

// Whether the entries, as domains, cover the host.
pub(crate) fn covers(entries: &[Text], order: &[u32], host: &str) -> bool
    requires { IsOrder entries.now order.now }
    ensures { result ≡ covers_by (spec.has_text entries.now) host.now }
{
    has_text(entries, order, host) || (has_rest(entries, order, host) && !is_ip_host(host))
}
