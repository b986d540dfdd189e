//! A swap for which memory runs out.
ghost use Rattle.std.specs.Prelude.{◌≡◌};

use crate::fixtures::{ADDS, opening, update};
use generation::{Generation, Update};
use published::{Opening, Pair, publish_pair};
use std::alloc::Global;
use std::marker::Brand;
use std::sync::Wait;
use std::test::Fail;

// Whether an update is published by the first swap, or stays staged and is published by the second.
fn is_swapped_at_last<P: Pair, R: Wait>(
    rt: &R,
    alloc: Global,
    opened: Opening,
    first: Generation,
    update: &Update,
) -> Option<bool>
    requires book { opened ≡ P.book }
    requires opening { first ≡ P.opening }
{
    let (mut writer, _passes) = publish_pair::<P>(alloc, opened, first, 2).ok()?;
    let mut is_swapped = false;
    let is_prepared = writer.prepare(update).is_ok();
    if is_prepared {
        is_swapped = writer.swap(rt).is_ok();
        if !is_swapped {
            is_swapped = writer.staged() && writer.number() == 0 && writer.swap(rt).is_ok();
        }
    }
    let is_whole = is_swapped && !writer.staged() && writer.number() == 1;
    writer.close(rt);
    if is_prepared { Some(is_whole) } else { None }
}

// Where an allocation fails, the test asks for nothing but that of a swap.
#[test]
fn a_swap_without_memory_leaves_its_update_staged(rt: HostRuntime) -> Result<(), Fail> {
    let alloc = rt.alloc();
    let (Some(first), Some(update)) = (opening(alloc, Some("a")), update(alloc, ADDS)) else {
        return Ok(());
    };
    let is_swapped = is_swapped_at_last::<Brand, _>(&rt, alloc, Opening::new(), first, &update);
    assert!(rt; is_swapped != Some(false));
    Ok(())
}
