// Where the buckets of a table begin.
ghost use Rattle.std.specs.Prelude.{◌≡◌, ◌≤◌, ◌<◌, ◌-◌, ◌^◌, ℕ, length, slice_index, IfOk};
ghost use Rattle.std.specs.List.Sorted.{IsNonDecreasing};
ghost use Rattle.key_table.specs.Hash as spec;
ghost use Rattle.key_table.specs.Kept.{tags_in};
ghost use Rattle.key_table.specs.Cuts.{IsCut, AreCuts};

use crate::entry::Entry;
use crate::hashes::bucket_of;
use std::alloc::{AllocError, Global};

// Where a bucket begins. It is looked for from a place on before which all tags fall into earlier buckets.
fn cut(entries: &[Entry], buckets: u32, from: usize, bucket: usize) -> usize
    requires some { 0 < buckets }
    requires rising { IsNonDecreasing (tags_in entries.now) }
    requires within { from ≤ length entries.now }
    requires before { (k : ℕ) → k < from
        → spec.bucket_of buckets (slice_index (tags_in entries.now) k) < bucket }
    ensures { IsCut buckets (tags_in entries.now) bucket result }
{
    let mut place = from;
    while place < entries.len() && bucket_of(buckets, entries[place].tag) < bucket {
        place += 1;
    }
    place
}

/// Where each bucket begins of entries in order, and the end of the last. There are as many buckets as entries.
pub(crate) fn starts_of(alloc: Global, entries: &[Entry]) -> Result<Vec<u32>, AllocError>
    requires { IsNonDecreasing (tags_in entries.now) }
    ensures { IfOk result (λ starts. AreCuts (length starts.items - 1) (tags_in entries.now) starts.items) }
{
    let buckets = u32::try_from(entries.len()).map_err(|_| AllocError)?.max(1);
    let mut starts = Vec::with_capacity(alloc, buckets as usize + 1)?;
    let mut place = 0;
    for bucket in 0..buckets as usize + 1 {
        place = cut(entries, buckets, place, bucket);
        starts.push(u32::try_from(place).map_err(|_| AllocError)?)?;
    }
    Ok(starts)
}
