// Marks of keys, which tell of most keys that they are not in a table before its entries are touched.
ghost use Rattle.std.specs.Prelude.{◌≡◌, ◌<◌, ◌^◌, length, IfOk};
ghost use Rattle.key_table.specs.Hash as hash;
ghost use Rattle.key_table.specs.Kept.{tags_in};
ghost use Rattle.key_table.specs.Marks as spec;
ghost use Rattle.key_table.specs.Marks.{AreMarked};

use crate::entry::Entry;
use crate::hashes::bucket_of;
use std::alloc::{AllocError, Global};

// The bit of a tag in the byte of its bucket.
fn mark_of(tag: u32) -> u8
    ensures { result ≡ spec.mark_of tag }
{
    1 << (tag % 8)
}

/// Whether the tag is marked.
pub(crate) fn is_marked(marks: &[u8], tag: u32) -> bool
    requires some { 0 < length marks.now }
    requires few { length marks.now < 2 ^ 32 }
    ensures { result ≡ spec.is_marked marks.now tag }
{
    let marked = marks[bucket_of(marks.len() as u32, tag)];
    marked | mark_of(tag) == marked
}

// Marks a tag.
fn mark(marks: &mut Vec<u8>, tag: u32)
    requires some { 0 < length marks.old.items }
    requires few { length marks.old.items < 2 ^ 32 }
    ensures marked { marks.new.items ≡ spec.with_mark marks.old.items tag }
    ensures within { hash.bucket_of (length marks.old.items) tag < length marks.old.items }
{
    let bucket = bucket_of(marks.len() as u32, tag);
    let marked = marks[bucket] | mark_of(tag);
    marks[bucket] = marked;
}

/// The marks of the entries, a byte for each of as many buckets as there are entries.
pub(crate) fn marks_of(alloc: Global, entries: &[Entry]) -> Result<Vec<u8>, AllocError>
    ensures { IfOk result (λ marks. AreMarked marks.items (tags_in entries.now)) }
{
    let buckets = u32::try_from(entries.len()).map_err(|_| AllocError)?.max(1);
    let mut marks = vec![in alloc; 0u8; buckets as usize]?;
    for entry in entries {
        mark(&mut marks, entry.tag);
    }
    Ok(marks)
}
