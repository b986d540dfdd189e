// The entries of a key: those of its bucket, of which many are searched by halves.
ghost use Rattle.std.specs.Prelude.{◌≡◌, ◌≤◌, ◌<◌, ℕ, IsTrue, [], length, slice_range, slice_index_or, Option, true, false, ◌∷◌};
ghost use Rattle.std.specs.Ordering.{nat_cmp, is_le};
ghost use Rattle.std.specs.Cmp.Lexicographic.{slice_cmp};
ghost use Rattle.key_table.specs.declared.entry.Entry.{Entry as Seen};
ghost use Rattle.key_table.specs.Bucket.{HaveKey, IsBucket, IsBucketOf};
ghost use Rattle.key_table.specs.Hash.{tag_of};
ghost use Rattle.key_table.specs.Kept.{AreEntries, HasRisingTags, IsRising, IsKept, pairs_in, rank_in, is_below};
ghost use Rattle.key_table.specs.Pairs.{near_of};

use crate::asked::Asked;
use crate::entry::Entry;
use crate::hashes::bucket_of;
use crate::order::{compare_asked, has_text};

// The most entries of a bucket that are walked without a search.
const LONG: usize = 8;

/// Entries among which all stand that have a key.
#[derive(Clone, Copy, Debug)]
pub(crate) struct Bucket<'a> {
    pub entries: &'a [Entry],
    // Whether it is known that no others stand there.
    pub sure: bool,
}

impl<'a> Bucket<'a> {
    /// No entries.
    pub(crate) fn none() -> Bucket<'a>
        ensures { result.entries.now ≡ [] }
    {
        Bucket {
            entries: &[],
            sure: false,
        }
    }
}

// The part of the entries that stands there.
fn part(entries: &[Entry], start: usize, end: usize) -> &[Entry]
    requires ordered { start ≤ end }
    requires within { end ≤ length entries.now }
    ensures { result.now ≡ slice_range entries.now start end }
{
    &entries[start..end]
}

// How many entries stand below the key.
#[tactic(auto)]
fn start_of(texts: &[u8], entries: &[Entry], tag: u32, asked: &Asked<'_>) -> usize
    requires { IsRising texts.now entries.now }
    ensures within { result ≤ length entries.now }
    ensures below { (k : ℕ) (entry : Seen) → k < result
        → is_below (rank_in texts.now (slice_index_or entries.now k entry)) (tag ∷ asked.now) ≡ true }
{
    entries.partition_point(|entry| compare_asked(texts, entry, tag, asked).is_lt())
}

// How many entries do not stand above the key.
#[tactic(auto)]
fn end_of(texts: &[u8], entries: &[Entry], tag: u32, asked: &Asked<'_>) -> usize
    requires { IsRising texts.now entries.now }
    ensures within { result ≤ length entries.now }
    ensures above { (k : ℕ) (entry : Seen) → result ≤ k → k < length entries.now
        → is_le (slice_cmp nat_cmp (rank_in texts.now (slice_index_or entries.now k entry)) (tag ∷ asked.now)) ≡ false }
{
    entries.partition_point(|entry| compare_asked(texts, entry, tag, asked).is_le())
}

// How many entries have a lower tag.
#[tactic(auto)]
fn tag_start(entries: &[Entry], tag: u32) -> usize
    requires { HasRisingTags entries.now }
    ensures within { result ≤ length entries.now }
    ensures below { (k : ℕ) (entry : Seen) → k < result → (slice_index_or entries.now k entry).tag < tag }
{
    entries.partition_point(|entry| entry.tag < tag)
}

// How many entries have no higher tag.
#[tactic(auto)]
fn tag_end(entries: &[Entry], tag: u32) -> usize
    requires { HasRisingTags entries.now }
    ensures within { result ≤ length entries.now }
    ensures above { (k : ℕ) (entry : Seen) → result ≤ k → k < length entries.now
        → tag < (slice_index_or entries.now k entry).tag }
{
    entries.partition_point(|entry| entry.tag <= tag)
}

// The entries that have the key, by halves.
fn with_key<'a>(texts: &[u8], entries: &'a [Entry], tag: u32, asked: &Asked<'_>) -> &'a [Entry]
    requires all { AreEntries texts.now entries.now }
    requires rising { IsRising texts.now entries.now }
    requires tag { tag ≡ tag_of asked.now }
    ensures entries { AreEntries texts.now result.now }
    ensures places { (shown : Option ℕ) → near_of asked.now shown (pairs_in texts.now result.now)
        ≡ near_of asked.now shown (pairs_in texts.now entries.now) }
{
    let start = start_of(texts, entries, tag, asked);
    let end = end_of(texts, entries, tag, asked).max(start);
    part(entries, start, end)
}

// Whether the first and the last have the key, and so, since they are in order, all of them.
fn are_of(texts: &[u8], entries: &[Entry], asked: &Asked<'_>) -> bool
    requires all { AreEntries texts.now entries.now }
    requires rising { IsRising texts.now entries.now }
    ensures { IsTrue result → HaveKey texts.now asked.now entries.now }
{
    if entries.is_empty() {
        return false;
    }
    has_text(texts, &entries[0], asked) && has_text(texts, &entries[entries.len() - 1], asked)
}

// The entries that have the tag, by halves. Few keys share one, but where a list was made so they are told apart.
fn searched<'a>(texts: &[u8], entries: &'a [Entry], tag: u32, asked: &Asked<'_>) -> Bucket<'a>
    requires all { AreEntries texts.now entries.now }
    requires rising { IsRising texts.now entries.now }
    requires tag { tag ≡ tag_of asked.now }
    ensures { IsBucketOf texts.now asked.now entries.now result }
{
    let start = tag_start(entries, tag);
    let end = tag_end(entries, tag).max(start);
    let own = part(entries, start, end);
    if are_of(texts, own, asked) {
        return Bucket {
            entries: own,
            sure: true,
        };
    }
    Bucket {
        entries: with_key(texts, own, tag, asked),
        sure: false,
    }
}

/// The entries of a key's bucket or, if these are many, those that have the key.
pub(crate) fn find_bucket<'a>(
    texts: &[u8],
    entries: &'a [Entry],
    starts: &[u32],
    tag: u32,
    asked: &Asked<'_>,
) -> Bucket<'a>
    requires kept { IsKept texts.now entries.now starts.now }
    requires tag { tag ≡ tag_of asked.now }
    ensures { IsBucketOf texts.now asked.now entries.now result }
{
    let buckets = (starts.len() - 1) as u32;
    let bucket = bucket_of(buckets, tag);
    let start = starts[bucket] as usize;
    let end = starts[bucket + 1] as usize;
    let own = part(entries, start, end);
    if own.len() > LONG {
        return searched(texts, own, tag, asked);
    }
    Bucket {
        entries: own,
        sure: false,
    }
}
