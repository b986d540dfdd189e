ghost use Rattle.std.specs.Prelude.{◌≡◌, ◌↔◌, ◌≤◌, ◌<◌, ℕ, List, IsTrue, IsFalse, [], length, slice_range, slice_index_or, Option, Some, true, false, ◌∷◌};
ghost use Rattle.std.specs.Ordering.{nat_cmp, is_le};
ghost use Rattle.std.specs.Cmp.Lexicographic.{slice_cmp};
ghost use Rattle.key_table.specs.declared.entry.Entry.{Entry as Seen};
ghost use Rattle.key_table.specs.Bucket.{IsBucketOf};
ghost use Rattle.key_table.specs.Hash.{tag_of};
ghost use Rattle.key_table.specs.Kept.{AreEntries, HasRisingTags, IsRising, IsKept, IsTable, pairs_in, rank_in, is_below, tags_in};
ghost use Rattle.key_table.specs.Marks.{AreMarked};
ghost use Rattle.key_table.specs.Pairs.{near_of, places_of};

use crate::asked::Asked;
use crate::bucket::{Bucket, find_bucket};
use crate::entry::Entry;
use crate::marks::is_marked;
use crate::places::Places;
use std::marker::Model;

/// Pairs of a key and a place. A clause sees the list of the pairs.
#[derive(Debug, Drop)]
pub struct Table {
    texts: Vec<u8>,
    entries: Vec<Entry>,
    starts: Vec<u32>,
    marks: Vec<u8>,
    // How many bytes the longest key has.
    longest: u32,
}

impl Model for Table {
    ghost use Rattle.std.specs.Prelude.{List};
    ghost use Rattle.key_table.specs.Pairs.{Pair};
    ghost use Rattle.key_table.specs.Kept.{pairs_in, IsTable};

    ghost Value = { List Pair };

    ghost view = { λ t. pairs_in t.texts.items t.entries.items };

    ghost invariant = { λ t. IsTable t.texts.items t.entries.items t.starts.items t.marks.items t.longest };
}

// Those of them that may have the key. Most keys that are asked for have no mark, and none of them has an entry.
fn marked<'a>(
    texts: &[u8],
    entries: &'a [Entry],
    starts: &[u32],
    marks: &[u8],
    tag: u32,
    asked: &Asked<'_>,
) -> Bucket<'a>
    requires kept { IsKept texts.now entries.now starts.now }
    requires marked { AreMarked marks.now (tags_in entries.now) }
    requires tag { tag ≡ tag_of asked.now }
    ensures { IsBucketOf texts.now asked.now entries.now result }
{
    if is_marked(marks, tag) {
        find_bucket(texts, entries, starts, tag, asked)
    } else {
        Bucket::none()
    }
}

impl Table {
    pub(crate) fn new(
        texts: Vec<u8>,
        entries: Vec<Entry>,
        starts: Vec<u32>,
        marks: Vec<u8>,
        longest: u32,
    ) -> Table
        requires { IsTable texts.items entries.items starts.items marks.items longest }
        ensures { result ≡ pairs_in texts.items entries.items }
    {
        Table {
            texts,
            entries,
            starts,
            marks,
            longest,
        }
    }

    /// The places that have the key, each once for each pair, and no others. It takes no memory.
    pub fn places<'a>(&'a self, asked: Asked<'a>) -> Places<'a>
        ensures { result ≡ places_of asked.entry self.now }
    {
        self.asked(asked, None)
    }

    /// Those of them that need no more than is shown. It takes no memory.
    pub fn near<'a>(&'a self, asked: Asked<'a>, shown: u128) -> Places<'a>
        ensures { result ≡ near_of asked.entry (Some shown) self.now }
    {
        self.asked(asked, Some(shown))
    }

    /// The places that have the key or, where it is told what is shown, those of them that need no more. It takes
    /// no memory.
    pub fn asked<'a>(&'a self, asked: Asked<'a>, shown: Option<u128>) -> Places<'a>
        ensures { result ≡ near_of asked.entry shown self.now }
    {
        let tag = asked.tag();
        self.tagged(asked, tag, shown)
    }

    /// The same where the tag of the key is known. It takes no memory.
    pub fn tagged<'a>(&'a self, asked: Asked<'a>, tag: u32, shown: Option<u128>) -> Places<'a>
        requires { tag ≡ tag_of asked }
        ensures { result ≡ near_of asked.entry shown self.now }
    {
        let bucket = marked(
            &self.texts,
            &self.entries,
            &self.starts,
            &self.marks,
            tag,
            &asked,
        );
        Places::new(&self.texts, bucket, asked, tag, shown)
    }

    /// The same without a look at the marks, for a tag that `may_have` was asked about. It takes
    /// no memory.
    pub fn in_bucket<'a>(&'a self, asked: Asked<'a>, tag: u32, shown: Option<u128>) -> Places<'a>
        requires { tag ≡ tag_of asked }
        ensures { result ≡ near_of asked.entry shown self.now }
    {
        let bucket = find_bucket(&self.texts, &self.entries, &self.starts, tag, &asked);
        Places::new(&self.texts, bucket, asked, tag, shown)
    }

    /// Whether a key of this tag may have places. Of most tags of keys that have none it is told that they have not. It takes
    /// no memory.
    pub fn may_have(&self, tag: u32) -> bool
        ensures { IsFalse result → (asked : List ℕ) (shown : Option ℕ) → tag ≡ tag_of asked
            → near_of asked shown self.now ≡ [] }
    {
        is_marked(&self.marks, tag)
    }

    /// Whether a key of so many bytes may have places. Of those that are longer than each key of the table it is told that
    /// they have none. It takes no memory.
    pub fn may_have_length(&self, bytes: usize) -> bool
        ensures { IsFalse result → (asked : List ℕ) (shown : Option ℕ) → length asked ≡ bytes
            → near_of asked shown self.now ≡ [] }
    {
        bytes <= self.longest as usize
    }

    /// Whether there are no pairs.
    pub fn is_empty(&self) -> bool
        ensures { IsTrue result ↔ (length self.now ≡ 0) }
    {
        self.entries.is_empty()
    }

    /// No places.
    pub fn no_places(&self) -> Places<'_>
        ensures { result ≡ [] }
    {
        let asked = Asked::exactly(&[]);
        let tag = asked.tag();
        Places::new(&[], Bucket::none(), asked, tag, None)
    }
}
