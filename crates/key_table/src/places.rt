ghost use Rattle.std.specs.Prelude.{◌≡◌, ◌&&◌, IsTrue};
ghost use Rattle.std.specs.Str.{bytes_eq};
ghost use Rattle.std.specs.Iterator.{YieldsFirst, item_count};
ghost use Rattle.key_table.specs.Bucket.{IsBucket};
ghost use Rattle.key_table.specs.Kept.{IsEntry, key_in, pairs_in};
ghost use Rattle.key_table.specs.Hash.{tag_of};
ghost use Rattle.key_table.specs.Pairs.{shows, near_of};

use crate::asked::Asked;
use crate::bucket::Bucket;
use crate::entry::Entry;
use crate::order::has_text;
use std::marker::Model;

/// The places that have a key and need no more than is shown. A clause sees those that are left.
#[derive(Debug, Drop)]
pub struct Places<'a> {
    texts: &'a [u8],
    bucket: Bucket<'a>,
    asked: Asked<'a>,
    tag: u32,
    shown: Option<u128>,
}

impl<'a> Model for Places<'a> {
    ghost use Rattle.std.specs.Prelude.{◌≡◌, ℕ, List};
    ghost use Rattle.key_table.specs.Kept.{pairs_in};
    ghost use Rattle.key_table.specs.Bucket.{IsBucket};
    ghost use Rattle.key_table.specs.Hash.{tag_of};
    ghost use Rattle.key_table.specs.Pairs.{near_of};

    ghost Value = { List ℕ };

    ghost view = { λ p. near_of p.asked p.shown (pairs_in p.texts.now p.bucket.entries.now) };

    ghost invariant = { λ p. IsBucket p.texts.now p.asked p.bucket × (p.tag ≡ tag_of p.asked) };
}

impl<'a> Places<'a> {
    pub(crate) fn new(
        texts: &'a [u8],
        bucket: Bucket<'a>,
        asked: Asked<'a>,
        tag: u32,
        shown: Option<u128>,
    ) -> Places<'a>
        requires bucket { IsBucket texts.now asked bucket }
        requires tag { tag ≡ tag_of asked }
        ensures { result ≡ near_of asked.entry shown (pairs_in texts.now bucket.entry.entries.now) }
    {
        Places {
            texts,
            bucket,
            asked,
            tag,
            shown,
        }
    }
}

// Whether what is needed is all shown.
fn is_shown(needed: u128, shown: Option<u128>) -> bool
    ensures { result ≡ shows needed shown }
{
    match shown {
        None => true,
        Some(shown) => needed | shown == shown,
    }
}

// Whether the entry has the key. A tag that differs tells that it has another.
#[tactic(auto, using(crate::proofs::Tags::other_tag))]
fn has_key(texts: &[u8], entry: &Entry, asked: &Asked<'_>, tag: u32) -> bool
    requires entry { IsEntry texts.now entry.now }
    requires tag { tag ≡ tag_of asked.now }
    ensures { result ≡ bytes_eq (key_in texts.now entry.now) asked.now }
{
    entry.tag == tag && has_text(texts, entry, asked)
}

// Whether the entry has the key and needs no more than is shown.
fn is_near(
    sure: bool,
    texts: &[u8],
    entry: &Entry,
    asked: &Asked<'_>,
    tag: u32,
    shown: Option<u128>,
) -> bool
    requires entry { IsEntry texts.now entry.now }
    requires tag { tag ≡ tag_of asked.now }
    requires sure { IsTrue sure → key_in texts.now entry.now ≡ asked.now }
    ensures { result
        ≡ (shows entry.now.needed shown && bytes_eq (key_in texts.now entry.now) asked.now) }
{
    is_shown(entry.needed, shown) && (sure || has_key(texts, entry, asked, tag))
}

impl<'a> Iterator for Places<'a> {
    type Item = u32;

    ghost next_gives = { YieldsFirst (λ places. places) };

    ghost remaining = { item_count (λ places. places) };

    fn next(&mut self) -> Option<u32> {
        while let Some((first, others)) = self.bucket.entries.split_first() {
            self.bucket.entries = others;
            let sure = self.bucket.sure;
            if is_near(sure, self.texts, first, &self.asked, self.tag, self.shown) {
                return Some(first.place);
            }
        }
        None
    }
}
