// The order of entries: by tag, then by key.
ghost use Rattle.std.specs.Prelude.{◌≡◌, ◌∷◌};
ghost use Rattle.std.specs.Ordering.{nat_cmp};
ghost use Rattle.std.specs.Str.{bytes_eq};
ghost use Rattle.std.specs.Cmp.Lexicographic.{slice_cmp};
ghost use Rattle.key_table.specs.Kept as spec;

use crate::asked::{Asked, asked_byte};
use crate::entry::Entry;
use std::cmp::Ordering;

/// Where the key of an entry stands.
#[tactic(auto, using(crate::proofs::Keys::within_texts))]
pub(crate) fn key_in<'a>(texts: &'a [u8], entry: &Entry) -> &'a [u8]
    ensures { result.now ≡ spec.key_in texts.now entry.now }
{
    let end = (entry.at as usize + entry.len as usize).min(texts.len());
    let start = (entry.at as usize).min(end);
    &texts[start..end]
}

/// How two entries stand in order.
pub(crate) fn compare(texts: &[u8], entry: &Entry, other: &Entry) -> Ordering
    ensures { result ≡ slice_cmp nat_cmp (spec.rank_in texts.now entry.now) (spec.rank_in texts.now other.now) }
{
    match entry.tag.cmp(&other.tag) {
        Ordering::Equal => key_in(texts, entry).cmp(key_in(texts, other)),
        order => order,
    }
}

/// How a key stands to one that is asked for.
pub(crate) fn compare_keys(key: &[u8], asked: &Asked<'_>) -> Ordering
    ensures { result ≡ slice_cmp nat_cmp key.now asked.now }
{
    let (mut own, mut left) = (key, asked.text);
    while let Some((first, rest)) = own.split_first() {
        let Some((byte, behind)) = left.split_first() else {
            return Ordering::Greater;
        };
        match first.cmp(&asked_byte(asked.fold, *byte)) {
            Ordering::Equal => {}
            order => return order,
        }
        own = rest;
        left = behind;
    }
    if left.is_empty() {
        Ordering::Equal
    } else {
        Ordering::Less
    }
}

/// Whether an entry has the key that is asked for.
pub(crate) fn has_text(texts: &[u8], entry: &Entry, asked: &Asked<'_>) -> bool
    ensures { result ≡ bytes_eq (spec.key_in texts.now entry.now) asked.now }
{
    compare_keys(key_in(texts, entry), asked).is_eq()
}

/// How an entry stands to a key that is asked for, which has this tag.
pub(crate) fn compare_asked(texts: &[u8], entry: &Entry, tag: u32, asked: &Asked<'_>) -> Ordering
    ensures { result ≡ slice_cmp nat_cmp (spec.rank_in texts.now entry.now) (tag ∷ asked.now) }
{
    match entry.tag.cmp(&tag) {
        Ordering::Equal => compare_keys(key_in(texts, entry), asked),
        order => order,
    }
}
