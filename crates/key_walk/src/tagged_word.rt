ghost use Rattle.std.specs.Prelude.{◌≡◌, ◌≤◌, ◌<◌, ℕ, length, take, slice_index, true, false, ◌==◌, if◌then◌else◌, IfOk};
ghost use Rattle.std.specs.Char.{to_ascii_lowercase};
ghost use Rattle.std.specs.Str.{bytes_eq};
ghost use Rattle.index_spec.specs.Words.{ends_word, words_of};
ghost use Rattle.key_table.specs.Hash.{tag_of};
ghost use Rattle.key_table.specs.Pairs.{lower_case};

use crate::words::behind;
use key_table::KeyHash;
use std::alloc::{AllocError, Global};
use std::marker::Model;

// How many words a text has at most, but for few texts.
const ROOM: usize = 32;

/// A word of a text with the tag of its key, so that a word which is asked of several tables is hashed once. A clause sees
/// the word, in the case in which it stands there.
#[derive(Debug, Drop)]
pub struct TaggedWord<'a> {
    text: &'a [u8],
    tag: u32,
}

impl<'a> Model for TaggedWord<'a> {
    ghost use Rattle.std.specs.Prelude.{◌≡◌, List, ℕ};
    ghost use Rattle.key_table.specs.Hash.{tag_of};
    ghost use Rattle.key_table.specs.Pairs.{lower_case};

    ghost Value = { List ℕ };

    ghost view = { λ w. w.text.now };

    ghost invariant = { λ w. w.tag ≡ tag_of (lower_case w.text.now) };
}

// The byte of a key for a byte of a word, or 0 for one that is in none.
fn key_byte(b: u8) -> u8
    ensures value { result ≡ (if ends_word b then 0 else to_ascii_lowercase b) }
    ensures none { ends_word b ≡ (result == 0) }
{
    match b {
        b'a'..=b'z' | b'0'..=b'9' => b,
        b'A'..=b'Z' => b + 32,
        _ => 0,
    }
}

// The word up to the first byte that is in none, or to the end. It may have no bytes.
#[tactic(auto, unfolding(key_table::specs::Hash::tag_of))]
fn word_here(text: &[u8]) -> TaggedWord<'_>
    ensures within { length result ≤ length text.now }
    ensures begins { result ≡ take (length result) text.now }
    ensures inside { (k : ℕ) → k < length result → ends_word (slice_index text.now k) ≡ false }
    ensures end { length result < length text.now → ends_word (slice_index text.now (length result)) ≡ true }
{
    let mut hash = KeyHash::new();
    let mut at = 0;
    while at < text.len() && key_byte(text[at]) != 0 {
        hash.add(key_byte(text[at]));
        at += 1;
    }
    TaggedWord {
        text: &text[..at],
        tag: hash.tag(),
    }
}

impl<'a> TaggedWord<'a> {
    /// The word.
    pub fn text(&self) -> &'a [u8]
        ensures { result.now ≡ self.now }
    {
        self.text
    }

    /// The tag of its key: the word in lower case.
    pub fn tag(&self) -> u32
        ensures { result ≡ tag_of (lower_case self.now) }
    {
        self.tag
    }

    // Whether the words are the same, in whatever case.
    #[tactic(auto, using(crate::proofs::Repeats::other_tags))]
    pub(crate) fn is_same(&self, other: &TaggedWord<'_>) -> bool
        ensures { result ≡ bytes_eq (lower_case self.now) (lower_case other.now) }
    {
        self.tag == other.tag && self.text.eq_ignore_ascii_case(other.text)
    }
}

/// The words of a text, in order.
///
/// `AllocError`: no memory is left for them.
#[tactic(auto, using(crate::proofs::Runs::listed_more))]
pub(crate) fn tagged_words(alloc: Global, text: &[u8]) -> Result<Vec<TaggedWord<'_>>, AllocError>
    ensures { IfOk result (λ words. words.items ≡ words_of text.now) }
{
    let mut tagged = Vec::with_capacity(alloc, ROOM)?;
    let mut rest = text;
    while !rest.is_empty() {
        let word = word_here(rest);
        rest = behind(rest, word.text.len());
        if !word.text.is_empty() {
            tagged.push(word)?;
        }
    }
    Ok(tagged)
}
