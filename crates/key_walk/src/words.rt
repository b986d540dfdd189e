ghost use Rattle.std.specs.Prelude.{◌≡◌, ℕ, drop, ◌+◌, ◌≤◌, ◌<◌, length, slice_index, true, false};
ghost use Rattle.std.specs.Iterator.{YieldsFirstRef, item_count};
ghost use Rattle.index_spec.specs.Words.{words_of, ends_word};

use std::marker::Model;

/// The words of a text: its longest runs of ASCII letters and digits. A clause sees those that are left.
#[derive(Debug, Drop)]
pub struct Words<'a> {
    rest: &'a [u8],
}

impl<'a> Model for Words<'a> {
    ghost use Rattle.std.specs.Prelude.{List, ℕ};
    ghost use Rattle.index_spec.specs.Words.{words_of};

    ghost Value = { List (List ℕ) };

    ghost view = { λ w. words_of w.rest.now };
}

impl<'a> Words<'a> {
    /// All words of a text.
    pub fn new(text: &'a [u8]) -> Words<'a>
        ensures { result ≡ words_of text.now }
    {
        Words { rest: text }
    }
}

// Where the first byte stands that is in no word, or the end.
fn word_end(text: &[u8]) -> usize
    ensures within { result ≤ length text.now }
    ensures inside { (k : ℕ) → k < result → ends_word (slice_index text.now k) ≡ false }
    ensures end { result < length text.now → ends_word (slice_index text.now result) ≡ true }
{
    let mut at = 0;
    while at < text.len() && text[at].is_ascii_alphanumeric() {
        at += 1;
    }
    at
}

/// What stands behind the byte at a place, or nothing.
pub(crate) fn behind(text: &[u8], at: usize) -> &[u8]
    requires { at ≤ length text.now }
    ensures { result.now ≡ drop (at + 1) text.now }
{
    if at < text.len() {
        &text[at + 1..]
    } else {
        &text[at..]
    }
}

impl<'a> Iterator for Words<'a> {
    type Item = &'a [u8];

    ghost next_gives = { YieldsFirstRef (λ words. words) };

    ghost remaining = { item_count (λ words. words) };

    fn next(&mut self) -> Option<&'a [u8]> {
        while !self.rest.is_empty() {
            let at = word_end(self.rest);
            let word = &self.rest[..at];
            self.rest = behind(self.rest, at);
            if at > 0 {
                return Some(word);
            }
        }
        None
    }
}
