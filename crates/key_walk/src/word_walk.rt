ghost use Rattle.std.specs.Prelude.{◌≡◌, ℕ, Option, take, Some};
ghost use Rattle.std.specs.Iterator.{YieldsFirst, item_count};
ghost use Rattle.key_walk.specs.Met as spec;
ghost use Rattle.index_spec.specs.Words.{words_of, has_word};

use crate::words::Words;
use key_table::{Asked, Places, Table};
use std::marker::Model;

/// The places of a table that share a word with a text, in whatever case, each once for each pair and word that it
/// shares. A clause sees those that are left. It takes no memory.
#[derive(Debug, Drop)]
pub struct WordWalk<'a> {
    table: &'a Table,
    text: &'a [u8],
    shown: Option<u128>,
    passed: usize,
    words: Words<'a>,
    places: Places<'a>,
}

impl<'a> Model for WordWalk<'a> {
    ghost use Rattle.std.specs.Prelude.{◌≡◌, ◌<◌, ◌^◌, ◌++◌, length, take, drop, List, ℕ};
    ghost use Rattle.key_walk.specs.Met.{places_behind};
    ghost use Rattle.index_spec.specs.Words.{words_of};

    ghost Value = { List ℕ };

    ghost view = { λ w. w.places
        ++ places_behind w.table.now w.shown (take w.passed (words_of w.text.now)) w.words };

    ghost invariant = { λ w. (w.words ≡ drop w.passed (words_of w.text.now)) × (length w.text.now < 2 ^ 63) };
}

// Whether the word is one of the first of the text, in whatever case. Few words are asked, those that have places.
fn is_met(text: &[u8], passed: usize, word: &[u8]) -> bool
    ensures { result ≡ has_word (take passed (words_of text.now)) word.now }
{
    Words::new(text)
        .take(passed)
        .any(|other| other.eq_ignore_ascii_case(word))
}

// The text whose words are asked for: none in a table without pairs.
fn text_for<'a>(table: &Table, text: &'a [u8]) -> &'a [u8]
    ensures { (shown : Option ℕ) → spec.near_text table.now shown result.now ≡ spec.near_text table.now shown text.now }
{
    if table.is_empty() { &[] } else { text }
}

impl<'a> WordWalk<'a> {
    /// The places that share a word with the text.
    pub fn new(table: &'a Table, text: &'a [u8]) -> WordWalk<'a>
        ensures { result ≡ spec.sharing_text table.now text.now }
    {
        WordWalk::asked(table, text, None)
    }

    /// Those of them that need no more than is shown.
    pub fn near(table: &'a Table, text: &'a [u8], shown: u128) -> WordWalk<'a>
        ensures { result ≡ spec.near_text table.now (Some shown) text.now }
    {
        WordWalk::asked(table, text, Some(shown))
    }

    /// The places that share a word with the text or, where it is told what is shown, those of them that need no more.
    pub fn asked(table: &'a Table, text: &'a [u8], shown: Option<u128>) -> WordWalk<'a>
        ensures { result ≡ spec.near_text table.now shown text.now }
    {
        let text = text_for(table, text);
        WordWalk {
            table,
            text,
            shown,
            passed: 0,
            words: Words::new(text),
            places: table.no_places(),
        }
    }
}

impl<'a> Iterator for WordWalk<'a> {
    type Item = u32;

    ghost next_gives = { YieldsFirst (λ places. places) };

    ghost remaining = { item_count (λ places. places) };

    fn next(&mut self) -> Option<u32> {
        if let Some(place) = self.places.next() {
            return Some(place);
        }
        while let Some(word) = self.words.next() {
            let passed = self.passed;
            self.passed += 1;
            let mut places = self.table.asked(Asked::in_lower_case(word), self.shown);
            if let Some(place) = places.next() {
                if !is_met(self.text, passed, word) {
                    self.places = places;
                    return Some(place);
                }
            }
        }
        None
    }
}
