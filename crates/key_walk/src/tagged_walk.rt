ghost use Rattle.std.specs.Prelude.{◌≡◌, []};
ghost use Rattle.std.specs.Iterator.{YieldsFirst, item_count};
ghost use Rattle.key_walk.specs.Met.{places_behind};

use crate::listed_words::ListedWords;
use key_table::{Asked, Places, Table};
use std::marker::Model;

/// The places of a table that share one of the words, in whatever case, each once for each pair and word that it shares. A
/// clause sees those that are left. It takes no memory, and hashes no word.
#[derive(Debug, Drop)]
pub struct TaggedWalk<'a> {
    table: &'a Table,
    words: &'a ListedWords<'a>,
    shown: Option<u128>,
    // How many of the words were asked.
    passed: usize,
    places: Places<'a>,
}

impl<'a> Model for TaggedWalk<'a> {
    ghost use Rattle.std.specs.Prelude.{◌<◌, ◌^◌, ◌++◌, length, take, drop, List, ℕ};
    ghost use Rattle.key_walk.specs.Met.{places_behind};

    ghost Value = { List ℕ };

    ghost view = { λ w. w.places
        ++ places_behind w.table.now w.shown (take w.passed w.words.now) (drop w.passed w.words.now) };

    ghost invariant = { λ w. length w.words.now < 2 ^ 63 };
}

impl<'a> TaggedWalk<'a> {
    /// The places that share one of the words or, where it is told what is shown, those of them
    /// that need no more.
    pub fn asked(
        table: &'a Table,
        words: &'a ListedWords<'a>,
        shown: Option<u128>,
    ) -> TaggedWalk<'a>
        ensures { result ≡ places_behind table.now shown [] words.now }
    {
        // Whose count a place has room for.
        let _words = words.words();
        TaggedWalk {
            table,
            words,
            shown,
            passed: 0,
            places: table.no_places(),
        }
    }
}

impl<'a> Iterator for TaggedWalk<'a> {
    type Item = u32;

    ghost next_gives = { YieldsFirst (λ places. places) };

    ghost remaining = { item_count (λ places. places) };

    fn next(&mut self) -> Option<u32> {
        if let Some(place) = self.places.next() {
            return Some(place);
        }
        while let Some(word) = self.words.words().get(self.passed) {
            let passed = self.passed;
            self.passed += 1;
            if !self.table.may_have(word.tag()) {
                continue;
            }
            let asked = Asked::in_lower_case(word.text());
            let mut places = self.table.in_bucket(asked, word.tag(), self.shown);
            if let Some(place) = places.next() {
                if !self.words.is_repeated(passed) {
                    self.places = places;
                    return Some(place);
                }
            }
        }
        None
    }
}
