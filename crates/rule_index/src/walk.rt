ghost use Rattle.std.specs.Prelude.{◌≡◌, ◌++◌, []};
ghost use Rattle.std.specs.Option.{option_copied};
ghost use Rattle.std.specs.Iterator.{YieldsFirst, item_count};
ghost use Rattle.dnr_base.specs.View.{text_of, host_of};
ghost use Rattle.key_table.specs.Pairs.{near_of};
ghost use Rattle.key_walk.specs.Met.{near_text};
ghost use Rattle.key_walk.specs.Over.{near_host};
ghost use Rattle.rule_index.specs.Index.{near_initiator};
ghost use Rattle.rule_index.specs.Walk.{places_left};

use crate::listed_part::ListedPart;
use dnr_base::{Part, Text};
use key_table::{Asked, Places, Table};
use key_walk::{DomainWalk, TaggedWalk, WordWalk};
use std::marker::Model;

/// The places of rules that share a key with a part. A clause sees those that are left. It takes no memory.
#[derive(Debug, Drop)]
pub struct Walk<'a> {
    // What has come to its end is let go of, so that it is not asked again for each place that follows.
    others: Option<Places<'a>>,
    hosts: Option<DomainWalk<'a>>,
    // One of these two: those of a part whose words are listed are asked by their tags.
    words: Option<WordWalk<'a>>,
    tagged: Option<TaggedWalk<'a>>,
    initiators: Option<DomainWalk<'a>>,
}

impl<'a> Model for Walk<'a> {
    ghost use Rattle.std.specs.Prelude.{◌++◌, List, ℕ};
    ghost use Rattle.rule_index.specs.Walk.{places_left};

    ghost Value = { List ℕ };

    ghost view = { λ w. places_left w.others ++ places_left w.hosts ++ places_left w.words ++ places_left w.tagged
        ++ places_left w.initiators };
}

// The places that have a domain over the initiator, if there is one.
fn from_initiator<'a>(
    table: &'a Table,
    initiator: Option<&'a Text>,
    shown: Option<u128>,
) -> Option<DomainWalk<'a>>
    ensures { places_left result ≡ near_initiator table.now shown (option_copied initiator.entry) }
{
    initiator.map(|host| DomainWalk::asked(table, host.as_str(), shown))
}

impl<'a> Walk<'a> {
    pub(crate) fn new(
        others: &'a Table,
        hosts: &'a Table,
        words: &'a Table,
        initiators: &'a Table,
        part: &'a Part<'a>,
        shown: Option<u128>,
    ) -> Walk<'a>
        ensures { result ≡ near_of [] shown others.now ++ near_host hosts.now shown (host_of part.now.view)
            ++ near_text words.now shown (text_of part.now.view)
            ++ near_initiator initiators.now shown part.now.initiator }
    {
        Walk {
            others: Some(others.asked(Asked::exactly(&[]), shown)),
            hosts: Some(DomainWalk::asked(hosts, part.view.host(), shown)),
            words: Some(WordWalk::asked(words, part.view.text().as_bytes(), shown)),
            tagged: None,
            initiators: from_initiator(initiators, part.initiator, shown),
        }
    }

    // The same of a part whose words are listed.
    pub(crate) fn listed(
        others: &'a Table,
        hosts: &'a Table,
        words: &'a Table,
        initiators: &'a Table,
        listed: &'a ListedPart<'a>,
        shown: Option<u128>,
    ) -> Walk<'a>
        ensures { result ≡ near_of [] shown others.now
            ++ near_host hosts.now shown (host_of listed.now.view)
            ++ near_text words.now shown (text_of listed.now.view)
            ++ near_initiator initiators.now shown listed.now.initiator }
    {
        let part = listed.part();
        Walk {
            others: Some(others.asked(Asked::exactly(&[]), shown)),
            hosts: Some(DomainWalk::asked(hosts, part.view.host(), shown)),
            words: None,
            tagged: Some(TaggedWalk::asked(words, listed.words(), shown)),
            initiators: from_initiator(initiators, part.initiator, shown),
        }
    }
}

impl<'a> Iterator for Walk<'a> {
    type Item = u32;

    ghost next_gives = { YieldsFirst (λ places. places) };

    ghost remaining = { item_count (λ places. places) };

    fn next(&mut self) -> Option<u32> {
        if let Some(others) = &mut self.others {
            if let Some(place) = others.next() {
                return Some(place);
            }
            self.others = None;
        }
        if let Some(hosts) = &mut self.hosts {
            if let Some(place) = hosts.next() {
                return Some(place);
            }
            self.hosts = None;
        }
        if let Some(words) = &mut self.words {
            if let Some(place) = words.next() {
                return Some(place);
            }
            self.words = None;
        }
        if let Some(tagged) = &mut self.tagged {
            if let Some(place) = tagged.next() {
                return Some(place);
            }
            self.tagged = None;
        }
        self.initiators.as_mut()?.next()
    }
}
