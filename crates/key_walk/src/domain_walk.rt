ghost use Rattle.std.specs.Prelude.{◌≡◌, ℕ, Option, Some};
ghost use Rattle.std.specs.Iterator.{YieldsFirst, item_count};
ghost use Rattle.key_walk.specs.Over as spec;

use crate::domains::Domains;
use key_table::{Asked, Places, Table};
use std::marker::Model;

/// The places of a table that have a domain over a host, each once for each pair. A clause sees those that are left. It
/// takes no memory.
#[derive(Debug, Drop)]
pub struct DomainWalk<'a> {
    table: &'a Table,
    shown: Option<u128>,
    domains: Domains<'a>,
    places: Places<'a>,
}

impl<'a> Model for DomainWalk<'a> {
    ghost use Rattle.std.specs.Prelude.{◌++◌, List, ℕ};
    ghost use Rattle.key_walk.specs.Over.{near_each};

    ghost Value = { List ℕ };

    ghost view = { λ w. w.places ++ near_each w.table.now w.shown w.domains };
}

// The domains over a host that are asked for: none in a table without pairs.
fn domains_for<'a>(table: &Table, host: &'a str) -> Domains<'a>
    ensures { (shown : Option ℕ) → spec.near_each table.now shown result ≡ spec.near_host table.now shown host.now }
{
    if table.is_empty() {
        Domains::none()
    } else {
        Domains::new(host)
    }
}

impl<'a> DomainWalk<'a> {
    /// The places that have a domain over the host.
    pub fn new(table: &'a Table, host: &'a str) -> DomainWalk<'a>
        ensures { result ≡ spec.sharing_host table.now host.now }
    {
        DomainWalk::asked(table, host, None)
    }

    /// The places that have a domain over the host or, where it is told what is shown, those of them that need no more.
    pub fn asked(table: &'a Table, host: &'a str, shown: Option<u128>) -> DomainWalk<'a>
        ensures { result ≡ spec.near_host table.now shown host.now }
    {
        DomainWalk {
            table,
            shown,
            domains: domains_for(table, host),
            places: table.no_places(),
        }
    }
}

impl<'a> Iterator for DomainWalk<'a> {
    type Item = u32;

    ghost next_gives = { YieldsFirst (λ places. places) };

    ghost remaining = { item_count (λ places. places) };

    fn next(&mut self) -> Option<u32> {
        if let Some(place) = self.places.next() {
            return Some(place);
        }
        while let Some(domain) = self.domains.next() {
            // Before it is hashed, so that a long host is not hashed from each of its dots on.
            if !self.table.may_have_length(domain.len()) {
                continue;
            }
            let asked = Asked::exactly(domain);
            let tag = asked.tag();
            if !self.table.may_have(tag) {
                continue;
            }
            let mut places = self.table.in_bucket(asked, tag, self.shown);
            if let Some(place) = places.next() {
                self.places = places;
                return Some(place);
            }
        }
        None
    }
}
