ghost use Rattle.std.specs.Prelude.{◌≡◌, [], false};
ghost use Rattle.std.specs.Iterator.{YieldsFirstRef, item_count};
ghost use Rattle.std.specs.Option.{option_copied};
ghost use Rattle.index_spec.specs.Keys.{domains_over, rests_of};
ghost use Rattle.key_walk.specs.Over as spec;

use dnr_spec::is_ip_host;
use std::marker::Model;

/// The texts by which a host is covered: itself and, unless it is an address, what follows each of its dots. A clause
/// sees those that are left.
#[derive(Debug, Drop)]
pub struct Domains<'a> {
    left: Option<&'a [u8]>,
    whole: bool,
}

impl<'a> Model for Domains<'a> {
    ghost use Rattle.std.specs.Prelude.{List, ℕ};
    ghost use Rattle.std.specs.Option.{option_copied};
    ghost use Rattle.key_walk.specs.Over.{domains_left};

    ghost Value = { List (List ℕ) };

    ghost view = { λ d. domains_left (option_copied d.left) d.whole };
}

impl<'a> Domains<'a> {
    /// All of a host.
    pub fn new(host: &'a str) -> Domains<'a>
        ensures { result ≡ domains_over host.now }
    {
        Domains {
            left: Some(host.as_bytes()),
            whole: is_ip_host(host),
        }
    }

    /// No domains.
    pub(crate) fn none() -> Domains<'a>
        ensures { result ≡ [] }
    {
        Domains {
            left: None,
            whole: true,
        }
    }
}

// What follows the first dot.
fn first_rest(text: &[u8]) -> Option<&[u8]>
    ensures { spec.domains_left (option_copied result) false ≡ rests_of text.now }
{
    let mut left = text;
    while let Some((b, rest)) = left.split_first() {
        if *b == b'.' {
            return Some(rest);
        }
        left = rest;
    }
    None
}

impl<'a> Iterator for Domains<'a> {
    type Item = &'a [u8];

    ghost next_gives = { YieldsFirstRef (λ domains. domains) };

    ghost remaining = { item_count (λ domains. domains) };

    fn next(&mut self) -> Option<&'a [u8]> {
        let text = self.left?;
        self.left = if self.whole { None } else { first_rest(text) };
        Some(text)
    }
}
