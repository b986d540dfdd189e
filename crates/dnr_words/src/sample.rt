// What `sample` is asked for.
ghost use Rattle.std.specs.Prelude.{◌≡◌, ◌≤◌, map, string_bytes};
ghost use Rattle.session_spec.specs.Words as spec;

use crate::numbers::{number_up_to, small_number_up_to};
use std::marker::Model;

/// A session that is made from a number.
#[derive(Debug, Drop)]
pub struct Sample {
    seed: u64,
    rules: u32,
    requests: u32,
    updates: u32,
}

impl Model for Sample {
    ghost use Rattle.std.specs.Prelude.{◌≤◌};
    ghost use Rattle.session_spec.specs.Words as spec;

    ghost Value = { spec.Sample };

    ghost view = { λ s. record { seed = s.seed; rules = s.rules; requests = s.requests; updates = s.updates } };

    ghost invariant = { λ s. (s.rules ≤ 30000) × (s.requests ≤ 100000) × (s.updates ≤ 1000) };
}

impl Sample {
    /// What the session is made from.
    pub fn seed(&self) -> u64
        ensures { result ≡ self.now.seed }
    {
        self.seed
    }

    /// How many rules its extension has.
    pub fn rules(&self) -> u32
        ensures value { result ≡ self.now.rules }
        ensures few { result ≤ 30000 }
    {
        self.rules
    }

    /// How many requests it asks for.
    pub fn requests(&self) -> u32
        ensures value { result ≡ self.now.requests }
        ensures few { result ≤ 100000 }
    {
        self.requests
    }

    /// How many updates stand between them.
    pub fn updates(&self) -> u32
        ensures value { result ≡ self.now.updates }
        ensures few { result ≤ 1000 }
    {
        self.updates
    }
}

/// The session that the words after `sample` ask for, if they ask for one. It takes no memory.
pub fn read_sample(words: &[String]) -> Option<Sample>
    ensures { result ≡ spec.sample_of (map string_bytes words.now) }
{
    let [seed, rules, requests, updates] = words else {
        return None;
    };
    let seed = number_up_to(u64::MAX, seed.as_str())?;
    let rules = small_number_up_to(30_000, rules.as_str())?;
    let requests = small_number_up_to(100_000, requests.as_str())?;
    let updates = small_number_up_to(1_000, updates.as_str())?;
    Some(Sample {
        seed,
        rules,
        requests,
        updates,
    })
}
