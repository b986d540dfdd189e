ghost use Rattle.std.specs.Prelude.{ℕ, ◌≡◌, ◌<◌, ◌≤◌, [], ◌∷◌, length, get_or, All};
ghost use Rattle.swap_core.specs.Schedule.{max_published, published, seen, IsMachine, IsReader};

use crate::Event;
use std::marker::Model;

/// How many updates can be published: the count stands still there.
pub const MAX_PUBLISHED: u32 = 1_000_000;

/// How many updates are published, and how many of them each reader has seen. A clause sees the two
/// numbers and the list. What a reader has seen was published.
#[derive(Debug, Drop)]
pub struct Machine {
    published: u32,
    seen: Vec<u32>,
}

impl Model for Machine {
    ghost use Rattle.swap_core.specs.Schedule.{Machine, IsMachine};

    ghost Value = { Machine };

    ghost view = { λ m. record { published = m.published; seen = m.seen.items } };

    ghost invariant = { λ m. IsMachine (record { published = m.published; seen = m.seen.items }) };
}

impl Machine {
    /// A machine with so many published updates, and with a reader for each entry of `seen`, which has seen
    /// so many of them. It takes no memory.
    pub fn build(published: u32, seen: Vec<u32>) -> Machine
        requires published { published ≤ max_published }
        requires seen { All (λ number. number ≤ published) seen.items }
        ensures { result ≡ record { published = published; seen = seen.items } }
    {
        Machine { published, seen }
    }

    /// How many updates are published.
    pub fn published(&self) -> u32
        ensures value { result ≡ self.now.published }
        ensures kept { IsMachine self.now }
    {
        self.published
    }

    /// How many updates each reader has seen.
    pub fn seen(&self) -> &[u32]
        ensures value { result.now ≡ self.now.seen }
        ensures kept { IsMachine self.now }
    {
        self.seen.as_slice()
    }

    /// Does what the event says.
    pub fn step(&mut self, event: Event)
        requires { IsReader (length self.old.seen) event }
        ensures published { self.new.published ≡ published self.old (event ∷ []) 1 }
        ensures readers { length self.new.seen ≡ length self.old.seen }
        ensures seen { (reader : ℕ) → reader < length self.old.seen
            → get_or self.new.seen reader 0 ≡ seen self.old (event ∷ []) reader 1 }
    {
        match event {
            Event::Publish => self.published = (self.published + 1).min(MAX_PUBLISHED),
            Event::Enter(reader) | Event::Learn(reader) => {
                self.seen[reader as usize] = self.published;
            }
        }
    }

    /// Does what the events say, in their order.
    pub fn run(&mut self, events: &[Event])
        requires { All (IsReader (length self.old.seen)) events.now }
        ensures published { self.new.published ≡ published self.old events.now (length events.now) }
        ensures readers { length self.new.seen ≡ length self.old.seen }
        ensures seen { (reader : ℕ) → reader < length self.old.seen
            → get_or self.new.seen reader 0 ≡ seen self.old events.now reader (length events.now) }
    {
        // The proof reads the type's own bound here.
        let _ = &self.published;
        for event in events {
            self.step(*event);
        }
    }
}
