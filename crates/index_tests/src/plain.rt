//! The plain program: each live rule is put beside each part of a request, and the keys that both have are counted.
use dnr_base::Request;
use dnr_rules::{Action, Rule};
use rule_index::{Key, key_of, keys_of};
use std::alloc::Global;
use std::collections::BTreeMap;
use std::test::Fail;

// What is counted of a rule.
#[derive(Drop)]
struct PlainRule {
    keys: Vec<Key>,
    // Such a rule alone reaches what is asked for in a frame.
    is_for_frames: bool,
}

/// The live rules by their ids. The keys of each are made once.
#[derive(Drop)]
pub struct PlainRules {
    rules: BTreeMap<u32, PlainRule>,
}

fn is_same(one: &Key, other: &Key) -> bool {
    match (one, other) {
        (Key::Host(one), Key::Host(other)) => one == other,
        (Key::Token(one), Key::Token(other)) => one == other,
        (Key::Initiator(one), Key::Initiator(other)) => one == other,
        (Key::All, Key::All) => true,
        _ => false,
    }
}

// How many of the keys the others have too.
fn shared(keys: &[Key], others: &[Key]) -> usize {
    keys.iter()
        .filter(|key| others.iter().any(|other| is_same(key, other)))
        .count()
}

impl PlainRules {
    pub fn empty(alloc: Global) -> PlainRules {
        PlainRules {
            rules: BTreeMap::new(alloc),
        }
    }

    pub fn len(&self) -> usize {
        self.rules.len()
    }

    pub fn add(&mut self, alloc: Global, rule: &Rule) -> Result<(), Fail> {
        let keys = key_of(alloc, rule)?;
        let is_for_frames = matches!(rule.action(), Action::AllowAllRequests);
        self.rules.insert(
            rule.id(),
            PlainRule {
                keys,
                is_for_frames,
            },
        )?;
        Ok(())
    }

    pub fn remove(&mut self, id: u32) {
        self.rules.remove(&id);
    }

    /// How many keys the rules share with the request, and those for frames with its frame, added over the rules.
    pub fn pairs(&self, alloc: Global, request: &Request) -> Result<usize, Fail> {
        let own = keys_of(alloc, &request.own_part())?;
        let frame = request.frame_part(0).ok_or("no frame")?;
        let above = keys_of(alloc, &frame)?;
        let mut pairs = 0usize;
        for rule in self.rules.values() {
            pairs = pairs.saturating_add(shared(&rule.keys, &own));
            if rule.is_for_frames {
                pairs = pairs.saturating_add(shared(&rule.keys, &above));
            }
        }
        Ok(pairs)
    }
}
