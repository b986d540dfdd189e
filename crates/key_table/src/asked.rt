ghost use Rattle.std.specs.Prelude.{◌≡◌};
ghost use Rattle.key_table.specs.Asked as spec;
ghost use Rattle.key_table.specs.Hash as hash;
ghost use Rattle.key_table.specs.Hash.{tag_of};
ghost use Rattle.key_table.specs.Pairs.{lower_case};

use crate::hashes::{HASH_START, hash_end, hash_step};
use std::marker::Model;

/// A key that is asked for: a text as it stands, or in lower case. A clause sees the bytes of the key.
#[derive(Debug, Drop)]
pub struct Asked<'a> {
    pub(crate) text: &'a [u8],
    pub(crate) fold: bool,
}

impl<'a> Model for Asked<'a> {
    ghost use Rattle.std.specs.Prelude.{List, ℕ};
    ghost use Rattle.key_table.specs.Asked.{asked_text};

    ghost Value = { List ℕ };

    ghost view = { λ a. asked_text a.fold a.text.now };
}

/// A byte of the key, for a byte of the text.
pub(crate) fn asked_byte(fold: bool, b: u8) -> u8
    ensures { result ≡ spec.asked_byte fold b }
{
    if fold { b.to_ascii_lowercase() } else { b }
}

impl<'a> Asked<'a> {
    /// The text as it stands.
    #[tactic(auto, using(crate::proofs::Folds::as_it_stands))]
    pub fn exactly(text: &'a [u8]) -> Asked<'a>
        ensures { result ≡ text.now }
    {
        Asked { text, fold: false }
    }

    /// The text with its ASCII letters in lower case.
    pub fn in_lower_case(text: &'a [u8]) -> Asked<'a>
        ensures { result ≡ lower_case text.now }
    {
        Asked { text, fold: true }
    }

    /// The tag of the key.
    #[tactic(auto, unfolding(crate::specs::Hash::tag_of))]
    pub fn tag(&self) -> u32
        ensures { result ≡ tag_of self.now }
    {
        hash_end(hash_bytes(self.fold, self.text))
    }
}

// The hash of the bytes that are asked for.
fn hash_bytes(fold: bool, text: &[u8]) -> u64
    ensures { result ≡ hash.hash_bytes (spec.asked_text fold text.now) }
{
    let (mut hash, mut left) = (HASH_START, text);
    while let Some((b, rest)) = left.split_first() {
        hash = hash_step(hash, asked_byte(fold, *b));
        left = rest;
    }
    hash
}
