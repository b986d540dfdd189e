ghost use Rattle.std.specs.Prelude.{◌≡◌, ◌++◌, [], ◌∷◌, ◌<◌, List, ℕ, length, not};
ghost use Rattle.std.specs.Prelude.{slice_index_or, take, IfOk};
ghost use Rattle.index_spec.specs.Words.{has_word, words_of};
ghost use Rattle.key_table.specs.Pairs.{lower_case};
ghost use Rattle.key_walk.specs.Listed.{HasMet, repeats_in};

use crate::tagged_word::{TaggedWord, tagged_words};
use std::alloc::{AllocError, Global};
use std::collections::BTreeSet;
use std::marker::Model;

// How many words are compared with those before them. Of a text with more it is told once which of
// them repeat, so that a text costs what its length says, whoever wrote it.
const FEW: usize = 128;

/// The words of a text, in order, with the tags of their keys. A clause sees the words, each in the
/// case in which it stands.
#[derive(Debug, Drop)]
pub struct ListedWords<'a> {
    words: Vec<TaggedWord<'a>>,
    // Whether each stood before, where there are many.
    repeats: Option<Vec<bool>>,
}

impl<'a> Model for ListedWords<'a> {
    ghost use Rattle.std.specs.Prelude.{◌≡◌, List, ℕ, IfSome};
    ghost use Rattle.key_walk.specs.Listed.{repeats_in};

    ghost Value = { List (List ℕ) };

    ghost view = { λ w. w.words.items };

    ghost invariant = { λ w. IfSome w.repeats
        (λ repeats. repeats.items ≡ repeats_in w.words.items) };
}

// Whether the word is one of these, in whatever case.
fn is_met(words: &[TaggedWord<'_>], word: &TaggedWord<'_>) -> bool
    ensures { result ≡ has_word words.now word.now }
{
    words.iter().any(|other| other.is_same(word))
}

// The word in lower case.
fn lower_cased(alloc: Global, word: &[u8]) -> Result<Vec<u8>, AllocError>
    ensures { IfOk result (λ key. key.items ≡ lower_case word.now) }
{
    let mut key = word.to_vec(alloc)?;
    key.make_ascii_lowercase();
    Ok(key)
}

// Puts a word in, and tells whether it is new.
fn meet(alloc: Global, met: &mut BTreeSet<Vec<u8>>, word: &[u8]) -> Result<bool, AllocError>
    ensures new { (words : List (List ℕ)) → HasMet met.old words
        → IfOk result (λ new. new ≡ not (has_word words word.now)) }
    ensures met { (words : List (List ℕ)) → HasMet met.old words
        → IfOk result (λ new. HasMet met.new (words ++ word.now ∷ [])) }
{
    let key = lower_cased(alloc, word)?;
    Ok(met.insert(key)?)
}

// Whether each of the words stood before.
fn repeats(alloc: Global, words: &[TaggedWord<'_>]) -> Result<Vec<bool>, AllocError>
    ensures { IfOk result (λ repeats. repeats.items ≡ repeats_in words.now) }
{
    let mut met = BTreeSet::new(alloc);
    let mut repeats = Vec::with_capacity(alloc, words.len())?;
    for word in words {
        let is_new = meet(alloc, &mut met, word.text())?;
        repeats.push(!is_new)?;
    }
    Ok(repeats)
}

impl<'a> ListedWords<'a> {
    /// The words of a text.
    ///
    /// `AllocError`: no memory is left for them.
    pub fn of_text(alloc: Global, text: &'a [u8]) -> Result<ListedWords<'a>, AllocError>
        ensures { IfOk result (λ listed. listed ≡ words_of text.now) }
    {
        let words = tagged_words(alloc, text)?;
        let repeats = if words.len() > FEW {
            Some(repeats(alloc, &words)?)
        } else {
            None
        };
        Ok(ListedWords { words, repeats })
    }

    /// The words.
    pub fn words(&self) -> &[TaggedWord<'a>]
        ensures { result.now ≡ self.now }
    {
        &self.words
    }

    // Whether the word at a place stood before, in whatever case.
    #[tactic(auto, using(crate::proofs::Repeats::count_of, crate::proofs::Repeats::at_place))]
    pub(crate) fn is_repeated(&self, place: usize) -> bool
        requires { place < length self.now }
        ensures { result ≡ has_word (take place self.now) (slice_index_or self.now place []) }
    {
        match &self.repeats {
            Some(repeats) => repeats.as_slice()[place],
            None => is_met(&self.words[..place], &self.words[place]),
        }
    }
}
