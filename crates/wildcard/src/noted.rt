// Where a part of a text has each byte.
ghost use Rattle.std.specs.Prelude.{◌≡◌, ◌+◌, ◌<◌, ◌≤◌, ℕ, List, length, slice_index};
ghost use Rattle.dnr_spec.specs.UrlFilter as filter;
ghost use Rattle.wildcard.specs.Words as spec;
ghost use Rattle.wildcard.specs.Words.{AreNoted, tells};

use crate::words::with;

// A byte by which its word is found: in lower case where the pattern folds.
fn key(fold: bool, byte: u8) -> u8
    ensures { result ≡ spec.key fold byte }
{
    if fold {
        byte.to_ascii_lowercase()
    } else {
        byte
    }
}

/// The word that tells where the text has this byte.
pub(crate) fn places_of(words: &[u64], fold: bool, wanted: u8) -> u64
    requires { length words.now ≡ 256 }
    ensures { (text : List ℕ) (to count i j : ℕ) → AreNoted fold text to count words.now → i < count → (i + j) + 1 ≡ to
        → tells result i ≡ filter.is_same fold (slice_index text j) wanted }
{
    words[usize::from(key(fold, wanted))]
}

fn clear(words: &mut [u64])
    ensures size { length words.new ≡ length words.old }
    ensures none { (k : ℕ) → k < length words.old → slice_index words.new k ≡ 0 }
{
    for place in 0..words.len() {
        words[place] = 0;
    }
}

/// Notes where the text has each byte, in so many before `to`.
pub(crate) fn note(words: &mut [u64], fold: bool, text: &[u8], to: usize, count: usize)
    requires size { length words.old ≡ 256 }
    requires within { to ≤ length text.now }
    requires order { count ≤ to }
    requires few { count ≤ 64 }
    ensures { AreNoted fold text.now to count words.new }
{
    clear(words);
    for place in 0..count {
        let found = usize::from(key(fold, text[to - 1 - place]));
        words[found] = with(words[found], place as u32);
    }
}
