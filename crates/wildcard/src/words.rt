// Words of 64 answers, each for a byte of a text. The lowest is for the last of these bytes.
ghost use Rattle.std.specs.Prelude.{◌≡◌, ◌≢◌, ◌&&◌, ◌||◌, ◌+◌, ◌<◌, ℕ, true, false};
ghost use Rattle.wildcard.specs.Words.{tells};

/// Whether the word tells `true` at this place.
pub(crate) fn told(word: u64, place: u32) -> bool
    requires { place < 64 }
    ensures { result ≡ tells word place }
{
    (word >> place) & 1 == 1
}

/// The word that tells `true` at this place too.
pub(crate) fn with(word: u64, place: u32) -> u64
    requires { place < 64 }
    ensures here { tells result place ≡ true }
    ensures others { (i : ℕ) → i ≢ place → tells result i ≡ tells word i }
{
    word | (1 << place)
}

pub(crate) fn both(one: u64, other: u64) -> u64
    ensures { (i : ℕ) → tells result i ≡ (tells one i && tells other i) }
{
    one & other
}

pub(crate) fn either(one: u64, other: u64) -> u64
    ensures { (i : ℕ) → tells result i ≡ (tells one i || tells other i) }
{
    one | other
}

/// For each byte what the word tells for the next, and for the last byte `last`.
pub(crate) fn behind(word: u64, last: bool) -> u64
    ensures last { tells result 0 ≡ last }
    ensures others { (i : ℕ) → i < 63 → tells result (i + 1) ≡ tells word i }
{
    (word << 1) | u64::from(last)
}

/// For each byte whether the word tells `true` for it or one behind it, or `last` is true.
pub(crate) fn here_or_later(word: u64, last: bool) -> u64
    ensures last { tells result 0 ≡ (tells word 0 || last) }
    ensures others { (i : ℕ) → i < 63 → tells result (i + 1) ≡ (tells word (i + 1) || tells result i) }
{
    let some = word | u64::from(last);
    if some == 0 {
        0
    } else {
        u64::MAX << some.trailing_zeros()
    }
}
