//! What rules need and parts show, as bits.
ghost use Rattle.std.specs.Prelude.{◌≡◌, ◌<◌, [], ◌∷◌, true};
ghost use Rattle.dnr_base.specs.Kind.{all_kinds, default_kinds};
ghost use Rattle.dnr_base.specs.KindSet.{kinds_of};
ghost use Rattle.dnr_base.specs.View.{text_of};
ghost use Rattle.index_spec.specs.Words as words;
ghost use Rattle.rule_index.specs.Needs as spec;

use dnr_base::{Kind, KindSet, Part};
use dnr_rules::Condition;
use key_table::{Asked, bucket_of};
use key_walk::{TaggedWord, Words};

// How many bits words have, before those of types.
const WORDS: u32 = 112;

fn with_bit(bits: u128, place: u32) -> u128
    requires { place < 128 }
    ensures { result ≡ spec.with_bit bits place }
{
    bits | (1 << place)
}

/// With both bits of a word that has this tag.
#[tactic(auto, unfolding(crate::specs::Needs::low_half))]
pub(crate) fn with_tag(bits: u128, tag: u32) -> u128
    ensures { result ≡ spec.with_bits bits (spec.places_of_tag tag) }
{
    let first = bucket_of(WORDS, tag) as u32;
    let second = bucket_of(WORDS, tag << 16) as u32;
    with_bit(with_bit(bits, first), second)
}

// With the bits of the types that are not in the set. Most rules hold on all but one.
fn with_others(bits: u128, kinds: KindSet) -> u128
    ensures { result ≡ spec.with_bits bits (spec.places_of_others (kinds_of kinds) all_kinds) }
{
    if is_default(kinds) {
        with_bit(bits, WORDS + Kind::MainFrame.place())
    } else {
        with_each_other(bits, kinds)
    }
}

// Whether these are the types of a rule that names none.
fn is_default(kinds: KindSet) -> bool
    ensures { result ≡ true → kinds_of kinds ≡ default_kinds }
{
    kinds == KindSet::all_but_main_frame()
}

fn with_each_other(bits: u128, kinds: KindSet) -> u128
    ensures { result ≡ spec.with_bits bits (spec.places_of_others (kinds_of kinds) all_kinds) }
{
    let mut bits = bits;
    let mut left: &[Kind] = &Kind::ALL;
    while let Some((kind, rest)) = left.split_first() {
        if !kinds.contains(*kind) {
            bits = with_bit(bits, WORDS + kind.place());
        }
        left = rest;
    }
    bits
}

// The bits of the words of a text.
fn words_shown(text: &[u8]) -> u128
    ensures { result ≡ spec.with_bits 0 (spec.places_of_words (words.words_of text.now)) }
{
    let mut words = Words::new(text);
    let mut bits = 0;
    while let Some(word) = words.next() {
        bits = with_tag(bits, Asked::in_lower_case(word).tag());
    }
    bits
}

// The same of words whose tags are known.
fn tagged_shown(words: &[TaggedWord<'_>]) -> u128
    ensures { result ≡ spec.with_bits 0 (spec.places_of_words words.now) }
{
    let mut bits = 0;
    for word in words {
        bits = with_tag(bits, word.tag());
    }
    bits
}

// With the bits of the types that are not this one.
fn with_others_than(bits: u128, kind: Kind) -> u128
    ensures { result ≡ spec.with_bits bits (spec.places_of_others (kind ∷ []) all_kinds) }
{
    let mut own = KindSet::empty();
    own.insert(kind);
    with_others(bits, own)
}

/// What a condition needs of a part, as bits. Those of its words are given.
#[tactic(auto, unfolding(crate::specs::Needs::needs_of))]
pub(crate) fn needs_with(words: u128, condition: &Condition) -> u128
    requires { words
        ≡ spec.with_bits 0 (spec.places_of_words (spec.words_needed condition.now.url_filter)) }
    ensures { result ≡ spec.needs_of condition.now }
{
    with_others(words, condition.kinds())
}

/// What a part shows of what rules need, as bits: a rule that needs a bit which is not shown does not hold.
#[tactic(auto, unfolding(crate::specs::Needs::shown_by))]
pub fn shown_by(part: &Part<'_>) -> u128
    ensures { result ≡ spec.shown_by part.now }
{
    with_others_than(words_shown(part.view.text().as_bytes()), part.kind)
}

/// What a part that has these words shows.
#[tactic(auto, unfolding(crate::specs::Needs::shown_by))]
pub(crate) fn shown_with(part: &Part<'_>, tagged: &[TaggedWord<'_>]) -> u128
    requires { tagged.now ≡ words.words_of (text_of part.now.view) }
    ensures { result ≡ spec.shown_by part.now }
{
    with_others_than(tagged_shown(tagged), part.kind)
}
