// The words of a filter, each read once.
ghost use Rattle.std.specs.Prelude.{◌≡◌, ◌≤◌, ◌<◌, ◌++◌, ◌∷◌, ◌&&◌, true, fold, length, option_map};
ghost use Rattle.std.specs.Option.{option_copied};
ghost use Rattle.dnr_spec.specs.Domains.{lower_case};
ghost use Rattle.dnr_spec.specs.UrlFilter.{filter_of};
ghost use Rattle.index_spec.specs.Words as spec;
ghost use Rattle.rule_index.specs.Index as index;
ghost use Rattle.rule_index.specs.Needs.{with_bits, places_of_words, words_needed};
ghost use Rattle.rule_index.specs.Tokens.{tokens_in, word_or_none, is_firm_end};

use crate::needs::with_tag;
use crate::pieces::pieces_of;
use crate::token::{is_common, is_firm};
use dnr_rules::Condition;
use key_table::Asked;

/// What the words of a filter say to an index.
#[derive(Clone, Copy, Debug)]
pub(crate) struct FilterWords<'a> {
    /// The bits of its words.
    pub bits: u128,
    /// Its token, in the case in which it stands there.
    pub token: Option<&'a [u8]>,
}

// The words that were read so far.
#[derive(Clone, Copy, Debug)]
struct ReadWords<'a> {
    bits: u128,
    // The longest that is not common, and empty where none is.
    longest: &'a [u8],
}

// What stands at the beginning of a text: a word of which both ends are firm, or what is none. It is
// empty then.
#[derive(Clone, Copy, Debug)]
struct Piece<'a> {
    word: &'a [u8],
    // What stands behind, and whether what stands directly before that is firm.
    rest: &'a [u8],
    left: bool,
}

/// The words of a condition's filter.
pub(crate) fn words_in(condition: &Condition) -> FilterWords<'_>
    ensures bits { result.bits
        ≡ with_bits 0 (places_of_words (words_needed condition.now.url_filter)) }
    ensures token { option_map lower_case (option_copied result.token)
        ≡ index.token_in condition.now }
{
    match condition.url_filter() {
        Some(filter) => words_of(filter.text().as_bytes()),
        None => FilterWords {
            bits: 0,
            token: None,
        },
    }
}

#[tactic(auto, using(crate::proofs::Tokens::token_told, crate::proofs::Tokens::no_token))]
fn words_of(text: &[u8]) -> FilterWords<'_>
    ensures bits { result.bits
        ≡ with_bits 0 (places_of_words (spec.words_of_filter (filter_of text.now))) }
    ensures token { option_map lower_case (option_copied result.token) ≡ spec.token_of text.now }
{
    let pieces = pieces_of(text);
    let read = read_words(pieces.anchored, pieces.ends, pieces.body);
    let token = if read.longest.is_empty() {
        None
    } else {
        Some(read.longest)
    };
    FilterWords {
        bits: read.bits,
        token,
    }
}

// The words of a body.
fn read_words(anchored: bool, ends: bool, body: &[u8]) -> ReadWords<'_>
    ensures bits { result.bits
        ≡ with_bits 0 (places_of_words (spec.firm_words anchored ends body.now)) }
    ensures longest { lower_case result.longest.now
        ≡ spec.longest_of (tokens_in (spec.firm_words anchored ends body.now)) }
{
    let mut read = ReadWords {
        bits: 0,
        longest: &[],
    };
    let mut left = anchored;
    let mut rest = body;
    'pieces: while let Some((first, behind)) = rest.split_first() {
        let piece = next_piece(left, ends, rest, *first, behind);
        read = with_word(read.bits, read.longest, piece.word);
        left = piece.left;
        rest = piece.rest;
    }
    read
}

// With a word more, if it has a byte.
fn with_word<'a>(bits: u128, longest: &'a [u8], word: &'a [u8]) -> ReadWords<'a>
    ensures bits { result.bits ≡ with_bits bits (places_of_words (word_or_none word.now)) }
    ensures longest { lower_case result.longest.now
        ≡ fold spec.longer_of (lower_case longest.now) (tokens_in (word_or_none word.now)) }
{
    if word.is_empty() {
        return ReadWords { bits, longest };
    }
    ReadWords {
        bits: with_tag(bits, Asked::in_lower_case(word).tag()),
        longest: better(longest, word),
    }
}

// The longer of a word and another that is not common.
fn better<'a>(best: &'a [u8], word: &'a [u8]) -> &'a [u8]
    requires { 0 < length word.now }
    ensures { lower_case result.now
        ≡ fold spec.longer_of (lower_case best.now) (tokens_in (word_or_none word.now)) }
{
    if word.len() > best.len() && !is_common(word) {
        word
    } else {
        best
    }
}

// The next piece of a text, which has a byte.
#[tactic(auto, using(crate::proofs::FirmWords::first_of_word, crate::proofs::FirmWords::no_word))]
fn next_piece<'a>(left: bool, ends: bool, text: &'a [u8], first: u8, behind: &'a [u8]) -> Piece<'a>
    requires { text.now ≡ first ∷ behind.now }
    ensures words { spec.firm_words left ends text.now
        ≡ word_or_none result.word.now ++ spec.firm_words result.left ends result.rest.now }
    ensures shorter { length result.rest.now < length text.now }
{
    if first.is_ascii_alphanumeric() {
        return word_piece(left, ends, text);
    }
    Piece {
        word: &[],
        rest: behind,
        left: is_firm(first),
    }
}

// The same where a letter or a digit is first.
fn word_piece(left: bool, ends: bool, text: &[u8]) -> Piece<'_>
    requires { spec.is_filled (spec.word_at text.now) ≡ true }
    ensures words { spec.firm_words left ends text.now
        ≡ word_or_none result.word.now ++ spec.firm_words result.left ends result.rest.now }
    ensures shorter { length result.rest.now < length text.now }
{
    let (word, rest) = text.split_at(word_end(text));
    if is_firm_word(left, ends, rest) {
        return Piece {
            word,
            rest,
            left: false,
        };
    }
    Piece {
        word: &[],
        rest,
        left: false,
    }
}

// Whether a word is firm that stands before this.
fn is_firm_word(left: bool, ends: bool, rest: &[u8]) -> bool
    ensures { result ≡ (left && is_firm_end ends rest.now) }
{
    left && is_firm_end(ends, rest)
}

// Where the run of letters and digits at the beginning ends.
fn word_end(text: &[u8]) -> usize
    ensures within { result ≤ length text.now }
    ensures end { result ≡ length (spec.word_at text.now) }
{
    let mut end = 0;
    while end < text.len() && text[end].is_ascii_alphanumeric() {
        end += 1;
    }
    end
}

// Whether a word ends firmly before this.
fn is_firm_end(ends: bool, rest: &[u8]) -> bool
    ensures { result ≡ is_firm_end ends rest.now }
{
    match rest.first() {
        Some(c) => is_firm(*c),
        None => ends,
    }
}
