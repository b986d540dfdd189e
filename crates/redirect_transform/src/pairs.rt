ghost use Rattle.std.specs.Prelude.{◌≡◌, ◌+◌, ◌<◌, ◌^◌, ℕ, List, [], IfOk, OnOk, length, slice_get, string_bytes};
ghost use Rattle.std.specs.Option.{option_copied, option_map_or};
ghost use Rattle.dnr_spec.specs.Transform as spec;
ghost use Rattle.redirect_transform.specs.Counter.{count_of};
ghost use Rattle.redirect_transform.specs.Written.{with_piece};

use crate::counter::Counter;
use dnr_base::{NoMemory, QueryPair};
use form_urlencoded::Serializer;
use std::alloc::Global;

/// The pair of this key that stands behind so many others of it. `totals` says how many a key has, so that
/// the pairs are searched only where there is one.
pub fn pair_for<'a>(
    totals: &Counter,
    pairs: &'a [QueryPair],
    key: &str,
    place: usize,
) -> Option<&'a QueryPair>
    requires { (key : List ℕ) → count_of totals.now key ≡ length (spec.pairs_with key pairs.now) }
    ensures { option_copied result ≡ slice_get (spec.pairs_with key.now pairs.now) place }
{
    if place < totals.count(key) {
        pair_at(pairs, key, place)
    } else {
        None
    }
}

fn pair_at<'a>(pairs: &'a [QueryPair], key: &str, place: usize) -> Option<&'a QueryPair>
    ensures { option_copied result ≡ slice_get (spec.pairs_with key.now pairs.now) place }
{
    let mut before = place;
    for pair in pairs {
        if key == pair.key.as_str() {
            if before == 0 {
                return Some(pair);
            }
            before -= 1;
        }
    }
    None
}

/// Adds what stands in the place of a piece: the pair, or the piece itself.
///
/// `NoMemory`: no memory is left for it.
pub fn push_new(
    alloc: Global,
    query: &mut String,
    pair: Option<&QueryPair>,
    piece: &str,
) -> Result<(), NoMemory>
    ensures { OnOk result (string_bytes query.new ≡ with_piece (string_bytes query.old)
        (option_map_or spec.piece_of (option_copied pair.entry) piece.now)) }
{
    match pair {
        Some(pair) => push_pair(alloc, query, pair),
        None => push_piece(query, piece),
    }
}

/// Adds the piece of a pair.
///
/// `NoMemory`: no memory is left for it.
pub fn push_pair(alloc: Global, query: &mut String, pair: &QueryPair) -> Result<(), NoMemory>
    ensures { OnOk result (string_bytes query.new
        ≡ with_piece (string_bytes query.old) (spec.piece_of pair.now)) }
{
    let mut form = Serializer::new(String::new(alloc));
    form.append_pair(pair.key.as_str(), pair.value.as_str())?;
    let piece = form.finish();
    push_piece(query, piece.as_str())
}

fn push_piece(query: &mut String, piece: &str) -> Result<(), NoMemory>
    ensures { OnOk result (string_bytes query.new ≡ with_piece (string_bytes query.old) piece.now) }
{
    let mark = if query.is_empty() { "?" } else { "&" };
    query.push_str(mark)?;
    query.push_str(piece)?;
    Ok(())
}
