// Which rules of a list may reach a request, found by its index.
ghost use Rattle.std.specs.Prelude.{◌≡◌, ◌≤◌, ◌<◌, ◌+◌, ◌++◌, ℕ, List, Some, length, IfSome, OnOk};
ghost use Rattle.std.specs.List.{Contains, sum_by};
ghost use Rattle.std.specs.List.Sorted.{IsStrictlySortedBy};
ghost use Rattle.dnr_base.specs.Request.{frame_part, max_frames, own_part};
ghost use Rattle.dnr_base.specs.View.{IsView};
ghost use Rattle.rule_index.specs.Index.{near};
ghost use Rattle.rule_index.specs.Needs as needs;
ghost use Rattle.generation.specs.Block.{listed_in};
ghost use Rattle.generation.specs.Hits as spec;
ghost use Rattle.generation.specs.LongFrames.{AreLong};

use crate::block::Block;
use crate::long_frames::long_at;
use dnr_base::{NoMemory, Request};
use rule_index::{ListIndex, ListedPart, Walk, shown_by};
use std::alloc::Global;

// The place of a rule in its list, and the part by which it may reach the request: 0 for the request itself, and one more
// than its place for a frame.
pub(crate) type Hit = (u32, u32);

// How many hits a request has at most, but for few requests.
const ROOM: usize = 64;

// No hits, with room for those of most requests, if there is memory for it: a vector that grows takes a lock of the
// allocator, which threads share.
pub(crate) fn no_hits(alloc: Global) -> Option<Vec<Hit>> {
    let hits: Result<_, _> = Vec::with_capacity(alloc, ROOM);
    hits.ok()
}

// Puts a hit for each of the places behind the others.
fn push_all(hits: &mut Vec<Hit>, places: Walk<'_>, part: u32) -> Result<(), NoMemory>
    ensures { OnOk result (hits.new.items ≡ hits.old.items ++ spec.hits_by places.entry part) }
{
    let mut places = places;
    while let Some(place) = places.next() {
        hits.push((place, part))?;
    }
    Ok(())
}

// Puts the hits of the frame at a place behind the others, if it has a URL.
fn push_frame(
    hits: &mut Vec<Hit>,
    index: &ListIndex,
    request: &Request,
    long: &[Option<ListedPart<'_>>],
    place: usize,
) -> Result<(), NoMemory>
    requires place { place < max_frames }
    requires long { AreLong long.now request.now }
    ensures hits { OnOk result (hits.new.items
        ≡ hits.old.items ++ spec.hits_on index.now.framing (place + 1) (frame_part request.now place)) }
    ensures view { IfSome (frame_part request.now place) (λ part. IsView part.view) }
{
    let Some(part) = request.frame_part(place) else {
        return Ok(());
    };
    let _text = part.view.text();
    let number = place as u32 + 1;
    match long_at(long, request, place) {
        Some(listed) => push_all(hits, index.framing_listed(listed), number),
        None => push_all(hits, index.framing_candidates(&part), number),
    }
}

// Puts the hits of the frames behind the others.
fn push_frames(
    hits: &mut Vec<Hit>,
    index: &ListIndex,
    request: &Request,
    long: &[Option<ListedPart<'_>>],
) -> Result<(), NoMemory>
    requires frames { length request.now.frames ≤ max_frames }
    requires long { AreLong long.now request.now }
    ensures hits { OnOk result (hits.new.items
        ≡ hits.old.items ++ spec.frame_hits index.now.framing request.now 0 request.now.frames) }
    ensures views { OnOk result ((place : ℕ) → place < length request.now.frames
        → IfSome (frame_part request.now place) (λ part. IsView part.view)) }
{
    for place in 0..request.frames.as_slice().len() {
        push_frame(hits, index, request, long, place)?;
    }
    Ok(())
}

// Puts the hits of the request itself behind the others. None that reaches by it is left out.
fn push_own(
    hits: &mut Vec<Hit>,
    index: &ListIndex,
    request: &Request,
    own: &ListedPart<'_>,
) -> Result<(), NoMemory>
    requires { own.now ≡ own_part request.now }
    ensures hits { OnOk result (hits.new.items
        ≡ hits.old.items ++ spec.hits_by (near index.now.whole (Some (needs.shown_by own.now)) (own_part request.now)) 0) }
    ensures view { IsView request.now.view }
{
    let _text = request.view.text();
    push_all(hits, index.near_listed(own), 0)
}

// Puts the hits in order, each once.
fn sort_once(hits: &mut Vec<Hit>)
    ensures sorted { IsStrictlySortedBy spec.hit_cmp hits.new.items }
    ensures all { (hit : ℕ × ℕ) → Contains hits.old.items hit → Contains hits.new.items hit }
    ensures few { (weight : ℕ × ℕ → ℕ) → sum_by weight hits.new.items ≤ sum_by weight hits.old.items }
{
    hits.sort_unstable();
    hits.dedup();
}

// The rules of the block that may reach the request, of which these are the own part and the long
// frames, in place of what was there.
pub(crate) fn find(
    hits: &mut Vec<Hit>,
    block: &Block<'_>,
    request: &Request,
    own: &ListedPart<'_>,
    long: &[Option<ListedPart<'_>>],
) -> Result<(), NoMemory>
    requires frames { length request.now.frames ≤ max_frames }
    requires long { AreLong long.now request.now }
    requires own { own.now ≡ own_part request.now }
    ensures { OnOk result (spec.AreHits (listed_in block.now) request.now hits.new.items) }
{
    let index = block.index();
    hits.clear();
    push_own(hits, index, request, own)?;
    push_frames(hits, index, request, long)?;
    sort_once(hits);
    Ok(())
}

// What the request itself shows.
pub(crate) fn shown(request: &Request) -> u128
    ensures { result ≡ needs.shown_by (own_part request.now) }
{
    shown_by(&request.own_part())
}
