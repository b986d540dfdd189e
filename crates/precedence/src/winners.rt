ghost use Rattle.std.specs.Prelude.{◌≡◌, IsNone, ◌↔◌, []};
ghost use Rattle.dnr_spec.specs.Order as spec;
ghost use Rattle.precedence.specs.Best.{better};

use crate::order::{beats, prevails};
use dnr_base::{Candidate, Winner};

// The best candidate so far, with its place, once one more is seen.
fn better_candidate(
    best: Option<(usize, Candidate)>,
    place: usize,
    next: Candidate,
) -> Option<(usize, Candidate)>
    ensures { result ≡ better spec.beats best place next }
{
    match best {
        Some((at, candidate)) if !beats(&next, &candidate) => Some((at, candidate)),
        _ => Some((place, next)),
    }
}

/// The place of the candidate that no other beats: the one that decides inside an extension. Of candidates
/// of one rank and one id, which no extension has, the first counts.
///
/// `None`: the list is empty, and only then. It takes no memory, and walks the list once.
///
/// Source: Chrome's reference of declarativeNetRequest, "Rule prioritization".
pub fn inside(list: &[Candidate]) -> Option<usize>
    ensures winner { result ≡ spec.inside list.now }
    ensures none { IsNone result ↔ (list.now ≡ []) }
{
    let mut best = None;
    for (place, candidate) in list.iter().enumerate() {
        best = better_candidate(best, place, *candidate);
    }
    best.map(|(at, _)| at)
}

// The best winner so far, with its place, once one more is seen.
fn better_winner(
    best: Option<(usize, Winner)>,
    place: usize,
    next: Winner,
) -> Option<(usize, Winner)>
    ensures { result ≡ better spec.prevails best place next }
{
    match best {
        Some((at, winner)) if !prevails(&next, &winner) => Some((at, winner)),
        _ => Some((place, next)),
    }
}

/// The place of the winner that decides across extensions: that of the best class (a block; then a
/// redirect or an upgrade; then an allow), and of these that of the extension which was installed last. Of
/// winners of one class and one age, which no two extensions have, the first counts.
///
/// `None`: the list is empty, and only then. It takes no memory, and walks the list once.
///
/// Source: Chrome's reference of declarativeNetRequest, "Rule prioritization".
pub fn across(list: &[Winner]) -> Option<usize>
    ensures winner { result ≡ spec.across list.now }
    ensures none { IsNone result ↔ (list.now ≡ []) }
{
    let mut best = None;
    for (place, winner) in list.iter().enumerate() {
        best = better_winner(best, place, *winner);
    }
    best.map(|(at, _)| at)
}
