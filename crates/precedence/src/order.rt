ghost use Rattle.std.specs.Prelude.{◌≡◌};
ghost use Rattle.dnr_spec.specs.Order as spec;

use dnr_base::{Candidate, Rank, Verb, Winner};

// The place of an action among those of equal priority.
fn place_of(action: Verb) -> u32
    ensures { result ≡ spec.place_of action }
{
    action as u32
}

// The place of a rank.
fn rank_of(rank: Rank) -> u64
    ensures { result ≡ spec.rank_of rank }
{
    match rank {
        Rank::Session => 0,
        Rank::Dynamic => 1,
        Rank::Static(place) => u64::from(place) + 2,
    }
}

/// Whether `a` goes before `b` inside an extension: by the greater priority; then by the action, in the
/// order `allow`, `allowAllRequests`, `block`, `upgradeScheme`, `redirect`; then by the rank, in the order
/// session, dynamic, static rulesets by their places; then by the smaller id.
///
/// Source: Chrome's reference of declarativeNetRequest, "Rule prioritization"; rank and id are this
/// project's.
pub fn beats(a: &Candidate, b: &Candidate) -> bool
    ensures { result ≡ spec.beats a.now b.now }
{
    if a.priority != b.priority {
        return a.priority > b.priority;
    }
    let (own, other) = (place_of(a.action), place_of(b.action));
    if own != other {
        return own < other;
    }
    let (own, other) = (rank_of(a.rank), rank_of(b.rank));
    if own != other {
        return own < other;
    }
    a.id < b.id
}

// The class of an action across extensions; the smaller is the better.
fn class_of(action: Verb) -> u32
    ensures { result ≡ spec.class_of action }
{
    match action {
        Verb::Block => 0,
        Verb::UpgradeScheme | Verb::Redirect => 1,
        Verb::Allow | Verb::AllowAllRequests => 2,
    }
}

// Whether `a` goes before `b` across extensions.
pub(crate) fn prevails(a: &Winner, b: &Winner) -> bool
    ensures { result ≡ spec.prevails a.now b.now }
{
    let (own, other) = (class_of(a.action), class_of(b.action));
    if own != other {
        return own < other;
    }
    a.age > b.age
}
