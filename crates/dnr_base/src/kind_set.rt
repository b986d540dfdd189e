ghost use Rattle.std.specs.Prelude.{◌≡◌, ◌<◌, ◌^◌, [], true, not, ◌&&◌, ◌||◌, filter};
ghost use Rattle.dnr_base.specs.Kind.{all_kinds, default_kinds, place_of, same_kind, has_kind};
ghost use Rattle.dnr_base.specs.declared.kind.Kind.{Kind};

use crate::Kind;

/// A set of resource types: those of the `resourceTypes` of a rule's condition in Chrome's reference of
/// declarativeNetRequest. Sets of the same types are equal. No call takes memory.
#[derive(Clone, Copy, Debug, PartialEq, Eq)]
pub struct KindSet {
    bits: u16,
    // A bit beyond the types would make sets of the same types differ.
    ghost types_alone: { bits < 2 ^ 15 },
}

impl KindSet {
    ghost use Rattle.dnr_base.specs.KindSet.{kinds_of};

    /// The set without types.
    pub fn empty() -> KindSet
        ensures { kinds_of result ≡ [] }
    {
        KindSet { bits: 0 }
    }

    /// All fifteen types.
    pub fn all() -> KindSet
        ensures list { kinds_of result ≡ all_kinds }
        ensures members { (kind : Kind) → has_kind (kinds_of result) kind ≡ true }
    {
        KindSet { bits: 0x7fff }
    }

    /// The types on which a rule holds that lists none: by Chrome's reference all but `main_frame`.
    pub fn all_but_main_frame() -> KindSet
        ensures list { kinds_of result ≡ default_kinds }
        ensures members { (kind : Kind) → has_kind (kinds_of result) kind ≡ not (same_kind kind Kind.MainFrame) }
    {
        KindSet { bits: 0x7ffe }
    }

    /// Whether the type is in the set.
    pub fn contains(&self, kind: Kind) -> bool
        ensures { result ≡ has_kind (kinds_of self.now) kind }
    {
        self.bits & bit(kind) != 0
    }

    /// Puts a type in, and keeps the others. A type that is in stays in.
    pub fn insert(&mut self, kind: Kind)
        ensures members { (other : Kind) → has_kind (kinds_of self.new) other ≡ (same_kind kind other || has_kind (kinds_of self.old) other) }
        ensures list { kinds_of self.new ≡ filter (λ other. same_kind kind other || has_kind (kinds_of self.old) other) all_kinds }
    {
        self.bits |= bit(kind);
    }

    /// Takes a type out, and keeps the others. A type that is not in stays out.
    pub fn remove(&mut self, kind: Kind)
        ensures members { (other : Kind) → has_kind (kinds_of self.new) other ≡ (not (same_kind kind other) && has_kind (kinds_of self.old) other) }
        ensures list { kinds_of self.new ≡ filter (λ other. not (same_kind kind other) && has_kind (kinds_of self.old) other) all_kinds }
    {
        self.bits &= !bit(kind);
    }

    /// Sets of the same types are equal. This is a law of all sets, and the function does nothing.
    #[tactic(auto, using(crate::proofs::KindSets::same_set))]
    pub fn same_types_are_one_set()
        ensures { (one other : KindSet) → kinds_of one ≡ kinds_of other → one ≡ other }
    {}
}

// The bit of a type: the first type has the lowest.
fn bit(kind: Kind) -> u16
    ensures { result ≡ 2 ^ place_of kind }
{
    1 << kind.place()
}
