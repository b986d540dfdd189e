ghost use Rattle.std.specs.Prelude.{◌≡◌, ◌<◌, ◌^◌, [], true, not, ◌&&◌, ◌||◌, filter};
ghost use Rattle.dnr_base.specs.Method.{all_methods, place_of, same_method, has_method};
ghost use Rattle.dnr_base.specs.declared.method.Method.{Method};

use crate::Method;

/// A set of methods: those of the `requestMethods` of a rule's condition in Chrome's reference of
/// declarativeNetRequest. Sets of the same methods are equal. No call takes memory.
#[derive(Clone, Copy, Debug, PartialEq, Eq)]
pub struct MethodSet {
    bits: u16,
    // A bit beyond the methods would make sets of the same methods differ.
    ghost methods_alone: { bits < 2 ^ 9 },
}

impl MethodSet {
    ghost use Rattle.dnr_base.specs.MethodSet.{methods_of};

    /// The set without methods.
    pub fn empty() -> MethodSet
        ensures { methods_of result ≡ [] }
    {
        MethodSet { bits: 0 }
    }

    /// All nine methods.
    pub fn all() -> MethodSet
        ensures list { methods_of result ≡ all_methods }
        ensures members { (method : Method) → has_method (methods_of result) method ≡ true }
    {
        MethodSet { bits: 0x1ff }
    }

    /// Whether the method is in the set.
    pub fn contains(&self, method: Method) -> bool
        ensures { result ≡ has_method (methods_of self.now) method }
    {
        self.bits & bit(method) != 0
    }

    /// Puts a method in, and keeps the others. A method that is in stays in.
    pub fn insert(&mut self, method: Method)
        ensures members { (other : Method) → has_method (methods_of self.new) other
            ≡ (same_method method other || has_method (methods_of self.old) other) }
        ensures list { methods_of self.new
            ≡ filter (λ other. same_method method other || has_method (methods_of self.old) other) all_methods }
    {
        self.bits |= bit(method);
    }

    /// Takes a method out, and keeps the others. A method that is not in stays out.
    pub fn remove(&mut self, method: Method)
        ensures members { (other : Method) → has_method (methods_of self.new) other
            ≡ (not (same_method method other) && has_method (methods_of self.old) other) }
        ensures list { methods_of self.new
            ≡ filter (λ other. not (same_method method other) && has_method (methods_of self.old) other) all_methods }
    {
        self.bits &= !bit(method);
    }

    /// Sets of the same methods are equal. This is a law of all sets, and the function does nothing.
    #[tactic(auto, using(crate::proofs::MethodSets::same_set))]
    pub fn same_methods_are_one_set()
        ensures { (one other : MethodSet) → methods_of one ≡ methods_of other → one ≡ other }
    {}
}

// The bit of a method: the first method has the lowest.
fn bit(method: Method) -> u16
    ensures { result ≡ 2 ^ place_of method }
{
    1 << method.place()
}
