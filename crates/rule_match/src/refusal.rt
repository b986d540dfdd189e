/// Why a rule is not tested to its end.
#[derive(Clone, Copy, Debug, PartialEq, Eq)]
pub enum MatchRefusal {
    /// The host of patterns failed on the rule's `regexFilter`, and its count of faults rose.
    HostFault,
    /// Memory ran out.
    NoMemory,
}
