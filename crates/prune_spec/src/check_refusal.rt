/// Why a list of removals is no proof that rules are needless, in the order in which an entry is
/// tested. A place is that of the first entry at fault, from 0.
#[derive(Clone, Copy, Debug, PartialEq, Eq)]
pub enum CheckRefusal {
    /// One of the entry's ids is that of no rule.
    UnknownId(usize),
    /// The entry removes a rule that an earlier one removes.
    RemovedTwice(usize),
    /// The rule that the entry keeps is removed by some entry.
    KeeperRemoved(usize),
    /// The rule that the entry keeps does not make the other needless.
    NotShadowed(usize),
    /// The list is a proof, and memory ran out for the rules that it leaves.
    NoMemory,
}
