use dnr_base::{NoMemory, RuleName};

/// Why a request is not decided.
#[derive(Debug, Drop)]
pub enum DecideRefusal {
    /// The host of patterns failed on the `regexFilter` of this rule, and its count of faults rose.
    HostFault(RuleName),
    /// Memory ran out.
    NoMemory,
}

impl From<NoMemory> for DecideRefusal {
    fn from(_: NoMemory) -> DecideRefusal {
        DecideRefusal::NoMemory
    }
}
