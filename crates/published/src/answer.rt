use dnr_base::RuleName;
use dnr_verdict::{Explanation, Verdict};

/// What becomes of a request, and after how many updates.
#[derive(Debug, Drop)]
pub struct Answer {
    /// The count of the updates and batches by which it was decided.
    pub number: u32,
    /// The verdict after these.
    pub verdict: Verdict,
}

/// What becomes of a request and why, and after how many updates.
#[derive(Debug, Drop)]
pub struct Explained {
    /// The count of the updates and batches by which it was decided.
    pub number: u32,
    /// The explanation after these.
    pub explanation: Explanation,
}

/// Why a pass gives no answer.
#[derive(Debug, Drop)]
pub enum ReadRefusal {
    /// The host of patterns failed on the `regexFilter` of this rule, which is in force after so many updates and
    /// batches. The host's count of faults rose.
    HostFault(u32, RuleName),
    /// There was no copy to enter.
    NotEntered,
    /// Memory ran out.
    NoMemory,
}
