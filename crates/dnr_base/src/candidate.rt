use crate::{Rank, Verb};

/// A rule that may decide a request, as its precedence sees it.
#[derive(Clone, Copy, Debug, PartialEq, Eq)]
pub struct Candidate {
    /// The rule's priority. The greater goes before.
    pub priority: u32,
    /// What it does.
    pub action: Verb,
    /// Where it stands in its extension.
    pub rank: Rank,
    /// Its id, which no other rule of this rank has.
    pub id: u32,
}
