use crate::hide_reason::HideReason;

/// A line of a filter list that is for hiding elements and is not used.
#[derive(Clone, Copy, Debug, PartialEq, Eq)]
pub struct HideReported {
    /// The number of the line, from 1.
    pub line: u32,
    /// Why.
    pub reason: HideReason,
}
