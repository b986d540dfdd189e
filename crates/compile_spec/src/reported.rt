use list_spec::Reason;

/// A line of a filter list that gives no rule, although it is neither blank nor a comment nor a header.
#[derive(Debug, Drop, PartialEq, Eq)]
pub struct Reported {
    /// The number of the line, from 1.
    pub line: u32,
    /// Why.
    pub reason: Reason,
}
