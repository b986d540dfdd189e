/// Why a text is no regexSubstitution.
#[derive(Clone, Copy, Debug, PartialEq, Eq)]
pub enum SubstitutionRefusal {
    /// It has more than 2,048 bytes, or a backslash before something else than a backslash and the digit of
    /// a group that the pattern has.
    BadSubstitution,
    /// Memory ran out.
    NoMemory,
}
