/// What a header change does: the `HeaderOperation` of Chrome's reference of declarativeNetRequest.
#[derive(Clone, Copy, Debug, PartialEq, Eq)]
pub enum Operation {
    /// Adds a value behind the header's values.
    Append,
    /// Puts one value in place of all values of the header.
    Set,
    /// Takes the header away.
    Remove,
}
