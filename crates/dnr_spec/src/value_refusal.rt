/// Why a text is no pattern of header values.
#[derive(Clone, Copy, Debug, PartialEq, Eq)]
pub enum ValueRefusal {
    /// It has a byte past ASCII, a `\` before another byte than `*`, `?` and `\` or before none, or more than 8,192
    /// bytes.
    BadValuePattern,
    /// Memory ran out.
    NoMemory,
}
