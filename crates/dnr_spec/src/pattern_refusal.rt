/// Why a text is no urlFilter.
#[derive(Clone, Copy, Debug, PartialEq, Eq)]
pub enum PatternRefusal {
    /// The text is empty.
    Empty,
    /// It has more than 8,192 bytes.
    TooLong,
    /// It begins with `||*`.
    AnchorStar,
    /// It has a byte past ASCII.
    NotAscii,
    /// Memory ran out.
    NoMemory,
}
