/// A place in a text, in bytes from 0: the bytes from `start` on, up to `end` and without it.
#[derive(Clone, Copy, Debug, PartialEq, Eq)]
pub struct Span {
    /// Its first byte.
    pub start: usize,
    /// The first byte behind it.
    pub end: usize,
}
