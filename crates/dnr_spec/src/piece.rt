/// A piece of a pattern that a whole text fits.
#[derive(Clone, Copy, Debug, PartialEq, Eq)]
pub enum Piece {
    /// Any number of bytes.
    AnyBytes,
    /// No byte, or one.
    AtMostOne,
    /// This byte.
    Byte(u8),
}
